//! A meter in a program of one's own: a device and its centre over storage in memory, without the bench. The device is made,
//! enrolled, inspected and loaded, franks a piece, and the mark is verified.
#![tactic(auto)]

ghost use Rattle.std.specs.Prelude.{IfOk};
ghost use Rattle.nv_model.specs.Meters.{Works};

use anyhow::{Context, Result, bail};
use bench_base::numbers::{Customer, DayNo, DevNo};
use bench_base::sizes::{CENTRE_BYTES, CENTRE_CELLS, DEVICE_BYTES};
use bench_base::words::{Key, Kind};
use centre_protocol::{Centre, CentreAnswer};
use indicium::{read_indicium, verify_mark};
use nv_model::{MemNv, Nv};
use nv_store::Room;
use psd_device::{Device, Taken};
use psd_wire::DebitMsg;
use std::alloc::{AllocError, Global};

/// Only the device and the centre have it.
const KEY: Key = [1; 32];

/// The location of the device, as a postal code.
const ORIGIN: u32 = 94_105;

/// A storage of so many zero bytes. It keeps a record of its calls, with room for 100 of them and 10,000 written bytes; a
/// program over files takes `FileNv` in its place.
fn blank(alloc: Global, bytes: u32) -> Result<MemNv, AllocError>
    ensures { IfOk result (λ nv. Works (⟦<MemNv as Nv>⟧.meters nv)) }
{
    let content = vec![in alloc; 0; bytes as usize]?;
    MemNv::new(alloc, content, Vec::new(alloc), 100, 10_000)
}

/// Brings one transaction to its end, by three messages: the request, the reply to it, and that it was applied. Each may be
/// lost or come twice; `resend` and `ack` give the device's once more, byte for byte.
fn transact(
    rt: &HostRuntime,
    device: &mut Device<MemNv>,
    centre: &mut Centre<MemNv>,
    kind: Kind,
    amount: u32,
    day: DayNo,
) -> Result<()> {
    // The customer counts for an enrolment only, and the amount, in mills, for a reset only.
    // sample embedded_meter
    let request = device.ask(kind, 1, amount, day).ok().context("not asked")?;
    let ruled = centre.take(request.as_slice()).ok().context("not ruled")?;
    let CentreAnswer::Ruled { reply, .. } = ruled else {
        bail!("no reply");
    };
    let taken = device
        .take(reply.as_slice(), day)
        .ok()
        .context("not taken")?;
    let Taken::Applied { number, verdict } = taken else {
        bail!("not applied");
    };
    let done = device.ack().ok().context("nothing done")?;
    centre.take(done.as_slice()).ok().context("not settled")?;
    // end of sample
    println!(rt; "{number} {kind:?} {verdict:?}")?;
    Ok(())
}

/// Franks a piece, once more as if the answer had been lost, and verifies the mark.
fn frank(rt: &HostRuntime, device: &mut Device<MemNv>, day: DayNo) -> Result<()> {
    // sample psd_device
    let command = DebitMsg {
        device: 1,
        piece: 1,
        postage: 550,
        class: 1,
    };
    let first = device.debit(&command, day).ok().context("not franked")?;
    let again = device.debit(&command, day).ok().context("not given again")?;
    let bytes = first.mark;
    println!(rt; "franked, again {}", first.again)?;
    println!(rt;
        "franked, again {}, the same mark {}",
        again.again,
        again.mark == bytes
    )?;
    // end of sample

    // sample indicium
    let Ok((mark, _)) = read_indicium(&bytes) else {
        bail!("no mark");
    };
    println!(rt;
        "piece {} postage {} ascending {} descending {}",
        mark.piece, mark.postage, mark.ascending, mark.descending
    )?;
    println!(rt; "verified {}", verify_mark(&bytes, &KEY))?;
    let mut changed = bytes;
    changed[11] ^= 1;
    println!(rt;
        "verified with a bit changed {}",
        verify_mark(&changed, &KEY)
    )?;
    // end of sample
    Ok(())
}

fn main(rt: HostRuntime) -> Result<()> {
    let alloc = rt.alloc();
    let number = DevNo::new(1).context("devices are 1 to 8")?;
    let customer = Customer::new(1).context("customers are 1 to 64")?;
    let day = DayNo::new(20_513).context("days are 10957 to 84005")?;

    // A device needs its storage alone. The centre needs memory for its 72 cells too.
    let storage = blank(alloc, DEVICE_BYTES)?;
    let mut device = Device::boot(number, storage).ok().context("no device")?;
    // sample centre_protocol
    let storage = blank(alloc, CENTRE_BYTES)?;
    let room = Room::new(alloc, CENTRE_CELLS)?;
    let mut centre = Centre::boot(storage, room).ok().context("no centre")?;

    device.make(&KEY).ok().context("not made")?;
    centre
        .register(number, ORIGIN, &KEY)
        .ok()
        .context("not registered")?;
    centre.open_customer(customer).ok().context("no customer")?;
    centre
        .deposit(customer, 1, 100_000)
        .ok()
        .context("no deposit")?;
    // end of sample

    transact(&rt, &mut device, &mut centre, Kind::Enrol, 0, day)?;
    transact(&rt, &mut device, &mut centre, Kind::Audit, 0, day)?;
    transact(&rt, &mut device, &mut centre, Kind::Reset, 50_000, day)?;
    frank(&rt, &mut device, day)?;

    let left = centre.balance(customer).ok().context("no balance")?;
    println!(rt;
        "the customer has {left} mills left, after {} commits of the centre",
        centre.commits()
    )?;

    // What was committed outlives the value: a device that is started on the storage again goes on from there.
    let commits = device.commits();
    let mut storage = device.shut();
    storage.restart().ok().context("no restart")?;
    let device = Device::boot(number, storage).ok().context("no device")?;
    println!(rt;
        "the device comes on with {} of {commits} commits",
        device.commits()
    )?;
    Ok(())
}
