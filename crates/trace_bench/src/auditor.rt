//! The auditor: each node as the report describes it, with the day, the rates and the messages of the run, and what was sent and released in all
//! runs.
ghost use Rattle.std.specs.Prelude.{◌≡◌, ◌<◌, length, IfOk};
ghost use Rattle.trace_bench.specs.Beginning.{AreBlank, AreShut, ShutsAt, IsBlankDevice, IsBlankCentre, IsBlankHost, IsBlankVerifier};

use crate::known::Known;
use bench_base::bytes::Note;
use bench_base::numbers::DayNo;
use centre_ledger::Row;
use host_jobs::JobRow;
use host_rates::Rates;
use psd_state::DevRec;
use std::alloc::{AllocError, Global};
use trace_centre::CentreRecord;
use trace_device::DeviceRecord;
use trace_host::HostRecord;
use trace_nodes::Traced;
use trace_verifier::ScanRecord;
use verifier::Change;

/// What is known of a bench from its reports: of eight devices, the centre, the host and the verifier, of the run, and of all messages and marks.
#[derive(Drop)]
pub struct Auditor {
    pub(crate) devices: Vec<Traced<DeviceRecord, DevRec>>,
    pub(crate) centre: Traced<CentreRecord, Row>,
    pub(crate) host: Traced<HostRecord, JobRow>,
    pub(crate) verifier: Traced<ScanRecord, Change>,
    pub(crate) day: Option<DayNo>,
    pub(crate) rates: Option<Rates>,
    pub(crate) messages: Vec<Note>,
    pub(crate) known: Known,
}

// A device that wasn't made, and is off.
fn blank_device() -> Traced<DeviceRecord, DevRec>
    ensures { IsBlankDevice result }
{
    Traced {
        record: DeviceRecord::blank(),
        open: None,
        on: false,
    }
}

// Eight of them.
fn blank_devices(alloc: Global) -> Result<Vec<Traced<DeviceRecord, DevRec>>, AllocError>
    ensures eight { IfOk result (λ devices. length devices.items ≡ 8) }
    ensures blank { IfOk result (λ devices. AreBlank devices.items) }
{
    let devices = Vec::from_array(
        alloc,
        [
            blank_device(),
            blank_device(),
            blank_device(),
            blank_device(),
            blank_device(),
            blank_device(),
            blank_device(),
            blank_device(),
        ],
    )?;
    Ok(devices)
}

fn blank_centre() -> Traced<CentreRecord, Row>
    ensures { IsBlankCentre result }
{
    Traced {
        record: CentreRecord::blank(),
        open: None,
        on: false,
    }
}

fn blank_host(alloc: Global) -> Result<Traced<HostRecord, JobRow>, AllocError>
    ensures { IfOk result IsBlankHost }
{
    let record = HostRecord::blank(alloc)?;
    Ok(Traced {
        record,
        open: None,
        on: false,
    })
}

fn blank_verifier(alloc: Global) -> Result<Traced<ScanRecord, Change>, AllocError>
    ensures { IfOk result IsBlankVerifier }
{
    let record = ScanRecord::blank(alloc)?;
    Ok(Traced {
        record,
        open: None,
        on: false,
    })
}

// Switches the device in this place off.
fn shut_at(devices: &mut Vec<Traced<DeviceRecord, DevRec>>, place: usize)
    requires inside { place < length devices.old.items }
    ensures { ShutsAt place devices.old.items devices.new.items }
{
    devices[place].on = false;
}

// Switches all devices off.
fn shut_all(devices: &mut Vec<Traced<DeviceRecord, DevRec>>)
    ensures { AreShut devices.old.items devices.new.items }
{
    for place in 0..devices.len() {
        shut_at(devices, place);
    }
}

impl Auditor {
    ghost use Rattle.std.specs.Prelude.{[], ◌∷◌};
    ghost use Rattle.bench_base.specs.Ledger.{Ledger};
    ghost use Rattle.bench_base.specs.declared.ledger.Entry.TheVariants.{Begin};
    ghost use Rattle.trace_bench.specs.Seeing.{IsReady, Sees, audit_of, keeps};

    /// An auditor of blank nodes, about which nothing is known: what the empty ledger shows. What is sent and released is kept, or not: what is
    /// never kept takes no memory. AllocError is lack of memory.
    pub fn new(alloc: Global, is_kept: bool) -> Result<Auditor, AllocError>
        ensures ready { IfOk result (λ a. IsReady (audit_of a)) }
        ensures kept { IfOk result (λ a. keeps (audit_of a) ≡ record { all = is_kept; seen = [] }) }
        ensures blank { IfOk result (λ a. Sees (audit_of a) []) }
    {
        let devices = blank_devices(alloc)?;
        let host = blank_host(alloc)?;
        let verifier = blank_verifier(alloc)?;
        Ok(Auditor {
            devices,
            centre: blank_centre(),
            host,
            verifier,
            day: None,
            rates: None,
            messages: Vec::new(alloc),
            known: Known::new(alloc, is_kept),
        })
    }

    /// Begins a run: each node is switched off, and the day, the rates and the messages are forgotten. A change that is open stays open.
    pub fn begin(&mut self)
        requires ready { IsReady (audit_of self.old) }
        ensures ready { IsReady (audit_of self.new) }
        ensures no_messages { (audit_of self.new).messages ≡ [] }
        ensures kept { keeps (audit_of self.new) ≡ keeps (audit_of self.old) }
        ensures sees { (H : Ledger) → Sees (audit_of self.old) H → Sees (audit_of self.new) (Begin ∷ H) }
    {
        self.day = None;
        self.rates = None;
        self.messages.clear();
        shut_all(&mut self.devices);
        self.centre.on = false;
        self.host.on = false;
        self.verifier.on = false;
    }
}
