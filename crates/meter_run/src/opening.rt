//! What a run works on, opened in the current folder. If that fails no storage is made or changed.
ghost use Rattle.std.specs.Prelude.{◌≡◌, IfOk, length};
ghost use Rattle.nv_file.specs.Starts.{stores_of};

use crate::prints::{look_at_prints, open_printer};
use crate::rates_file::RatesFile;
use crate::store_files::{BENCH_STORES, CLAIMS, DEPARTMENTS, STORES, with_own};
use bench_base::stream::{IoSink, IoSource};
use host_departments::{CELLS, Departments};
use nv_file::{FileNv, Starting, StoreFile, remove_part};
use nv_store::Room;
use program_calls::{Call, OpenFault, Uses};
use spoil_claims::{CLAIM_CELLS, Desk};
use std::fs::{self, File};
use std::io;
use std::os::fd::AsRawFd;
use std::os::unix::fs::FileTypeExt;

/// The rates, a TOML document. A missing file is an empty one.
const RATES_FILE: &str = "rates.toml";

/// The number of standard error, the last of the standard streams.
const LAST_STREAM: i32 = 2;

/// Who has lines of its own beside the bench, if someone has.
#[derive(Drop)]
pub enum Side {
    Alone,
    Claims(Desk<FileNv>),
    Departments(Departments<FileNv>),
    Statement,
    Manifest,
}

/// What a run works on.
#[derive(Drop)]
pub struct Opened {
    /// Those of a bench.
    pub stores: Vec<FileNv>,
    pub rates: RatesFile<IoSource<File>>,
    pub printer: IoSink<File>,
    pub side: Side,
    /// What was remembered of the clean end before.
    pub remembered: Option<String>,
    ghost eleven: { length stores.items ≡ 11 },
}

/// Opens the current folder, once for each standard stream that is closed and once more, and locks it. While these handles
/// are held no file that is opened is taken for a standard stream, and no other program uses the folder.
pub fn hold_folder(rt: &HostRuntime) -> Result<Vec<File>, OpenFault> {
    let Ok(mut held) = Vec::with_capacity(rt.alloc(), 4) else {
        return Err(OpenFault::Memory);
    };
    let fault = OpenFault::File(STORES[0].name);
    for _ in 0..=3 {
        let Ok(folder) = File::open(rt, ".") else {
            return Err(fault);
        };
        let is_stream = folder.as_raw_fd() <= LAST_STREAM;
        if !is_stream && folder.try_lock().is_err() {
            return Err(fault);
        }
        let Ok(()) = held.push(folder) else {
            return Err(OpenFault::Memory);
        };
        if !is_stream {
            return Ok(held);
        }
    }
    Err(fault)
}

// The rates. Opening a pipe would wait until something writes to it.
fn open_rates(rt: &HostRuntime) -> Result<RatesFile<IoSource<File>>, OpenFault> {
    let fault = Err(OpenFault::File(RATES_FILE));
    match fs::metadata(rt, RATES_FILE) {
        Ok(found) if found.file_type().is_fifo() => return fault,
        _ => {}
    }
    match File::open(rt, RATES_FILE) {
        Ok(file) => Ok(RatesFile::There(IoSource::new(file))),
        Err(error) if error.kind() == io::ErrorKind::NotFound => Ok(RatesFile::Missing),
        Err(_) => fault,
    }
}

// Prepares the storages. What starts that were stopped left in the making is removed, whatever their words were.
fn prepare<'a>(rt: &HostRuntime, files: &'a [StoreFile]) -> Result<Starting<'a>, OpenFault>
    ensures { IfOk result (λ starting. length (stores_of starting) ≡ length files.now) }
{
    for file in STORES {
        remove_part(rt, file.name);
    }
    Starting::prepare(rt, files).map_err(OpenFault::File)
}

// The desk that keeps claims, out of its storage. Nothing is written.
fn open_claims(rt: &HostRuntime, nv: FileNv) -> Result<Side, OpenFault> {
    let Ok(room) = Room::new(rt.alloc(), CLAIM_CELLS) else {
        return Err(OpenFault::Memory);
    };
    match Desk::boot(nv, room) {
        Ok(desk) => Ok(Side::Claims(desk)),
        Err(_) => Err(OpenFault::File(CLAIMS.name)),
    }
}

// The departments, out of their storage. Nothing is written.
fn open_departments(rt: &HostRuntime, nv: FileNv) -> Result<Side, OpenFault> {
    let Ok(room) = Room::new(rt.alloc(), CELLS) else {
        return Err(OpenFault::Memory);
    };
    match Departments::boot(nv, room) {
        Ok(departments) => Ok(Side::Departments(departments)),
        Err(_) => Err(OpenFault::File(DEPARTMENTS.name)),
    }
}

// Who has lines of its own, and the printer, if both can be had.
fn with_printer(
    rt: &HostRuntime,
    side: Result<Side, OpenFault>,
) -> Result<(Side, IoSink<File>), OpenFault> {
    Ok((side?, open_printer(rt)?))
}

// Gives the storages their names, if everything that a run works on can be had.
fn settle(
    rt: &HostRuntime,
    starting: Starting<'_>,
    rates: RatesFile<IoSource<File>>,
    side: Result<Side, OpenFault>,
) -> Result<Opened, OpenFault>
    requires eleven { length (stores_of starting) ≡ 11 }
{
    let (side, printer) = match with_printer(rt, side) {
        Ok(found) => found,
        Err(fault) => {
            starting.discard(rt);
            return Err(fault);
        }
    };
    match starting.settle(rt) {
        Ok((stores, remembered)) => Ok(Opened {
            stores,
            rates,
            printer,
            side,
            remembered,
        }),
        Err(name) => Err(OpenFault::File(name)),
    }
}

// The storages of a bench with one more after them, which is handed out.
fn prepare_own<'a>(
    rt: &HostRuntime,
    files: &'a [StoreFile; 12],
) -> Result<(Starting<'a>, FileNv), OpenFault>
    ensures eleven { IfOk result (λ found. length (stores_of found.0) ≡ 11) }
{
    let mut starting = prepare(rt, files)?;
    let Some(own) = starting.take_last() else {
        unreachable!()
    };
    Ok((starting, own))
}

/// Opens all that a call works on, under the folder's lock. Whatever can be seen is looked at before a storage takes its name:
/// the rates and the prints, each storage, and what that of a desk holds.
pub fn open_files(rt: &HostRuntime, call: Call) -> Result<Opened, OpenFault> {
    let rates = open_rates(rt)?;
    look_at_prints(rt)?;
    match call.uses() {
        Uses::Claims => {
            let files = with_own(CLAIMS);
            let (starting, own) = prepare_own(rt, &files)?;
            settle(rt, starting, rates, open_claims(rt, own))
        }
        Uses::Departments => {
            let files = with_own(DEPARTMENTS);
            let (starting, own) = prepare_own(rt, &files)?;
            settle(rt, starting, rates, open_departments(rt, own))
        }
        Uses::Bench | Uses::Nothing => {
            let side = match call {
                Call::Statement => Side::Statement,
                Call::Manifest => Side::Manifest,
                _ => Side::Alone,
            };
            let starting = prepare(rt, &STORES[..BENCH_STORES])?;
            settle(rt, starting, rates, Ok(side))
        }
    }
}
