//! The meter's program: runs a script from standard input, or generated events, and writes the report to standard output. The
//! eight devices, the centre, the host and the verifier have their storages in files in the current folder.
#![tactic(auto)]

mod opening;
mod prints;
mod rates_file;
mod store_files;

ghost use Rattle.std.specs.Prelude.{◌≡◌, IfOk, length};
ghost use Rattle.bench.specs.Benches.{IsReady, bench_of};

use bench::Bench;
use bench_base::stream::{IoSink, IoSource};
use centre_statement::run_statement;
use host_departments::run_departments;
use mail_manifest::run_manifest;
use nv_file::{FileNv, StoreFile, remember};
use opening::{Opened, Side, hold_folder, open_files};
use program_calls::{Call, Exit, OpenFault, Uses, exit_of, read_call};
use script_replay::run::run;
use script_replay::status::{SideStatus, Status};
use spoil_claims::run_claims;
use statement_check::run_recompute;
use std::process::ExitCode;
use std::{env, io};
use store_files::{BENCH_STORES, CLAIMS, DEPARTMENTS, STORES, split_stores, with_own};
use text_streams::ReadAhead;

/// How much of the script is read ahead, in bytes.
const AHEAD: usize = 8192;

// The words after the program's name. If one of them is not UTF-8 the result has no words, and no words are bad words.
fn words_of(rt: &HostRuntime) -> Result<Vec<String>, OpenFault> {
    let mut words = Vec::new(rt.alloc());
    let given = match env::args(rt) {
        Ok(given) => given,
        Err(fault) if fault.kind() == io::ErrorKind::InvalidData => return Ok(words),
        Err(_) => return Err(OpenFault::Memory),
    };
    for word in given.skip(1) {
        let Ok(()) = words.push(word) else {
            return Err(OpenFault::Memory);
        };
    }
    Ok(words)
}

// Computes the statement on standard input again. No file is made or opened.
fn recompute(rt: &HostRuntime, words: &[String]) -> Result<SideStatus, OpenFault> {
    let Ok(ahead) = vec![in rt.alloc(); 0; AHEAD] else {
        return Err(OpenFault::Memory);
    };
    let mut script = ReadAhead::new(IoSource::new(rt.reader()), ahead);
    let mut report = IoSink::new(io::writer(rt));
    Ok(SideStatus::Run(run_recompute(words, &mut script, &mut report)))
}

fn bench_over(rt: &HostRuntime, stores: Vec<FileNv>) -> Result<Bench<FileNv>, OpenFault>
    requires eleven { length stores.items ≡ 11 }
    ensures ready { IfOk result (λ bench. IsReady (bench_of bench)) }
{
    match Bench::new(rt.alloc(), split_stores(stores)) {
        Ok(bench) => Ok(bench),
        Err(_) => Err(OpenFault::Memory),
    }
}

// A storage beside those of the bench that a run used, and whether no call on it failed and all that was written is on the disk.
#[derive(Clone, Copy)]
struct Own {
    file: StoreFile,
    is_settled: bool,
}

fn own_of(file: StoreFile, store: &FileNv) -> Own {
    Own {
        file,
        is_settled: store.is_settled(),
    }
}

// Whether no call on a storage of the bench failed, and all that was written is on the disk.
fn is_settled(bench: Bench<FileNv>) -> bool
    requires ready { IsReady (bench_of bench) }
{
    let stores = bench.into_stores();
    stores.devices.iter().all(|store| store.is_settled())
        && stores.centre.is_settled()
        && stores.host.is_settled()
        && stores.verifier.is_settled()
}

// The text, or none.
fn text_of(text: &Option<String>) -> &str {
    match text {
        Some(text) => text.as_str(),
        None => "",
    }
}

// Remembers a clean end, if each storage that was used is settled. If it can't be remembered the next start writes the storages again.
fn remember_end(
    rt: &HostRuntime,
    bench: Bench<FileNv>,
    own: Option<Own>,
    remembered: Option<String>,
)
    requires ready { IsReady (bench_of bench) }
{
    if !is_settled(bench) {
        return;
    }
    let before = text_of(&remembered);
    let _ = match own {
        None => remember(rt, &STORES[..BENCH_STORES], before),
        Some(own) if own.is_settled => remember(rt, &with_own(own.file), before),
        Some(_) => Ok(()),
    };
}

// Runs what the words say over what was opened, with the extension that reads lines of its own, if there is one.
fn run_over(rt: &HostRuntime, words: &[String], opened: Opened) -> Result<SideStatus, OpenFault> {
    let Opened {
        stores,
        mut rates,
        mut printer,
        side,
        remembered,
    } = opened;
    let mut bench = bench_over(rt, stores)?;
    let Ok(ahead) = vec![in rt.alloc(); 0; AHEAD] else {
        return Err(OpenFault::Memory);
    };
    let mut script = ReadAhead::new(IoSource::new(rt.reader()), ahead);
    let mut report = IoSink::new(io::writer(rt));
    let mut own = None;
    let ended = match side {
        Side::Claims(mut desk) => {
            let ended = run_claims(
                rt.alloc(),
                words,
                &mut script,
                &mut rates,
                &mut report,
                &mut printer,
                &mut bench,
                &mut desk,
            );
            own = Some(own_of(CLAIMS, &desk.shut().0));
            ended
        }
        Side::Departments(mut departments) => {
            let ended = run_departments(
                rt.alloc(),
                words,
                &mut script,
                &mut rates,
                &mut report,
                &mut printer,
                &mut bench,
                &mut departments,
            );
            own = Some(own_of(DEPARTMENTS, &departments.shut().0));
            ended
        }
        Side::Statement => run_statement(
            rt.alloc(),
            words,
            &mut script,
            &mut rates,
            &mut report,
            &mut printer,
            &mut bench,
        ),
        Side::Manifest => run_manifest(
            rt.alloc(),
            words,
            &mut script,
            &mut rates,
            &mut report,
            &mut printer,
            &mut bench,
        ),
        Side::Alone => SideStatus::Run(run(
            rt.alloc(),
            words,
            &mut script,
            &mut rates,
            &mut report,
            &mut printer,
            &mut bench,
        )),
    };
    remember_end(rt, bench, own, remembered);
    Ok(ended)
}

// Runs what the words call for. Bad words touch no file, and no file is touched without the folder's lock.
fn run_words(rt: &HostRuntime) -> Result<SideStatus, OpenFault> {
    let words = words_of(rt)?;
    let Some(call) = read_call(&words) else {
        return Ok(SideStatus::Run(Status::Words));
    };
    if call.uses() == Uses::Nothing {
        return recompute(rt, &words);
    }
    let _folder = hold_folder(rt)?;
    run_over(rt, &words, open_files(rt, call)?)
}

// Standard error may take no line. The exit status says the same.
fn main(rt: HostRuntime) -> ExitCode {
    let Exit { status, line } = exit_of(run_words(&rt));
    if let Some(line) = line {
        let _ = eprintln!(rt; "{line}");
    }
    ExitCode::from(status)
}
