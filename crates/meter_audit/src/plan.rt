//! What the words of an audit come to: the names of all runs, and the files that are those of every run.
use crate::faults::{Fault, or_memory};
use crate::files::{open_file, rates_in, want_regular};
use crate::folders::runs_in;
use crate::held::{HeldFolder, hold};
use crate::own_storages::Kept;
use crate::prints::PrintsFile;
use crate::scripts::may_bring_bytes;
use crate::words::{Word, have_own_lines, want_owing, words_of};
use audit_words::{Asked, NamedWord, Words};

/// What is judged, and what is printed beside the verdicts.
#[derive(Drop)]
pub struct Plan {
    pub names: Vec<String>,
    /// The word of each run, in its place.
    pub words: Vec<Word>,
    pub asked: Asked,
    pub is_lenient: bool,
    /// The rates of every run; None if each has its own.
    pub rates: Option<Vec<u8>>,
    /// The file of the prints of all runs.
    pub printed: Option<PrintsFile>,
    /// The file of the marks that were seen on mail.
    pub seen: Option<String>,
    /// The folder whose storages are compared, which is held.
    pub storages: Option<HeldFolder>,
    /// The claims and the departments that the first run begins with.
    pub kept: Kept,
    /// Whether a script may have a `give`, a `scan N hex` or a line of its own: what runs send and release is then kept.
    pub has_bytes: bool,
}

/// Whether a journal goes to standard output, a page for a browser, or what was due; verdicts then go to standard error.
pub fn takes_output(asked: Asked) -> bool {
    match asked {
        Asked::Nothing | Asked::Table | Asked::Page => false,
        Asked::Html | Asked::Csv | Asked::Json | Asked::Ledger | Asked::Due => true,
    }
}

/// Whether runs are gone over once more after their verdicts, so that they have to be whole in memory.
pub fn is_counted(asked: Asked) -> bool {
    match asked {
        Asked::Nothing | Asked::Table => false,
        Asked::Page | Asked::Html | Asked::Csv | Asked::Json | Asked::Ledger | Asked::Due => true,
    }
}

// The runs of the folder, if one is named, and after them those that are named.
fn all_runs(
    rt: &HostRuntime,
    folder: &Option<String>,
    named: Vec<String>,
) -> Result<Vec<String>, Fault> {
    let Some(folder) = folder else {
        return Ok(named);
    };
    let mut names = runs_in(rt, folder.as_str())?;
    for name in named {
        or_memory(names.push(name))?;
    }
    Ok(names)
}

// The rates of so many runs. A file that can be read once alone is that of one run.
fn shared_rates(
    rt: &HostRuntime,
    file: &Option<String>,
    runs: usize,
) -> Result<Option<Vec<u8>>, Fault> {
    let Some(file) = file else {
        return Ok(None);
    };
    if runs > 1 {
        want_regular(rt, file.as_str())?;
    }
    Ok(Some(rates_in(rt, file.as_str())?))
}

// The file of prints, opened.
fn open_prints(rt: &HostRuntime, file: Option<String>) -> Result<Option<PrintsFile>, Fault> {
    let Some(file) = file else {
        return Ok(None);
    };
    let opened = open_file(rt, file.as_str())?;
    Ok(Some(PrintsFile { file, opened }))
}

// The folder whose storages are compared, held.
fn hold_storages(rt: &HostRuntime, folder: Option<String>) -> Result<Option<HeldFolder>, Fault> {
    let Some(folder) = folder else {
        return Ok(None);
    };
    Ok(Some(hold(rt, folder)?))
}

// The words of these runs, each of which goes with what is asked for.
fn judged_words(
    rt: &HostRuntime,
    names: &[String],
    run_words: &[NamedWord],
    asked: Asked,
) -> Result<Vec<Word>, Fault> {
    let words = words_of(rt, run_words, names)?;
    if let (Some(name), Some(word)) = (names.last(), words.last()) {
        want_owing(rt, name.as_str(), *word, asked)?;
    }
    Ok(words)
}

/// What these words come to, if runs begin with these claims and departments. Each file that is that of every run is opened before the first run is judged.
pub fn plan_of(rt: &HostRuntime, words: Words, kept: Kept) -> Result<Plan, Fault> {
    let Words {
        folder,
        rates,
        prints,
        seen,
        storages,
        start: _,
        asked,
        is_lenient,
        run_words,
        names,
    } = words;
    let names = all_runs(rt, &folder, names)?;
    let words = judged_words(rt, names.as_slice(), run_words.as_slice(), asked)?;
    let rates = shared_rates(rt, &rates, names.len())?;
    let printed = open_prints(rt, prints)?;
    let storages = hold_storages(rt, storages)?;
    let has_bytes = have_own_lines(words.as_slice()) || may_bring_bytes(rt, names.as_slice());
    Ok(Plan {
        names,
        words,
        asked,
        is_lenient,
        rates,
        printed,
        seen,
        storages,
        kept,
        has_bytes,
    })
}
