//! A run is judged by its word, beside what is kept of claims and departments from run to run.
ghost use Rattle.trace_bench.specs.Seeing.{IsReady, audit_of};

use crate::faults::{Fault, or_memory};
use crate::judging::{Judged, Papers, judge_beside, judge_over};
use crate::words::Word;
use audit_recount::{OwnLine, Run};
use std::alloc::{AllocError, Global};
use std::io::Read;
use std::mem;
use trace_bench::Auditor;
use trace_extensions::{
    AuditedClaims, AuditedDepartments, OwnAnswer, Reach, TracedExtension, Transcript, blank_claims,
    blank_departments, no_manifest, no_statement,
};
use trace_runs::Imprint;

/// What is kept from run to run beside the auditor.
#[derive(Drop)]
pub struct Desks {
    /// What the printer was given.
    pub imprints: Vec<Imprint>,
    /// The claims that the runs so far left; None before the first run of claims.
    pub claims: Option<AuditedClaims>,
    /// The same of departments.
    pub departments: Option<AuditedDepartments>,
    /// What the last run with lines of its own did at the bench, if runs are gone over once more.
    pub transcript: Transcript,
}

// The claims that the runs so far left. There are none before the first run of claims.
fn claims_in(alloc: Global, claims: &mut Option<AuditedClaims>) -> Option<&mut AuditedClaims> {
    if claims.is_none() {
        *claims = blank_claims(alloc);
    }
    claims.as_mut()
}

// The departments that the runs so far left. There are none before the first run of departments.
fn departments_in(
    alloc: Global,
    departments: &mut Option<AuditedDepartments>,
) -> Option<&mut AuditedDepartments> {
    if departments.is_none() {
        *departments = blank_departments(alloc);
    }
    departments.as_mut()
}

// Judges a run of claims, beside the claims so far.
fn judge_claims<S: Read + Drop, R: Read + Drop>(
    alloc: Global,
    auditor: &mut Auditor,
    papers: Papers<S, R>,
    desks: &mut Desks,
) -> Result<Judged, Fault>
    requires ready { IsReady (audit_of auditor.old) }
    ensures ready { IsReady (audit_of auditor.new) }
{
    let Some(claims) = claims_in(alloc, &mut desks.claims) else {
        return Err(Fault::Memory);
    };
    let (imprints, transcript) = (&mut desks.imprints, &mut desks.transcript);
    or_memory(judge_beside(alloc, auditor, claims, papers, imprints, transcript))
}

// Judges a run of departments, beside the departments so far.
fn judge_departments<S: Read + Drop, R: Read + Drop>(
    alloc: Global,
    auditor: &mut Auditor,
    papers: Papers<S, R>,
    desks: &mut Desks,
) -> Result<Judged, Fault>
    requires ready { IsReady (audit_of auditor.old) }
    ensures ready { IsReady (audit_of auditor.new) }
{
    let Some(departments) = departments_in(alloc, &mut desks.departments) else {
        return Err(Fault::Memory);
    };
    let (imprints, transcript) = (&mut desks.imprints, &mut desks.transcript);
    or_memory(judge_beside(alloc, auditor, departments, papers, imprints, transcript))
}

// Judges a run beside a desk that keeps nothing from run to run.
fn judge_fresh<S: Read + Drop, R: Read + Drop, D: TracedExtension + Drop>(
    alloc: Global,
    auditor: &mut Auditor,
    desk: D,
    papers: Papers<S, R>,
    desks: &mut Desks,
) -> Result<Judged, Fault>
    requires ready { IsReady (audit_of auditor.old) }
    ensures ready { IsReady (audit_of auditor.new) }
{
    let mut desk = desk;
    let (imprints, transcript) = (&mut desks.imprints, &mut desks.transcript);
    or_memory(judge_beside(alloc, auditor, &mut desk, papers, imprints, transcript))
}

/// Judges a run of this word by its papers.
pub fn judge_run<S: Read + Drop, R: Read + Drop>(
    alloc: Global,
    auditor: &mut Auditor,
    word: Word,
    papers: Papers<S, R>,
    desks: &mut Desks,
) -> Result<Judged, Fault>
    requires ready { IsReady (audit_of auditor.old) }
    ensures ready { IsReady (audit_of auditor.new) }
{
    match word {
        Word::Replay => or_memory(judge_over(alloc, auditor, papers, &mut desks.imprints)),
        Word::Claims => judge_claims(alloc, auditor, papers, desks),
        Word::Departments => judge_departments(alloc, auditor, papers, desks),
        Word::Manifest => judge_fresh(alloc, auditor, no_manifest(), papers, desks),
        Word::Statement => judge_fresh(alloc, auditor, no_statement(alloc), papers, desks),
    }
}

/// Judges a run of this word that is whole in memory, and has what it does at the bench written down if it has lines of its own.
pub fn judge_read(
    alloc: Global,
    auditor: &mut Auditor,
    word: Word,
    run: &Run,
    reach: Option<Reach>,
    desks: &mut Desks,
) -> Result<Judged, Fault>
    requires ready { IsReady (audit_of auditor.old) }
    ensures ready { IsReady (audit_of auditor.new) }
{
    desks.transcript = Transcript::new(alloc, true);
    let papers = Papers {
        script: run.script.as_slice(),
        report: run.report.as_slice(),
        rates: or_memory(run.rates.clone())?,
        reach,
    };
    judge_run(alloc, auditor, word, papers, desks)
}

// The lines of its own that were answered in a run.
fn own_lines(alloc: Global, answers: &[OwnAnswer]) -> Result<Vec<OwnLine>, AllocError> {
    let mut own = Vec::new(alloc);
    for answered in answers.iter() {
        let (line, answer) = (answered.line.clone()?, answered.text.clone()?);
        own.push(OwnLine {
            number: answered.number,
            place: answered.place,
            line,
            answer,
        })?;
    }
    Ok(own)
}

impl Desks {
    /// Before the first run.
    pub fn new(alloc: Global) -> Desks {
        Desks {
            imprints: Vec::new(alloc),
            claims: None,
            departments: None,
            transcript: Transcript::new(alloc, false),
        }
    }

    /// What the last run did at the bench, as a run of events alone with these rates. AllocError is lack of memory.
    pub fn told_run(&mut self, alloc: Global, rates: Vec<u8>) -> Result<Run, AllocError> {
        let empty = Transcript::new(alloc, false);
        let Transcript {
            is_kept: _,
            has_failed: _,
            line: _,
            number: _,
            script,
            report,
            lines,
            own,
        } = mem::replace(&mut self.transcript, empty);
        Ok(Run {
            script,
            report,
            rates,
            lines: Some(lines),
            own: own_lines(alloc, own.as_slice())?,
        })
    }
}
