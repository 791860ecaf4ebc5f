//! The words of the runs that can be judged so: claims, departments, manifests and statements.
ghost use Rattle.std.specs.Prelude.{◌≡◌, ◌↔◌, ◌<◌, ◌^◌, ℕ, List, ◌∷◌, IfSome, IfNone, IsTrue, None, false, length, replicate};
ghost use Rattle.bench_base.specs.declared.events.Reply.{Reply as TheReply};
ghost use Rattle.centre_statement.specs.Desk.{View, fresh, view_of};
ghost use Rattle.host_departments.specs.Fresh.{KeepsNone as NoDepartments};
ghost use Rattle.mail_manifest.specs.View.{listing_of};
ghost use Rattle.nv_model.specs.Moments.{Only};
ghost use Rattle.script_text.specs.Texts.{text_of};
ghost use Rattle.spoil_claims.specs.Fresh.{KeepsNone};
ghost use Rattle.trace_bench.specs.Prefixes.{BeginsFailure, IsFailure};
ghost use Rattle.trace_bench.specs.Stopping.{IsPrefixOf};
ghost use Rattle.trace_extensions.specs.ClaimsModel.{Standing, ClaimFails, claims_model, claims_view};
ghost use Rattle.trace_extensions.specs.DepartmentsModel.{Kept, DepartmentsFail, departments_model, departments_view};
ghost use Rattle.trace_extensions.specs.ManifestModel.{ManifestView, ManifestFails, manifest_model, manifest_view, no_piece_front};
ghost use Rattle.trace_extensions.specs.StatementModel.{Fails, statement_model};

use crate::comparing::says;
use crate::extension::TracedExtension;
use bench_base::events::Reply;
use bench_base::words::Node;
use centre_statement::StatementDesk;
use host_departments::{CELLS, DEPARTMENT_BYTES, Departments};
use line_extensions::{Extension, Next};
use mail_manifest::Checker;
use nv_model::{MemNv, Nv};
use nv_store::Room;
use script_words::Line;
use spoil_claims::{CLAIM_BYTES, CLAIM_CELLS, Desk};
use std::alloc::Global;
use trace_bench::begins;
use trace_nodes::is_told;

/// The room of the record of that storage, in calls. A start reads twice a cell, and each claim is committed twice at most.
const CALLS: u32 = 50_000;

/// The room in written bytes.
const BYTES: u32 = 2_000_000;

// A storage in memory with this content.
pub(crate) fn store_of(alloc: Global, content: Vec<u8>) -> Option<MemNv>
    requires short { length content.items < 2 ^ 32 }
    ensures tells { ⟦<MemNv as Nv>⟧.tells }
    ensures powered { IfSome result (λ nv. (⟦<MemNv as Nv>⟧.meters nv).lost ≡ false) }
    ensures only { IfSome result (λ nv. Only (⟦<MemNv as Nv>⟧.times nv) content.items) }
{
    match MemNv::new(alloc, content, Vec::new(alloc), CALLS, BYTES) {
        Ok(nv) => Some(nv),
        Err(_) => None,
    }
}

// A storage in memory of so many zero bytes.
fn blank_store(alloc: Global, bytes: u32) -> Option<MemNv>
    ensures tells { ⟦<MemNv as Nv>⟧.tells }
    ensures powered { IfSome result (λ nv. (⟦<MemNv as Nv>⟧.meters nv).lost ≡ false) }
    ensures blank { IfSome result (λ nv. Only (⟦<MemNv as Nv>⟧.times nv) (replicate bytes 0)) }
{
    match vec![in alloc; 0; bytes as usize] {
        Ok(content) => store_of(alloc, content),
        Err(_) => None,
    }
}

/// The claims that an audit keeps, over all runs.
pub type AuditedClaims = Desk<MemNv>;

/// A desk that keeps no claim, over blank storage in memory: for the audit of all runs with claims, from the first one on. `None` if there is no memory
/// for it.
pub fn blank_claims(alloc: Global) -> Option<AuditedClaims>
    ensures none { IfSome result (λ desk. KeepsNone desk) }
{
    let nv = blank_store(alloc, CLAIM_BYTES)?;
    let room = Room::new(alloc, CLAIM_CELLS).ok()?;
    match Desk::boot(nv, room) {
        Ok(desk) => Some(desk),
        Err(_) => None,
    }
}

/// The departments that an audit keeps, over all runs.
pub type AuditedDepartments = Departments<MemNv>;

/// Departments without a quota or a job, over blank storage in memory: for the audit of all runs with departments, from the first one on. `None` if there
/// is no memory for them.
pub fn blank_departments(alloc: Global) -> Option<AuditedDepartments>
    ensures none { IfSome result (λ desk. NoDepartments desk) }
{
    let nv = blank_store(alloc, DEPARTMENT_BYTES)?;
    let room = Room::new(alloc, CELLS).ok()?;
    match Departments::boot(nv, room) {
        Ok(desk) => Some(desk),
        Err(_) => None,
    }
}

/// A desk without a statement, which has seen nothing: for the audit of one run.
pub fn no_statement(alloc: Global) -> StatementDesk
    ensures { view_of result ≡ fresh }
{
    StatementDesk::new(alloc)
}

/// A checker with no manifest: for the audit of one run.
pub fn no_manifest() -> Checker
    ensures none { listing_of result ≡ None }
{
    Checker::new()
}

// The failure of this node that this text reports, if it does.
fn failure_of(node: &Node, text: &[u8]) -> Option<Reply>
    ensures found { IfSome result (λ reply. (text.now ≡ text_of reply) × IsFailure reply node.now) }
    ensures none { IfNone result ((reply : TheReply) → text.now ≡ text_of reply → IsFailure reply node.now → ⊥) }
{
    let power = Reply::Power(*node);
    if is_told(&power, text) {
        return Some(power);
    }
    let fault = Reply::Fault(*node);
    if is_told(&fault, text) {
        return Some(fault);
    }
    None
}

// A failure of this node whose text begins so.
fn failure_with(node: &Node, prefix: &[u8]) -> Option<Reply>
    ensures found { IfSome result (λ reply. IsPrefixOf prefix.now (text_of reply) × IsFailure reply node.now) }
    ensures none { IfNone result ((reply : TheReply) → IsPrefixOf prefix.now (text_of reply) → IsFailure reply node.now → ⊥) }
{
    let power = Reply::Power(*node);
    if begins(&power, prefix) {
        return Some(power);
    }
    let fault = Reply::Fault(*node);
    if begins(&fault, prefix) {
        return Some(fault);
    }
    None
}

// Whether a failure of this node begins so.
fn begins_failure(node: &Node, prefix: &[u8]) -> bool
    ensures { IsTrue result ↔ BeginsFailure prefix.now node.now }
{
    begins(&Reply::Power(*node), prefix) || begins(&Reply::Fault(*node), prefix)
}

// What the answer of a check begins with if the scan of the piece of this number fails.
fn no_piece(number: u32) -> Line
    ensures { result ≡ no_piece_front number }
{
    let mut front = Line::new();
    front.put(b"manifest no piece");
    front.number(number);
    front.push(b' ');
    front
}

/// Its one step is a scan, so the answer to a claim may be a failure of the verifier.
impl<N: Nv> TracedExtension for Desk<N> {
    ghost View = { Standing };

    ghost view = { λ k. claims_view k };

    ghost model = { claims_model };

    ghost Fails = { ClaimFails };

    fn failure(_step: u32, line: &[u8]) -> Option<Reply> {
        failure_of(&Node::Verifier, line)
    }

    // A line without a step commits nothing.
    fn is_in_doubt(&self, first: &Next, prefix: &[u8]) -> bool {
        match first {
            Next::Step(_) => begins_failure(&Node::Verifier, prefix),
            Next::Say | Next::Stop => false,
        }
    }

    fn failure_in(_step: u32, prefix: &[u8]) -> Option<Reply> {
        failure_with(&Node::Verifier, prefix)
    }

    fn laws() {}
}

/// Their one step is the message of a job, so the answer to an assignment may be a failure of the host.
impl<N: Nv> TracedExtension for Departments<N> {
    ghost View = { Kept };

    ghost view = { λ k. departments_view k };

    ghost model = { departments_model };

    ghost Fails = { DepartmentsFail };

    fn failure(_step: u32, line: &[u8]) -> Option<Reply> {
        failure_of(&Node::Host, line)
    }

    // A quota is committed without a step. Nothing else is.
    fn is_in_doubt(&self, first: &Next, prefix: &[u8]) -> bool {
        match first {
            Next::Step(_) => begins_failure(&Node::Host, prefix),
            Next::Say | Next::Stop => prefix.is_empty() && says(self, b"quota "),
        }
    }

    fn failure_in(_step: u32, prefix: &[u8]) -> Option<Reply> {
        failure_with(&Node::Host, prefix)
    }

    fn laws() {}
}

/// Each step is the scan of a piece, so the answer to a check may report a failure of the verifier at that piece.
impl TracedExtension for Checker {
    ghost View = { ManifestView };

    ghost view = { λ k. manifest_view k };

    ghost model = { manifest_model };

    ghost Fails = { ManifestFails };

    fn failure(step: u32, line: &[u8]) -> Option<Reply> {
        match line.strip_prefix(no_piece(step).as_slice()) {
            Some(text) => failure_of(&Node::Verifier, text),
            None => None,
        }
    }

    // A piece at which the verifier failed may be the last one that was scanned.
    fn is_in_doubt(&self, first: &Next, prefix: &[u8]) -> bool {
        match first {
            Next::Step(_) => {
                let front = b"manifest no piece ".as_slice();
                front.starts_with(prefix) || prefix.starts_with(front)
            }
            Next::Say | Next::Stop => false,
        }
    }

    // Before the reply begins, each failure is told alike.
    fn failure_in(step: u32, prefix: &[u8]) -> Option<Reply> {
        let front = no_piece(step);
        if front.as_slice().starts_with(prefix) {
            return Some(Reply::Power(Node::Verifier));
        }
        match prefix.strip_prefix(front.as_slice()) {
            Some(text) => failure_with(&Node::Verifier, text),
            None => None,
        }
    }

    fn laws() {}
}

/// Its steps ask the centre for a balance, which commits nothing, so no node fails in them.
impl TracedExtension for StatementDesk {
    ghost View = { View };

    ghost view = { λ k. view_of k };

    ghost model = { statement_model };

    ghost Fails = { Fails };

    fn failure(_step: u32, _line: &[u8]) -> Option<Reply> {
        None
    }

    // A balance changes nothing.
    fn is_in_doubt(&self, _first: &Next, _prefix: &[u8]) -> bool {
        false
    }

    fn failure_in(_step: u32, _prefix: &[u8]) -> Option<Reply> {
        None
    }

    fn laws() {}
}
