//! Laws of the generated events: each is the contract of a call that does nothing.
ghost use Rattle.std.specs.Prelude.{ℕ, ◌+◌, ◌*◌, ◌≤◌, length};
ghost use Rattle.std.specs.List.{AllByRecursion};
ghost use Rattle.bench_base.specs.Ranges.{IsWord};
ghost use Rattle.bench_base.specs.Events.{IsWholeEvent};
ghost use Rattle.generator.specs.Events.{generated};
ghost use Rattle.generator.specs.Given.{GivesOnlyDebits, NeedsNoStream};

/// Each generated event is whole: a script has a line for it.
pub fn all_whole()
    ensures law { (seed count : ℕ) → IsWord seed → count ≤ 90000 → AllByRecursion IsWholeEvent (generated seed count) }
{}

/// Nothing is forged: only Debits are given to a node, which have no code, and no bytes are scanned.
pub fn only_debits_given()
    ensures law { (seed count : ℕ) → IsWord seed → count ≤ 90000 → AllByRecursion GivesOnlyDebits (generated seed count) }
{}

/// Neither the rates nor the printer are needed.
pub fn no_streams()
    ensures law { (seed count : ℕ) → AllByRecursion NeedsNoStream (generated seed count) }
{}

/// A run has at most 28 events, and five more for each turn.
pub fn few_events()
    ensures law { (seed count : ℕ) → length (generated seed count) ≤ 28 + count * 5 }
{}
