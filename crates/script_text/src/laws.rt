//! Laws of the lines: each is the contract of a call that does nothing.
ghost use Rattle.std.specs.Prelude.{◌≡◌, ◌≢◌, ℕ, List, All};
ghost use Rattle.bench_base.specs.declared.{events.Event.Event, events.Reply.Reply};
ghost use Rattle.bench_base.specs.Events.{IsWholeEvent};
ghost use Rattle.script_text.specs.Texts.{text_of, IsWholeReply, told};
ghost use Rattle.script_text.specs.Grammar.{Spells, IsSkipped};

/// A line spells at most one whole event.
pub fn one_event()
    ensures law { (e f : Event) (line : List ℕ) → IsWholeEvent e → IsWholeEvent f → Spells e line → Spells f line → e ≡ f }
{}

/// Each whole event has a line.
pub fn each_event()
    ensures law { (e : Event) → IsWholeEvent e → (line : List ℕ) × Spells e line }
{}

/// No line of an event is skipped.
pub fn no_event_skipped()
    ensures law { (e : Event) (line : List ℕ) → Spells e line → IsSkipped line → ⊥ }
{}

/// A text is that of at most one whole reply, except for the number in a fault of a mark, which it doesn't show.
pub fn one_reply()
    ensures law { (r s : Reply) → IsWholeReply r → IsWholeReply s → text_of r ≡ text_of s → told r ≡ told s }
{}

/// The text of a whole reply is one line: no byte of it is the line end.
pub fn one_line()
    ensures law { (r : Reply) → IsWholeReply r → All (λ c. c ≢ 10) (text_of r) }
{}
