//! The event that a line of the script spells.
ghost use Rattle.std.specs.Prelude.{[], ◌∷◌, ◌↔◌, ◌≡◌, Ok, IfOk, IfErr, IsTrue};
ghost use Rattle.bench_base.specs.declared.events.Event.{Event};
ghost use Rattle.bench_base.specs.Events.{IsWholeEvent};
ghost use Rattle.script_text.specs.Grammar.{Spells, IsSkipped};
ghost use Rattle.script_text.specs.Reading.{IsEventOf, IsEventBehind};
ghost use Rattle.script_words.specs.Words.{words_in};

use crate::forms;
use crate::keyword::{Keyword, read_keyword};
use bench_base::events::Event;
use script_words::{LineFault, split_word};

// The event of a line of one word.
fn read_alone(word: &[u8]) -> Result<Event, LineFault>
    ensures read { IsEventOf (word.now ∷ []) result }
{
    match word {
        b"rates" => Ok(Event::Rates),
        b"end" => Ok(Event::End),
        _ => Err(LineFault),
    }
}

// The event of a keyword and the words after it.
#[inline(never)]
fn read_behind(keyword: Keyword, rest: &[u8]) -> Result<Event, LineFault>
    ensures read { IsEventBehind keyword (words_in rest.now) result }
{
    match keyword {
        Keyword::Rates => Err(LineFault),
        Keyword::End => Err(LineFault),
        Keyword::Day => forms::day(rest),
        Keyword::Make => forms::make(rest),
        Keyword::On => forms::on(rest),
        Keyword::Off => forms::off(rest),
        Keyword::Cut => forms::cut(rest),
        Keyword::Debit => forms::debit(rest),
        Keyword::Ask => forms::ask(rest),
        Keyword::Resend => forms::resend(rest),
        Keyword::Ack => forms::ack(rest),
        Keyword::Status => forms::status(rest),
        Keyword::Register => forms::register(rest),
        Keyword::Customer => forms::customer(rest),
        Keyword::Deposit => forms::deposit(rest),
        Keyword::Suspend => forms::suspend(rest),
        Keyword::Resume => forms::resume(rest),
        Keyword::Balance => forms::balance(rest),
        Keyword::Deliver => forms::deliver(rest),
        Keyword::Give => forms::give(rest),
        Keyword::Order => forms::order(rest),
        Keyword::Send => forms::send(rest),
        Keyword::Print => forms::print(rest),
        Keyword::Close => forms::close(rest),
        Keyword::Trust => forms::trust(rest),
        Keyword::Scan => forms::scan(rest),
        Keyword::Reconcile => forms::reconcile(rest),
    }
}

/// The event that the line spells; an error if and only if it spells none.
#[inline(always)]
pub fn read_event(line: &[u8]) -> Result<Event, LineFault>
    ensures found { IfOk result (λ e. IsWholeEvent e × Spells e line.now) }
    ensures none { IfErr result (λ fault. (e : Event) → IsWholeEvent e → Spells e line.now → ⊥) }
    ensures only { (e : Event) → IsWholeEvent e → Spells e line.now → result ≡ Ok e }
{
    match split_word(line) {
        Some((word, rest)) => match read_keyword(word) {
            Some(keyword) => read_behind(keyword, rest),
            None => Err(LineFault),
        },
        None => read_alone(line),
    }
}

/// Whether the line does nothing: it is empty, or begins with `#`.
pub fn is_skipped(line: &[u8]) -> bool
    ensures { IsTrue result ↔ IsSkipped line.now }
{
    match line {
        [] => true,
        [first, ..] => *first == b'#',
    }
}
