//! The lines of a statement out of their bytes.
ghost use Rattle.std.specs.Prelude.{◌≡◌, ◌≢◌, ℕ, [], ◌∷◌, codes, decimal, IfSome, IfNone};
ghost use Rattle.bench_base.specs.Ranges.{IsCustomer, IsDevice, IsWord};
ghost use Rattle.script_words.specs.Words.{words_in, device_word};
ghost use Rattle.statement_check.specs.Lines.{IsMills, IsInRange, IsLineOf, line_words};
ghost use Rattle.statement_check.specs.Reading.{ruled};
ghost use Rattle.statement_check.specs.declared.line.StatementLine.{StatementLine as TheLine};
ghost use Rattle.statement_check.specs.declared.line.StatementLine.TheVariants as lines;
ghost use Rattle.statement_check.specs.declared.line.Cause.TheVariants as causes;

use crate::line::{Cause, Movement, StatementLine};
use crate::words::{BalanceWord, OpeningWord};
use bench_base::numbers::{Customer, DevNo};
use script_words::{five, four, is_word, one, split_word, three};

/// Which ruling moved money.
#[derive(Clone, Copy)]
enum Ruling {
    Reset,
    Refund,
    Withdraw,
}

impl Ruling {
    ghost use Rattle.std.specs.Prelude.{◌≡◌};
    ghost use Rattle.statement_check.specs.Reading.{ruled};

    fn cause(self, device: DevNo, number: u32) -> Cause
        ensures { result ≡ ruled self device number }
    {
        match self {
            Ruling::Reset => Cause::Reset(device, number),
            Ruling::Refund => Cause::Refund(device, number),
            Ruling::Withdraw => Cause::Withdraw(device, number),
        }
    }
}

// The opening line, by the words after its first.
fn read_opening(rest: &[u8]) -> Option<StatementLine>
    ensures found { IfSome result (λ line. (c b : ℕ) × IsCustomer c × IsMills b × (line ≡ lines.Opening c b)
        × (words_in rest.now ≡ decimal c ∷ codes "opening" ∷ decimal b ∷ [])) }
    ensures none { IfNone result ((c b : ℕ) → IsCustomer c → IsMills b
        → words_in rest.now ≢ decimal c ∷ codes "opening" ∷ decimal b ∷ []) }
{
    match three::<Customer, OpeningWord, u64>(rest) {
        Ok(read) => Some(StatementLine::Opening(read.0, read.2)),
        Err(_) => None,
    }
}

// A deposit, by the words after its first.
fn read_deposit(rest: &[u8]) -> Option<StatementLine>
    ensures found { IfSome result (λ line. (r a b : ℕ) × IsWord r × IsMills a × IsMills b
        × (line ≡ lines.Moved (record { cause = causes.Deposit r; amount = a; balance = b }))
        × (words_in rest.now ≡ decimal r ∷ decimal a ∷ codes "balance" ∷ decimal b ∷ [])) }
    ensures none { IfNone result ((r a b : ℕ) → IsWord r → IsMills a → IsMills b
        → words_in rest.now ≢ decimal r ∷ decimal a ∷ codes "balance" ∷ decimal b ∷ []) }
{
    match four::<u32, u64, BalanceWord, u64>(rest) {
        Ok(read) => Some(StatementLine::Moved(Movement {
            cause: Cause::Deposit(read.0),
            amount: read.1,
            balance: read.3,
        })),
        Err(_) => None,
    }
}

// A movement by a ruling, by the words after its first.
fn read_ruled(ruling: Ruling, rest: &[u8]) -> Option<StatementLine>
    ensures found { IfSome result (λ line. (d n a b : ℕ) × IsDevice d × IsWord n × IsMills a × IsMills b
        × (line ≡ lines.Moved (record { cause = ruled ruling d n; amount = a; balance = b }))
        × (words_in rest.now ≡ device_word d ∷ decimal n ∷ decimal a ∷ codes "balance" ∷ decimal b ∷ [])) }
    ensures none { IfNone result ((d n a b : ℕ) → IsDevice d → IsWord n → IsMills a → IsMills b
        → words_in rest.now ≢ device_word d ∷ decimal n ∷ decimal a ∷ codes "balance" ∷ decimal b ∷ []) }
{
    match five::<DevNo, u32, u64, BalanceWord, u64>(rest) {
        Ok(read) => Some(StatementLine::Moved(Movement {
            cause: ruling.cause(read.0, read.1),
            amount: read.2,
            balance: read.4,
        })),
        Err(_) => None,
    }
}

// The closing line, by the words after its first.
fn read_closing(rest: &[u8]) -> Option<StatementLine>
    ensures found { IfSome result (λ line. (b : ℕ) × IsMills b × (line ≡ lines.Closing b)
        × (words_in rest.now ≡ decimal b ∷ [])) }
    ensures none { IfNone result ((b : ℕ) → IsMills b → words_in rest.now ≢ decimal b ∷ []) }
{
    match one::<u64>(rest) {
        Ok(balance) => Some(StatementLine::Closing(balance)),
        Err(_) => None,
    }
}

// The line that begins with this word.
fn read_behind(word: &[u8], rest: &[u8]) -> Option<StatementLine>
    ensures found { IfSome result (λ line. IsInRange line × (line_words line ≡ word.now ∷ words_in rest.now)) }
    ensures none { IfNone result ((line : TheLine) → IsInRange line → line_words line ≢ word.now ∷ words_in rest.now) }
{
    if is_word(word, b"statement") {
        return read_opening(rest);
    }
    if is_word(word, b"deposit") {
        return read_deposit(rest);
    }
    if is_word(word, b"reset") {
        return read_ruled(Ruling::Reset, rest);
    }
    if is_word(word, b"refund") {
        return read_ruled(Ruling::Refund, rest);
    }
    if is_word(word, b"withdraw") {
        return read_ruled(Ruling::Withdraw, rest);
    }
    if is_word(word, b"closing") {
        return read_closing(rest);
    }
    None
}

/// The line of a statement that the bytes are; None if and only if they are no such line.
pub fn read_statement_line(bytes: &[u8]) -> Option<StatementLine>
    ensures found { IfSome result (λ line. IsLineOf line bytes.now) }
    ensures none { IfNone result ((line : TheLine) → IsLineOf line bytes.now → ⊥) }
{
    match split_word(bytes) {
        Some((word, rest)) => read_behind(word, rest),
        None => None,
    }
}
