//! The lines about departments out of their bytes.
ghost use Rattle.std.specs.Prelude.{◌≡◌, ◌↔◌, ℕ, [], ◌∷◌, decimal, IfSome, IfNone, IsTrue};
ghost use Rattle.bench_base.specs.Ranges.{IsWord};
ghost use Rattle.bench_base.specs.declared.events.Event.TheVariants as ev;
ghost use Rattle.script_words.specs.Words.{words_in};
ghost use Rattle.line_extensions.specs.Events.{IsLineOf};
ghost use Rattle.host_departments.specs.DepartmentLines.{IsBehind, IsDepartmentLine};
ghost use Rattle.host_departments.specs.Rows.{IsDepartment};
ghost use Rattle.host_departments.specs.declared.row.DepartmentLine.{DepartmentLine as TheLine};

use crate::row::{DEPARTMENTS, DepartmentLine};
use script_text::read_event;
use script_words::{is_word, one, split_word, two};

fn is_department(number: u32) -> bool
    ensures { IsTrue result ↔ IsDepartment number }
{
    1 <= number && number <= DEPARTMENTS
}

// A department and a number.
fn read_pair(rest: &[u8]) -> Option<(u32, u32)>
    ensures found { IfSome result (λ t. IsDepartment t.0 × IsWord t.1
        × (words_in rest.now ≡ decimal t.0 ∷ decimal t.1 ∷ [])) }
    ensures none { IfNone result ((d n : ℕ) → IsDepartment d → IsWord n
        → words_in rest.now ≡ decimal d ∷ decimal n ∷ [] → ⊥) }
{
    let Ok(read) = two::<u32, u32>(rest) else {
        return None;
    };
    if is_department(read.0) {
        return Some(read);
    }
    None
}

// A department.
fn read_one(rest: &[u8]) -> Option<u32>
    ensures found { IfSome result (λ d. IsDepartment d × (words_in rest.now ≡ decimal d ∷ [])) }
    ensures none { IfNone result ((d : ℕ) → IsDepartment d → words_in rest.now ≡ decimal d ∷ [] → ⊥) }
{
    let Ok(read) = one::<u32>(rest) else {
        return None;
    };
    if is_department(read) {
        return Some(read);
    }
    None
}

// The line of the words after `dept`; this is the first of them.
fn read_rest(prefix: &[u8], word: &[u8], rest: &[u8]) -> Option<DepartmentLine>
    requires split { words_in prefix.now ≡ word.now ∷ words_in rest.now }
    ensures found { IfSome result (λ own. IsBehind own (words_in prefix.now)) }
    ensures none { IfNone result ((own : TheLine) → IsBehind own (words_in prefix.now) → ⊥) }
{
    if is_word(word, b"quota") {
        return match read_pair(rest) {
            Some((department, quota)) => Some(DepartmentLine::Quota(department, quota)),
            None => None,
        };
    }
    if is_word(word, b"assign") {
        return match read_pair(rest) {
            Some((department, job)) => Some(DepartmentLine::Assign(department, job)),
            None => None,
        };
    }
    if is_word(word, b"spent") {
        return match read_one(rest) {
            Some(department) => Some(DepartmentLine::Spent(department)),
            None => None,
        };
    }
    None
}

// The line of the words after `dept`.
fn read_dept(prefix: &[u8]) -> Option<DepartmentLine>
    ensures found { IfSome result (λ own. IsBehind own (words_in prefix.now)) }
    ensures none { IfNone result ((own : TheLine) → IsBehind own (words_in prefix.now) → ⊥) }
{
    match split_word(prefix) {
        Some((word, rest)) => read_rest(prefix, word, rest),
        None => None,
    }
}

// The job that the line is to print.
fn print_in(line: &[u8]) -> Option<u32>
    ensures found { IfSome result (λ j. IsLineOf (ev.Print j) line.now) }
    ensures none { IfNone result ((j : ℕ) → IsLineOf (ev.Print j) line.now → ⊥) }
{
    match read_event(line) {
        Ok(event) => event.print_job(),
        Err(_) => None,
    }
}

// The line that begins with this word.
fn read_behind(line: &[u8], word: &[u8], rest: &[u8]) -> Option<DepartmentLine>
    requires split { words_in line.now ≡ word.now ∷ words_in rest.now }
    ensures found { IfSome result (λ own. IsDepartmentLine own line.now) }
    ensures none { IfNone result ((own : TheLine) → IsDepartmentLine own line.now → ⊥) }
{
    if is_word(word, b"dept") {
        return read_dept(rest);
    }
    if is_word(word, b"print") {
        return match print_in(line) {
            Some(job) => Some(DepartmentLine::Print(job)),
            None => None,
        };
    }
    None
}

/// The line about departments that the bytes are, or the `print`; None if and only if they are neither.
pub fn read_department_line(line: &[u8]) -> Option<DepartmentLine>
    ensures found { IfSome result (λ own. IsDepartmentLine own line.now) }
    ensures none { IfNone result ((own : TheLine) → IsDepartmentLine own line.now → ⊥) }
{
    match split_word(line) {
        Some((word, rest)) => read_behind(line, word, rest),
        None => None,
    }
}
