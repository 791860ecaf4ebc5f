//! What the words of the program call for, and which storages that uses.
ghost use Rattle.std.specs.Prelude.{◌≡◌, ◌≢◌, ◌∷◌, [], map, codes, string_bytes, IfSome, IfNone};
ghost use Rattle.program_calls.specs.Calls.{call_words, uses_of, IsCall};
ghost use Rattle.program_calls.specs.declared.call.Call.{Call};

use script_text::{Words, is_word, read_words};

/// What the program is called for.
#[derive(Clone, Copy, Debug, PartialEq, Eq)]
pub enum Call {
    /// A script is replayed, or a run is made from a number.
    Bench(Words),
    /// A script with lines about claims is replayed.
    Claims,
    /// A script with lines about departments is replayed.
    Departments,
    /// A script with lines about statements is replayed.
    Statement,
    /// A script with lines about a manifest is replayed.
    Manifest,
    /// A statement is computed again.
    Recompute,
}

/// The storages that a call uses, in the current folder. Whoever uses one holds the folder's lock.
#[derive(Clone, Copy, Debug, PartialEq, Eq)]
pub enum Uses {
    /// No storage, and no other file.
    Nothing,
    /// Those of a bench.
    Bench,
    /// Those of a bench, and that of the claims.
    Claims,
    /// Those of a bench, and that of the departments.
    Departments,
}

impl Call {
    /// The storages that this call uses.
    pub fn uses(&self) -> Uses
        ensures { result ≡ uses_of self.now }
    {
        match self {
            Call::Bench(_) | Call::Statement | Call::Manifest => Uses::Bench,
            Call::Claims => Uses::Claims,
            Call::Departments => Uses::Departments,
            Call::Recompute => Uses::Nothing,
        }
    }
}

// What one word calls for, if it does not call for a bench alone.
fn beside(word: &String) -> Option<Call>
    ensures found { IfSome result (λ c. IsCall c × (string_bytes word.now ∷ [] ≡ call_words c)) }
    ensures none { IfNone result (
        (string_bytes word.now ≢ codes "claims")
        × (string_bytes word.now ≢ codes "departments")
        × (string_bytes word.now ≢ codes "statement")
        × (string_bytes word.now ≢ codes "manifest")
        × (string_bytes word.now ≢ codes "recompute")) }
{
    if is_word(word, "claims") {
        return Some(Call::Claims);
    }
    if is_word(word, "departments") {
        return Some(Call::Departments);
    }
    if is_word(word, "statement") {
        return Some(Call::Statement);
    }
    if is_word(word, "manifest") {
        return Some(Call::Manifest);
    }
    if is_word(word, "recompute") {
        return Some(Call::Recompute);
    }
    None
}

/// What these words call for. None if and only if they are the words of no call.
pub fn read_call(words: &[String]) -> Option<Call>
    ensures found { IfSome result (λ c. IsCall c × (map string_bytes words.now ≡ call_words c)) }
    ensures none { IfNone result ((c : Call) → IsCall c → map string_bytes words.now ≢ call_words c) }
{
    if let Some(words) = read_words(words) {
        return Some(Call::Bench(words));
    }
    match words {
        [word] => beside(word),
        _ => None,
    }
}
