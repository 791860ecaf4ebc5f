//! The words that the program is called with.
ghost use Rattle.std.specs.Prelude.{◌≡◌, ◌≢◌, ◌↔◌, ◌∷◌, [], ◌≤◌, ◌<◌, ℕ, map, codes, decimal, string_bytes, Some, IfSome, IfNone, IsTrue};
ghost use Rattle.bench_base.specs.Ranges.{IsWord};
ghost use Rattle.script_text.specs.Programs.{program_words, AreInRange};
ghost use Rattle.script_text.specs.declared.program.Words.{Words};

use script_words::word::Word;

/// The most turns of a generated run.
const MOST_TURNS: u32 = 90_000;

/// What the program is called for.
#[derive(Clone, Copy, Debug, PartialEq, Eq)]
pub enum Words {
    /// A script is to be replayed.
    Replay,
    /// A run is to be made from this seed, with so many turns, at most 90,000.
    Generate(u32, u32),
}

/// Whether the word that a program was called with is this one.
pub fn is_word(word: &String, wanted: &str) -> bool
    ensures same { IsTrue result ↔ (string_bytes word.now ≡ wanted.now) }
{
    word.as_str() == wanted
}

fn number(word: &String) -> Option<u32>
    ensures found { IfSome result (λ n. IsWord n × (string_bytes word.now ≡ decimal n)) }
    ensures none { IfNone result ((n : ℕ) → IsWord n → string_bytes word.now ≢ decimal n) }
{
    u32::read(word.as_bytes())
}

// How many turns the word asks for.
fn turns(word: &String) -> Option<u32>
    ensures found { IfSome result (λ n. (n ≤ 90000) × (string_bytes word.now ≡ decimal n)) }
    ensures none { IfNone result ((n : ℕ) → n ≤ 90000 → string_bytes word.now ≢ decimal n) }
{
    let count = number(word)?;
    if count > MOST_TURNS {
        return None;
    }
    Some(count)
}

// The words after `generate`.
fn generate(seed: &String, count: &String) -> Option<Words>
    ensures found { IfSome result (λ w. AreInRange w × (codes "generate" ∷ string_bytes seed.now ∷ string_bytes count.now ∷ [] ≡ program_words w)) }
    ensures none { IfNone result ((w : Words) → AreInRange w → codes "generate" ∷ string_bytes seed.now ∷ string_bytes count.now ∷ [] ≢ program_words w) }
{
    Some(Words::Generate(number(seed)?, turns(count)?))
}

// What the words are of, by how many there are.
fn by_number(words: &[String]) -> Option<Words>
    ensures found { IfSome result (λ w. AreInRange w × (map string_bytes words.now ≡ program_words w)) }
    ensures none { IfNone result ((w : Words) → AreInRange w → map string_bytes words.now ≢ program_words w) }
{
    match words {
        [word] => {
            if is_word(word, "replay") {
                return Some(Words::Replay);
            }
            None
        }
        [word, seed, count] => {
            if !is_word(word, "generate") {
                return None;
            }
            generate(seed, count)
        }
        _ => None,
    }
}

/// What these words call the program for: exactly `replay`, or `generate SEED COUNT`. None if and only if they are of neither form.
pub fn read_words(words: &[String]) -> Option<Words>
    ensures found { IfSome result (λ w. AreInRange w × (map string_bytes words.now ≡ program_words w)) }
    ensures none { IfNone result ((w : Words) → AreInRange w → map string_bytes words.now ≢ program_words w) }
    ensures only { (w : Words) → AreInRange w → map string_bytes words.now ≡ program_words w → result ≡ Some w }
{
    by_number(words)
}
