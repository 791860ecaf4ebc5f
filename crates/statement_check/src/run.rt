//! A statement is recomputed.
ghost use Rattle.std.specs.Prelude.{◌≡◌, ◌≢◌, ◌↔◌, ◌≤◌, [], ◌∷◌, map, string_bytes, codes, true, false, IfSome, IsTrue};
ghost use Rattle.bench_base.specs.Causes.{Rose};
ghost use Rattle.line_runs.specs.declared.status.Status.{Status};
ghost use Rattle.statement_check.specs.Runs.{Recomputed, IsAnswered};

use crate::judge::judge;
use bench_base::stream::Sink;
use line_runs::status::Status;
use script_words::Line;
use text_streams::{BufSource, put_text};

fn is_word(word: &String) -> bool
    ensures { IsTrue result ↔ (string_bytes word.now ≡ codes "recompute") }
{
    word.as_str() == "recompute"
}

// Whether the words are `recompute` alone.
fn is_called(words: &[String]) -> bool
    ensures called { result ≡ true → map string_bytes words.now ≡ codes "recompute" ∷ [] }
    ensures other { result ≡ false → map string_bytes words.now ≢ codes "recompute" ∷ [] }
{
    match words {
        [one] => {
            if is_word(one) {
                return true;
            }
            false
        }
        _ => false,
    }
}

/// Reads one statement, if the words are `recompute` alone, and writes whether each balance in it follows from the lines before it:
/// `statement good B`, or `statement wrong LINE X` for the first line with a balance other than X. It takes no memory.
///
/// - `Words`: The words are others. Nothing is read or written.
/// - `Script`: The line of this number is not in form, follows the closing line, or is missing. No line before it is wrong.
/// - `TooLong`: There is a line 10,003. Each line before it is right.
/// - `ReadFault`: The script failed. Nothing is written.
/// - `WriteFault`: The report failed. It has a part of the verdict's line.
pub fn run_recompute<S: BufSource, K: Sink>(
    words: &[String],
    script: &mut S,
    report: &mut K,
) -> Status
    ensures words { (result ≡ Status.Words) ↔ (map string_bytes words.now ≢ codes "recompute" ∷ []) }
    ensures untouched { result ≡ Status.Words → (script.new ≡ script.old) × (report.new ≡ report.old) }
    ensures ran { result ≢ Status.Words → Recomputed result (S.left script.old) (S.left script.new)
        (K.taken report.old) (K.taken report.new) }
    ensures exact { IfSome (S.left script.old) (λ bytes. result ≢ Status.Words → result ≢ Status.ReadFault
        → result ≢ Status.WriteFault → IsAnswered result bytes (K.taken report.old) (K.taken report.new)) }
    ensures read_later { S.faults script.old ≤ S.faults script.new }
    ensures read_fault { result ≡ Status.ReadFault → Rose (S.faults script.old) (S.faults script.new) }
    ensures write_later { K.faults report.old ≤ K.faults report.new }
    ensures write_fault { result ≡ Status.WriteFault → Rose (K.faults report.old) (K.faults report.new) }
{
    if !is_called(words) {
        return Status::Words;
    }
    let verdict = match judge(script) {
        Ok(verdict) => verdict,
        Err(_) => return Status::ReadFault,
    };
    let mut line = Line::new();
    verdict.put(&mut line);
    match put_text(report, line.as_slice()) {
        Ok(()) => verdict.status(),
        Err(_) => Status::WriteFault,
    }
}
