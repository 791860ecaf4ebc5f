//! Whether a piece is accepted. Days are since 1970-01-01.
ghost use Rattle.std.specs.Prelude.{◌≡◌};
ghost use Rattle.verifier.specs.Answers.{scan_answer};

use bench_base::numbers::DayNo;
use bench_base::refusals::ScanRefusal;

/// How many days after its own a mark is good.
const LIFE: i64 = 30;

/// Whether a piece with a mark of this day was accepted before under the same scan number. If not, it is to be accepted
/// now. `accepted` is the scan under which it was accepted first, and `full` says that all blocks are in use and none
/// holds it.
///
/// The first refusal that holds is returned. `Duplicate` if the piece was accepted under another number, then `Future` and
/// `TooOld` by the mark's day, then `BlocksFull`.
pub fn scan(
    number: u32,
    day: i32,
    today: DayNo,
    full: bool,
    accepted: Option<u32>,
) -> Result<bool, ScanRefusal>
    ensures exact { result ≡ scan_answer number day today full accepted }
{
    if let Some(first) = accepted {
        return if first == number {
            Ok(true)
        } else {
            Err(ScanRefusal::Duplicate(first))
        };
    }
    if today.get() < day {
        return Err(ScanRefusal::Future(day));
    }
    if i64::from(day) + LIFE < i64::from(today.get()) {
        return Err(ScanRefusal::TooOld(day));
    }
    if full {
        return Err(ScanRefusal::BlocksFull);
    }
    Ok(false)
}
