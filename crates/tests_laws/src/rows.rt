//! Worked rows over the definitions, to the byte.
ghost use Rattle.tests_laws.specs.Worked.{PathRows, RequestRows, RefusalRows, TodaysRows};

/// Scripts with what they are answered and the ledgers that they make: the definitions give these very bytes.
///
/// - `path`. In one script a device is enrolled, inspected and loaded, and a piece of mail is ordered, franked, held, printed
///   and accepted. Its ledger is a history.
/// - `requests`. A reply is lost, and the request is sent again. The centre loses power in the commit of a ruling, which
///   counts. Some resets are not granted.
/// - `refusals`. Refusals of each node, and of the bench, in their order.
/// - `today`. The same device goes on under today's rules. What comes out is a history by all versions of the rules.
pub fn worked_rows()
    ensures path { PathRows }
    ensures requests { RequestRows }
    ensures refusals { RefusalRows }
    ensures today { TodaysRows }
{}
