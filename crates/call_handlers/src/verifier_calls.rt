//! The calls of the verifier: what each does by its rows, and what the verifier says of it.
ghost use Rattle.bench_base.specs.declared.words.Node.TheVariants as node;
ghost use Rattle.bench_base.specs.declared.events.Reply.TheVariants as r;
ghost use Rattle.bench_base.specs.Ranges.{IsCount, IsDevice, IsKey};
ghost use Rattle.bench_base.specs.Table.{IsBytes};
ghost use Rattle.verifier.specs.Acts as acts;
ghost use Rattle.verifier.specs.ActLaws.{IsFit};
ghost use Rattle.verifier.specs.Plans as told;
ghost use Rattle.bench_abstraction.specs.Verifier as views;

use bench_abstraction::{ScanCall, TrustCall, VerifierCall};
use bench_base::events::Reply;
use bench_base::numbers::DayNo;
use bench_base::refusals::ScanRefusal;
use bench_base::words::Node as NodeNo;
use node_acts::{Call, Callee, Holds, Said};
use verifier::{Accepted, Change, RowsOf, ScanAct};

/// The verifier, where it is called on this day.
#[derive(Drop)]
pub struct VerifierCallee {
    pub day: DayNo,
}

impl Callee for VerifierCallee {
    type Refusal = ScanRefusal;

    ghost named = { λ c. node.Verifier };

    ghost refuses = { λ c x. r.ScanRefused x };

    fn name(&self) -> NodeNo {
        NodeNo::Verifier
    }

    fn refusal(&self, refusal: ScanRefusal) -> Reply {
        Reply::ScanRefused(refusal)
    }
}

impl<R: Holds + RowsOf<R::By>> Call<VerifierCallee, R, Change> for TrustCall {
    type Answer = ();

    ghost IsAsked = { λ c. IsDevice c.device × IsKey c.key };

    ghost does = { λ c e s. acts.trust_act c.device c.key (R.rows s) };

    ghost says = { λ c e u. told.told_trusted c.device u };

    ghost Makes = { λ s x. IsFit (R.rows s) x };

    fn act(&self, _callee: &VerifierCallee, held: &R) -> ScanAct<()> {
        held.trusting(self.device, &self.key)
    }

    fn answer(&self, _callee: &VerifierCallee, _trusted: &()) -> Said {
        Said::of(Reply::Trusted(self.device))
    }
}

impl<'a, R: Holds + RowsOf<R::By>> Call<VerifierCallee, R, Change> for ScanCall<'a> {
    type Answer = Accepted;

    ghost IsAsked = { λ c. IsCount c.number × IsBytes c.bytes };

    ghost does = { λ c e s. acts.scan_act c.number c.bytes e.day (R.rows s) };

    ghost says = { λ c e a. told.told_accepted c.number a };

    ghost Makes = { λ s x. IsFit (R.rows s) x };

    fn act(&self, callee: &VerifierCallee, held: &R) -> ScanAct<Accepted> {
        held.scanning(self.number, self.bytes.as_slice(), callee.day)
    }

    fn answer(&self, _callee: &VerifierCallee, piece: &Accepted) -> Said {
        Said::of(Reply::Accepted {
            device: piece.device,
            piece: piece.piece,
            scan: self.number,
            again: piece.again,
        })
    }
}

fn are_bytes(bytes: &[u8])
    ensures { IsBytes bytes.now }
{}

/// What a call scans is a list of bytes.
pub fn scans_bytes(call: &VerifierCall)
    ensures { views.IsBytesCall call.now }
{
    if let VerifierCall::Scan(call) = call {
        are_bytes(call.bytes.as_slice());
    }
}
