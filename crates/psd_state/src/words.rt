//! What kinds, phases and verdicts have in common.
ghost use Rattle.std.specs.Prelude.{◌≡◌};
ghost use Rattle.bench_base.specs.declared.words.Kind.TheVariants.{Reset};
ghost use Rattle.bench_base.specs.Kinds as kinds;
ghost use Rattle.psd_state.specs.Answers as answers;

use bench_base::words::{Kind, Phase, Verdict};

/// The version of the marks and requests that are written.
pub const VERSION: u8 = 2;

pub fn is_allowed(kind: Kind, phase: Phase) -> bool
    ensures { result ≡ kinds.is_allowed kind phase }
{
    match kind {
        Kind::Enrol => matches!(phase, Phase::Manufactured),
        Kind::Audit | Kind::Withdraw => matches!(phase, Phase::Authorised | Phase::InService),
        Kind::Reset | Kind::Refund => matches!(phase, Phase::InService),
    }
}

pub fn is_in_service(phase: Phase) -> bool
    ensures { result ≡ answers.in_service phase }
{
    matches!(phase, Phase::InService)
}

#[tactic(auto, unfolding(bench_base::specs::Kinds::same_kind))]
pub fn is_reset(kind: Kind) -> bool
    ensures { result ≡ kinds.same_kind kind Reset }
{
    matches!(kind, Kind::Reset)
}

/// A refund or a withdrawal takes all that is left.
#[tactic(auto, unfolding(bench_base::specs::Kinds::same_kind))]
pub fn empties(kind: Kind) -> bool
    ensures { result ≡ kinds.empties kind }
{
    matches!(kind, Kind::Refund | Kind::Withdraw)
}

pub fn is_granted(verdict: Verdict) -> bool
    ensures { result ≡ kinds.is_granted verdict }
{
    matches!(verdict, Verdict::Granted)
}

#[tactic(auto, unfolding(bench_base::specs::Kinds::same_kind))]
pub fn is_same_kind(first: Kind, second: Kind) -> bool
    ensures { result ≡ kinds.same_kind first second }
{
    match first {
        Kind::Enrol => matches!(second, Kind::Enrol),
        Kind::Reset => matches!(second, Kind::Reset),
        Kind::Audit => matches!(second, Kind::Audit),
        Kind::Refund => matches!(second, Kind::Refund),
        Kind::Withdraw => matches!(second, Kind::Withdraw),
    }
}
