//! The laws of scans, as the contract of a function that takes and answers nothing.
ghost use Rattle.std.specs.Prelude.{◌≡◌, ◌⊎◌, ℕ, List, Bool, Some, Ok, Contains};
ghost use Rattle.bench_base.specs.declared.{events.Event.Event, events.Reply.Reply, ledger.Commit.TheVariants.Accepted};
ghost use Rattle.bench_base.specs.declared.events.Event.TheVariants as ev;
ghost use Rattle.bench_base.specs.declared.events.Reply.TheVariants as r;
ghost use Rattle.bench_base.specs.Ledger.{Ledger, IsReleased, counted};
ghost use Rattle.bench_base.specs.Rules.{todays_rules};
ghost use Rattle.bench_base.specs.Scans.{accepted};
ghost use Rattle.indicium.specs.declared.Mark.{Mark};
ghost use Rattle.indicium.specs.Marks.{read_mark};
ghost use Rattle.ledger_terms.specs.Further.{postage_of};
ghost use Rattle.ledger_laws.specs.Laws.{ForHistories};
ghost use Rattle.ledger_moves.specs.Moves.{Moves, entries};
ghost use Rattle.ledger_moves.specs.Tariffs.{Tariff};
ghost use Rattle.scan_laws.specs.Acceptances.{EachAccepted, HasAccepted, IsScanOf, Accepts};

/// Scans and what they accept:
///
/// - `others`. Whatever reply an event gets, each acceptance after it, counted or open, was there before or is of its own scan.
/// - `accepted`. If a scan of bytes is answered by an acceptance, now or again, the piece of their mark is accepted under the scan's
///   number in the ledger after it. The mark was released unless it is forged.
/// - `postage`. A released mark shows the postage of the debit of its piece.
/// - `once`. A piece is accepted under one number.
pub fn scans()
    ensures others { (τ : Tariff) (H : Ledger) (x : Event) (text : List ℕ) (reply : Reply)
        → EachAccepted (λ d p n. HasAccepted H d p n ⊎ IsScanOf d p n x) (entries τ todays_rules H x text reply) }
    ensures accepted { (τ : Tariff) (H : Ledger) (text : List ℕ) (n : ℕ) (bytes : List ℕ) (d p m : ℕ) (again : Bool)
        → Moves τ todays_rules H (ev.ScanHex n bytes) text (r.Accepted d p m again)
        → Accepts n bytes H (entries τ todays_rules H (ev.ScanHex n bytes) text (r.Accepted d p m again)) d p m }
    ensures postage { ForHistories (λ τ ρ ρs H. (x : List ℕ) (k : Mark) (code : List ℕ) → IsReleased x H
        → read_mark x ≡ Ok (k, code) → postage_of k.device k.piece (counted H) ≡ Some k.postage) }
    ensures once { ForHistories (λ τ ρ ρs H. (d p n : ℕ) → Contains (counted H) (Accepted d p n)
        → accepted d p (counted H) ≡ Some n) }
{}
