//! The laws of histories, each as a contract of a function that takes and answers nothing.
ghost use Rattle.std.specs.Prelude.{◌≡◌, ℕ, List, [], ◌∷◌, Some, All, IsSome, true};
ghost use Rattle.bench_base.specs.declared.{words.Node.Node, ledger.Commit.Commit, events.Event.Event};
ghost use Rattle.bench_base.specs.Rules.{first_rules, editions};
ghost use Rattle.bench_base.specs.Ranges.{InRange};
ghost use Rattle.bench_base.specs.Ledger.{Ledger, torn_of, counted};
ghost use Rattle.bench_base.specs.Events.{IsWholeEvent};
ghost use Rattle.ledger_terms.specs.Centres.{enrolled, withdrawn};
ghost use Rattle.ledger_terms.specs.Editions.{Editions};
ghost use Rattle.ledger_moves.specs.Moves.{plan};
ghost use Rattle.ledger_moves.specs.Histories.{Unforged, History};
ghost use Rattle.ledger_moves.specs.Tariffs.{Tariff};
ghost use Rattle.ledger_laws.specs.Places.{PlacesAddUp, CellsAddUp};
ghost use Rattle.ledger_laws.specs.Nexts.{AreOrdered, IsNext, IsOpen};
ghost use Rattle.ledger_laws.specs.Laws.{ForHistories, Holds};

/// What holds of every history, for every reading of rates and all versions of the rules, if each version allows what the one
/// before it does. A history may have commits that a cut left open. The rules in use are such versions (`today`), and a history
/// under the first version alone is one under all (`earlier`).
///
/// - `lawful`. The history is lawful.
/// - `owners`. A ruled request that is no enrolment has the customer under which its device is enrolled.
/// - `linked`. Device and centre are never further apart than the link allows.
/// - `balanced`. No ruling is that the sums disagree.
/// - `sane`. No event is answered `ahead`, `changed`, `stray` or `damaged`.
/// - `begins`. What a device applied is the beginning of what the centre ruled, except for at most one amount.
/// - `covered`. No more is acknowledged as refunded than as bought.
/// - `paid`. Each accepted piece was debited before, all of them for no more than was franked, and what was franked was bought.
/// - `fitting` and `sent`. Each number of a commit fits its field, and each message that was sent is read as one to a device
///   of 1 to 8.
/// - `replied`. A reply that was sent is, whole, the one to its ruling, its deadline and origin too.
/// - `either`. On a day, an `on` of a node with an open commit may show either count.
pub fn histories()
    ensures today { Editions editions }
    ensures earlier { (τ : Tariff) (H : Ledger) → History τ (first_rules ∷ []) H → History τ editions H }
    ensures holds { ForHistories Holds }
{}

/// What the next commit of every history may be, and what the nodes' records rest on:
///
/// - `ordered`. The counted commits are in the order of each node, so a node's record is that of the commits.
/// - `next`. They are in order after the commit of any event, and the commit's node is on.
/// - `torn`. They are in order if an open commit counts, and the commit's node is off.
pub fn orders()
    ensures ordered { ForHistories (λ τ ρ ρs H. AreOrdered (counted H)) }
    ensures next { ForHistories (λ τ ρ ρs H. (x : Event) (text : List ℕ) → IsWholeEvent x → Unforged x H
        → (c : Commit) → (plan τ ρ H x text).commit ≡ Some c → IsNext c H) }
    ensures torn { ForHistories (λ τ ρ ρs H. (n : Node) (c : Commit) → torn_of n H ≡ Some c → IsOpen n c H) }
{}

/// After every history the numbers of each commit fit their fields (`ranges`), and what lies in the cells of a node adds up to its
/// commits: of each device, of the centre, of the host and of the verifier (`cells`).
pub fn counts()
    ensures ranges { ForHistories (λ τ ρ ρs H. All InRange (counted H)) }
    ensures cells { ForHistories (λ τ ρ ρs H. CellsAddUp (counted H)) }
{}

/// After every history a device that is withdrawn was enrolled.
pub fn withdrawals()
    ensures { ForHistories (λ τ ρ ρs H. (d : ℕ) → withdrawn d (counted H) ≡ true → IsSome (enrolled d (counted H))) }
{}

/// What lies in the cells of a node adds up to its commits, in every list of commits:
///
/// - `places`. This holds for each list that has the place of each of the node's commits, each place once.
/// - `cells`. So it holds for the cells of a device, of the centre, of the host and of the verifier, if each commit's numbers
///   are in range.
pub fn cells()
    ensures places { PlacesAddUp }
    ensures cells { (C : List Commit) → All InRange C → CellsAddUp C }
{}
