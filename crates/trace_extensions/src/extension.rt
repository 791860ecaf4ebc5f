//! An extension as an audit knows it.
ghost use Rattle.std.specs.Prelude.{◌≡◌, IfSome, IfNone};

use bench_base::events::Reply;
use line_extensions::{Extension, Next};

/// An extension with own lines that an auditor can judge.
pub trait TracedExtension: Extension {
    ghost use Rattle.std.specs.Prelude.{ℕ, List, [], ◌∷◌, false};
    ghost use Rattle.bench_base.specs.declared.events.Reply.{Reply};
    ghost use Rattle.ledger_moves.specs.Tariffs.{Tariff};
    ghost use Rattle.line_extensions.specs.Desks.{World, DidOwn};
    ghost use Rattle.line_extensions.specs.Trace.{StepRecord};
    ghost use Rattle.line_extensions.specs.declared.extension.Next.{Next as TheNext};
    ghost use Rattle.line_extensions.specs.declared.extension.Next.TheVariants.{Say};
    ghost use Rattle.trace_bench.specs.Stopping.{IsPrefixOf};
    ghost use Rattle.trace_extensions.specs.Models.{Model, by_model, AreAlike, AreFailures, AreToldOf, AsksSurely, EndsByFailure, IsDetermined, IsIdle, IsModelOf, TellsFailures};
    ghost use Rattle.trace_extensions.specs.Places.{Place, MayStep};

    /// What it keeps and says, whatever its storage is.
    ghost View: { Type 0 };

    ghost view: { Self → View };

    /// How it moves, by that.
    ghost model: { Model View };

    /// This line of the report tells that the step of this number, counted from 1, got this failure of a node.
    ghost Fails: { ℕ → List ℕ → Reply → Type 0 };

    /// The failure of a node that this line of the report reports for the step of this number, counted from 1, if it does.
    fn failure(step: u32, line: &[u8]) -> Option<Reply>
        ensures found { IfSome result (λ reply. Fails step line.now reply) }
        ensures none { IfNone result ((reply : Reply) → Fails step line.now reply → ⊥) };

    /// Whether it is in doubt what was done for an own line for which this was asked first, if the report ends with this prefix of its answer: none,
    /// some or all of it, without its line end. The line was begun, and no step of it was done. If it is in doubt, the caller asks how far the run came.
    /// If not, and the prefix begins the answer, all was done, and no node failed in it but as the prefix tells (`settled`). And if nothing was
    /// written of the answer, nothing that may have been done changes anything (`idle`).
    fn is_in_doubt(&self, first: &Next, prefix: &[u8]) -> bool
        ensures settled { result ≡ false → (τ : Tariff) (old new : World Place View) (line text : List ℕ) (more : List (List ℕ)) (steps : List StepRecord)
            (did : DidOwn (by_model model) (MayStep τ) old new line steps Say) → did.first ≡ first.now → did.desk ≡ view self.now
            → model.texts new.desk ≡ text ∷ more → IsPrefixOf prefix.now text → AreToldOf Fails 1 prefix.now steps }
        ensures idle { result ≡ false → prefix.now ≡ [] → (τ : Tariff) (old new : World Place View) (line : List ℕ) (steps : List StepRecord) (next : TheNext)
            (did : DidOwn (by_model model) (MayStep τ) old new line steps next) → did.first ≡ first.now → did.desk ≡ view self.now
            → IsIdle model old new next };

    /// A failure of a node in the step of this number, counted from 1, with which the first line of the answer begins so: with none, some or all of the
    /// bytes of that line, without its line end. `None` if there is none.
    fn failure_in(step: u32, prefix: &[u8]) -> Option<Reply>
        ensures found { IfSome result (λ reply. (line : List ℕ) × Fails step line reply × IsPrefixOf prefix.now line) }
        ensures none { IfNone result ((line : List ℕ) (reply : Reply) → Fails step line reply → IsPrefixOf prefix.now line → ⊥) };

    /// Laws of its model. Nothing is done.
    fn laws()
        ensures modelled { IsModelOf ⟦<Self as Extension>⟧ view model }
        ensures determined { IsDetermined model }
        ensures alike { AreAlike model }
        ensures asks { AsksSurely model }
        ensures ends { EndsByFailure model }
        ensures failures { AreFailures Fails }
        ensures one_failure { (number : ℕ) (line : List ℕ) (x y : Reply) → Fails number line x → Fails number line y → x ≡ y }
        ensures tells { (τ : Tariff) (old new : World Place View) (line : List ℕ) (steps : List StepRecord)
            → DidOwn (by_model model) (MayStep τ) old new line steps Say → TellsFailures Fails steps (model.texts new.desk) };
}
