//! What holds of storages that show what an auditor has.
ghost use Rattle.std.specs.Prelude.{◌≡◌, [], ◌∷◌, length};
ghost use Rattle.bench_base.specs.Ledger.{Ledger};
ghost use Rattle.bench_base.specs.declared.ledger.Entry.TheVariants.{Begin};
ghost use Rattle.bench.specs.Benches.{AreBlank, Places, StoresStand};
ghost use Rattle.trace_bench.specs.Seeing.{IsReady, Sees, audit_of};
ghost use Rattle.trace_bench.specs.declared.auditor.Auditor.{Auditor as AnyAuditor};
ghost use Rattle.folder_laws.specs.Folders.{IsBetweenRuns, IsFolder};

use bench::{BenchOver, HasNodes};
use nv_model::{Fuse, Nv};
use trace_bench::Auditor;
use trace_folder::{centre_is_sound, devices_are_sound, host_is_sound, verifier_is_sound};

/// Between two runs, the storages of a folder that show what the auditor has represent each ledger that the auditor sees. So a bench that is made of them
/// represents it, and what is proved of a run holds of the next one. As a run begins, it is between two runs (`begun`).
pub fn folder_stands<M: Fuse + Drop, N: Nv>(auditor: &Auditor)
    requires ready { IsReady (audit_of auditor.now) }
    ensures stands { (H : Ledger) (stores : Places N) → Sees (audit_of auditor.now) H → IsBetweenRuns H
        → IsFolder N.Nv (audit_of auditor.now) stores → StoresStand ⟦<BenchOver<M, N> as HasNodes>⟧.nodes stores H }
    ensures begun { (H : Ledger) → IsBetweenRuns (Begin ∷ H) }
{
    devices_are_sound();
    centre_is_sound(auditor.centre_node());
    host_is_sound(auditor.host_node());
    verifier_is_sound(auditor.verifier_node());
}

/// Blank storages are a folder that shows what an auditor of nothing has.
pub fn blank_folder<N: Nv>()
    ensures between { IsBetweenRuns [] }
    ensures shows { (a : AnyAuditor) (stores : Places N) → length stores.devices ≡ 8 → Sees (audit_of a) [] → AreBlank N.Nv stores
        → IsFolder N.Nv (audit_of a) stores }
{}
