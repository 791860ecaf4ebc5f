//! The laws, as contracts of a function that takes and answers nothing.
ghost use Rattle.trace_starts.specs.Standing.{SeesWhatStands, RefusesRightly};

use bench::{Bench, HasNodes};
use nv_model::Nv;

/// Storages may have these bytes as images, and represent a history with no commit open. An auditor that starts from the records that the images show sees
/// that history. If one of the images shows no record, the storages represent no such history.
pub fn sees_what_stands<N: Nv + Drop>()
    ensures sees { SeesWhatStands ⟦<Bench<N> as HasNodes>⟧.nodes }
    ensures none { RefusesRightly ⟦<Bench<N> as HasNodes>⟧.nodes }
{}
