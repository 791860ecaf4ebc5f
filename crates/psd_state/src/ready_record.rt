//! A device's record in the memory of a device that is on, with its key made ready for codes.
ghost use Rattle.std.specs.Prelude.{◌≡◌, Some};

use crate::record::DevRec;
use hmac_core::ReadyKey;
use std::marker::Model;

/// A device's record with its key made ready. The ready key follows from the record and is never stored; contracts see the
/// record alone.
#[derive(Drop)]
pub struct ReadyRecord {
    record: DevRec,
    key: ReadyKey,
}

impl Model for ReadyRecord {
    ghost use Rattle.std.specs.Prelude.{◌≡◌};
    ghost use Rattle.psd_state.specs.State.{State};

    ghost Value = { State };

    ghost view = { λ r. r.record };

    ghost invariant = { λ r. r.key ≡ r.record.key };
}

impl ReadyRecord {
    /// This record, with its key made ready now.
    pub fn new(record: &DevRec) -> ReadyRecord
        ensures { result ≡ «record».now }
    {
        ReadyRecord {
            record: *record,
            key: ReadyKey::new(record.key()),
        }
    }

    /// The record alone.
    pub fn record(&self) -> &DevRec
        ensures { result.now ≡ self.now }
    {
        &self.record
    }

    /// The key that messages are written and checked with.
    pub(crate) fn key(&self) -> &ReadyKey
        ensures { result.now ≡ self.now.key }
    {
        &self.key
    }

    // Takes another record's place. A key that stays the same is ready already.
    fn follow(&mut self, next: &DevRec)
        ensures { self.new ≡ next.now }
    {
        if self.key.key() == next.key() {
            self.record = *next;
        } else {
            *self = ReadyRecord::new(next);
        }
    }
}

/// Keeps the record that was committed.
pub fn keep(state: &mut Option<ReadyRecord>, next: &DevRec)
    ensures { state.new ≡ Some next.now }
{
    match state {
        Some(kept) => kept.follow(next),
        None => *state = Some(ReadyRecord::new(next)),
    }
}

/// The record that was read, with its key made ready.
pub fn ready(record: &Option<DevRec>) -> Option<ReadyRecord>
    ensures { result ≡ «record».now }
{
    match record {
        Some(record) => Some(ReadyRecord::new(record)),
        None => None,
    }
}
