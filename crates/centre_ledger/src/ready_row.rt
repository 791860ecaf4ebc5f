//! A device's row in the centre's memory, with the device's key made ready for codes.
ghost use Rattle.std.specs.Prelude.{◌≡◌, Some};

use crate::rows::DeviceRow;
use hmac_core::ReadyKey;
use std::marker::Model;

/// A device's row with its key made ready. The ready key follows from the row and is never stored; contracts see the row alone.
#[derive(Drop)]
pub struct ReadyRow {
    row: DeviceRow,
    key: ReadyKey,
}

impl Model for ReadyRow {
    ghost use Rattle.std.specs.Prelude.{◌≡◌};
    ghost use Rattle.centre_ledger.specs.declared.rows.DeviceRow.{DeviceRow};

    ghost Value = { DeviceRow };

    ghost view = { λ r. r.row };

    ghost invariant = { λ r. r.key ≡ r.row.key };
}

impl ReadyRow {
    /// This row, with its key made ready now.
    pub fn new(row: &DeviceRow) -> ReadyRow
        ensures { result ≡ row.now }
    {
        ReadyRow {
            row: *row,
            key: ReadyKey::new(&row.key),
        }
    }

    /// A row with its key, which was made ready before.
    pub(crate) fn with(row: &DeviceRow, key: ReadyKey) -> ReadyRow
        requires { key ≡ row.now.key }
        ensures { result ≡ row.now }
    {
        ReadyRow { row: *row, key }
    }

    /// The row alone.
    pub fn row(&self) -> &DeviceRow
        ensures { result.now ≡ self.now }
    {
        &self.row
    }

    /// The key that messages are written and checked with.
    pub fn key(&self) -> &ReadyKey
        ensures { result.now ≡ self.now.key }
    {
        &self.key
    }

    // Takes another row's place. A key that stays the same is ready already.
    fn follow(&mut self, next: &DeviceRow)
        ensures { self.new ≡ next.now }
    {
        if *self.key.key() == next.key {
            self.row = *next;
        } else {
            *self = ReadyRow::new(next);
        }
    }
}

/// Keeps the row in the place of a device.
pub fn keep(slot: &mut Option<ReadyRow>, next: &DeviceRow)
    ensures { slot.new ≡ Some next.now }
{
    match slot {
        Some(kept) => kept.follow(next),
        None => *slot = Some(ReadyRow::new(next)),
    }
}

/// The row in the place of a device, alone.
pub fn plain(slot: &Option<ReadyRow>) -> Option<DeviceRow>
    ensures { result ≡ slot.now }
{
    match slot {
        Some(kept) => Some(*kept.row()),
        None => None,
    }
}
