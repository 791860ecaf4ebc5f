//! What a store of cells promises.
ghost use Rattle.std.specs.Prelude.{◌≡◌, ◌<◌, Option, ℕ, option_map, false};
ghost use Rattle.nv_store.specs.Store.{CommitsCell, OnlyShows, StoreView, count_sum, payload_of};
ghost use Rattle.nv_store.specs.Fills.{FillsCell};

use bench_base::refusals::StoreFail;

/// Cells of L bytes in storage. Each holds a payload, or is blank.
pub trait Store<const L: usize> {
    /// Whether the storage exposes its content and its images.
    ghost tells: { Type 0 };

    /// The number of slots of a cell.
    ghost slots: { ℕ };

    /// What contracts see of it: its cells, and its storage.
    ghost view: { Self → StoreView };

    /// What more a commit says of a store of this type.
    ghost keeps: { Self → Self → Type 0 } = { λ old new. Unit {0} };

    /// The number of cells.
    fn cells(&self) -> u32
        ensures { result ≡ (view self.now).cells };

    /// The payload of a cell, None where it is blank.
    fn get(&self, cell: u32) -> Option<&[u8; L]>
        requires { cell < (view self.now).cells }
        ensures { option_map (λ x. x.now) result ≡ payload_of ((view self.now).held cell) };

    /// Puts a payload into a cell. Errors: Failed where an earlier commit of this value answered Power or Fault; otherwise
    /// Worn where the cell has 4,294,967,295 commits; otherwise Power and Fault, where the storage failed. After these the
    /// next mount shows the old payload or the new one, and this value shows the old one.
    fn commit(&mut self, cell: u32, payload: &[u8; L]) -> Result<(), StoreFail>
        requires { cell < (view self.old).cells }
        ensures commits { CommitsCell tells L slots cell payload.now (view self.old) (view self.new) result }
        ensures fills { FillsCell tells L slots cell payload.now (view self.old) (view self.new) result }
        ensures kept { keeps self.old self.new };

    /// The sum of the counts of the cells.
    fn commits(&self) -> u64
        ensures { result ≡ count_sum (view self.now).cells (view self.now).held };

    /// While a store has not failed, the only image of its storage shows what it holds.
    ghost knows: { (s : Self) → tells → (view s).failed ≡ false
        → OnlyShows L slots (view s).cells (view s).held (view s).times (view s).content };
}
