ghost use Rattle.std.specs.Prelude.{◌≡◌, ℕ, ◌^◌, ◌<◌, ◌≤◌, length, ◌≢◌, slice_index_or};
ghost use Rattle.suite.specs.Words.{row};
ghost use Rattle.machine.specs.Layout.{lines_of};
ghost use Rattle.tree.specs.Limits.{WithinLimit};
ghost use Rattle.tree.specs.Tables.{no_slot};

pub use machine::layout::Layout;

// The most pending increments of a node: with so many it is overdue.
pub(crate) const MOST_PENDING: u64 = 1023;

// A dirty node on the chip: its address, its counters and its pending increments.
#[derive(Clone, Copy)]
pub struct Slot {
    pub address: usize,
    pub counters: [u64; 8],
    pub pending: u64,
}

// The chip's slots: the dirty nodes of a layout, one slot to each.
#[derive(Drop)]
pub struct Slots {
    // A plain array with the number used: the rule here is fixed memory and no heap. An `ArrayVec` is no plainer: it is the same table and number, and needs a blank slot at each removal.
    pub(crate) table: [Slot; 64],
    pub(crate) used: usize,
    pub(crate) layout: Layout,
    ghost few: { used ≤ 64 },
    ghost fit: { used ≤ length table },
    ghost apart: { (i j : ℕ) → i < j → j < used → (slice_index_or table i no_slot).address ≢ (slice_index_or table j no_slot).address },
    ghost range: { (i : ℕ) → i < used → (slice_index_or table i no_slot).address < lines_of layout.levels },
    ghost node: { (i : ℕ) → i < used → 8 ^ layout.levels ≤ (slice_index_or table i no_slot).address },
    ghost small: { (i : ℕ) → i < used → WithinLimit (row (slice_index_or table i no_slot).counters) },
}
