ghost use Rattle.std.specs.Prelude.{◌≤◌};

use crate::types::Fault;
use tree::types::Slots;

// What the chip keeps of an open board.
#[derive(Drop)]
pub struct Chip {
    // the dirty nodes
    pub(crate) slots: Slots,
    // how many slots there are
    pub(crate) capacity: usize,
    // the fault that every call answers but shut-down
    pub(crate) latched: Option<Fault>,
    ghost some: { 1 ≤ capacity },
    ghost most: { capacity ≤ 64 },
}
