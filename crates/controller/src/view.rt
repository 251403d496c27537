// A board with the lines of its layout, under a suite and beside the slots of its dirty nodes.
ghost use Rattle.controller.specs.Views.{Fits};

use board::board::Board;
use suite::suite::Suite;
use tree::types::{Layout, Slots};

// What the checks of lines and counters work on.
#[derive(Drop)]
pub(crate) struct View<'a, B: Board, S: Suite> {
    pub(crate) board: &'a B,
    pub(crate) suite: &'a S,
    pub(crate) slots: &'a Slots,
    pub(crate) layout: Layout,
    ghost fits: { Fits layout.levels (B.Board.meaning board.now) },
}
