ghost use Rattle.std.specs.Prelude.{◌≡◌, ◌-◌, ◌<◌, ◌≤◌, ◌==◌};
ghost use Rattle.machine.specs.Words.{row, line_in, memory_in, register_in};
ghost use Rattle.machine.specs.Encoding.{register_meant};
ghost use Rattle.machine.specs.Plans.{map_count, sum_of, restore_node, restore as restore_plan, recover as recover_plan};
ghost use Rattle.machine.specs.Layouts.{shape_in};
ghost use Rattle.tree.specs.SlotTable.{table_in, no_slots, map_in};
ghost use Rattle.controller.specs.Views.{view_in, Fits};
ghost use Rattle.controller.specs.Restores.{child_line_valid, ChildRestored, slot_outcome, from_children, SlotOf, map_below, Restores, Recovers};

use crate::counters::{node_valid, nonce};
use crate::faults::line_of;
use crate::types::TreeFault;
use crate::view::View;
use board::board::Board;
use board::types::Line;
use machine::counter::restore_counter;
use machine::types::Register;
use suite::sealing::is_right;
use suite::suite::Suite;
use tree::dirty_map::highest_below;
use tree::types::{Layout, Slot, Slots};

// How far a counter moved from the stored one.
fn moved(stored: u64, counter: u64) -> u64
    requires { stored ≤ counter }
    ensures { result ≡ counter - stored }
{
    counter - stored
}

impl<B: Board, S: Suite> View<'_, B, S> {
    // Whether a child's line is right under its restored counter.
    fn child_valid(&self, at: usize, line: &Line, counter: u64) -> bool
        ensures { result ≡ child_line_valid (S.Suite.scheme self.now.suite.now) (shape_in self.now.layout) at counter (line_in line.now) }
    {
        let nonce = nonce(at, counter);
        if at < self.layout.data_lines() {
            return is_right(self.suite, nonce, line);
        }
        node_valid(self.suite, nonce, line)
    }

    // The counter of child `at`, from the one that its parent's line stores and the low bits of its own tag.
    fn restore_child(&self, at: usize, stored: u64) -> Result<u64, TreeFault>
        requires { at < (shape_in self.now.layout).lines }
        ensures { ChildRestored (S.Suite.scheme self.now.suite.now) (shape_in self.now.layout) at stored (memory_in (B.Board.meaning self.now.board.now).lines at) result }
    {
        let line = line_of(self.board, at)?;
        match restore_counter(stored, line.tag) {
            Some(counter) if self.child_valid(at, &line, counter) => Ok(counter),
            _ => Err(TreeFault::Corrupt(at)),
        }
    }

    // The slot of node `at` from its stored counters and its children, or the first child that is corrupt.
    fn slot_from(&self, at: usize, stored: &[u64; 8]) -> Result<Slot, TreeFault>
        requires place { ((shape_in self.now.layout).data_lines ≤ at) × (at < (shape_in self.now.layout).lines) }
        requires own_counters { row stored.now ≡ (memory_in (B.Board.meaning self.now.board.now).lines at).words }
        ensures value { slot_outcome result ≡ from_children (shape_in self.now.layout) (S.Suite.scheme self.now.suite.now) (memory_in (B.Board.meaning self.now.board.now).lines) at }
        ensures slot { SlotOf at result }
    {
        let first = self.layout.first_child(at);
        let mut counters = *stored;
        let mut pending = 0;
        for (i, counter) in counters.iter_mut().enumerate() {
            let restored = self.restore_child(first + i, *counter)?;
            pending += moved(*counter, restored);
            *counter = restored;
        }
        Ok(Slot {
            address: at,
            counters,
            pending,
        })
    }

    // Restores node `at`: its way down and own line are checked, then its children.
    fn restore_node(&self, at: usize) -> Result<Slot, TreeFault>
        requires { ((shape_in self.now.layout).data_lines ≤ at) × (at < (shape_in self.now.layout).lines) }
        ensures value { slot_outcome result ≡ restore_node (shape_in self.now.layout) (S.Suite.scheme self.now.suite.now) (view_in (B.Board.meaning self.now.board.now) (table_in self.now.slots.now)) at }
        ensures slot { SlotOf at result }
    {
        let counter = self.counter_of(at)?;
        let line = self.node_line(at, counter)?;
        self.slot_from(at, &line.body)
    }
}

// Restores the nodes of a dirty map into empty slots, highest address first.
// It takes a view's parts, since each node that is restored changes the slots.
fn restore<B: Board, S: Suite>(
    board: &B,
    suite: &S,
    slots: &mut Slots,
    layout: Layout,
    map: &[u64; 10],
) -> Result<(), TreeFault>
    requires start { (Fits layout.levels (B.Board.meaning board.now)) × ((slots.old.layout ≡ layout) × ((table_in slots.old ≡ no_slots) × (slots.old.used ≡ 0))) }
    requires dirty_nodes { ((register_in (B.Board.meaning board.now).register).dirty ≡ map_in layout.levels map.now) × (map_below (shape_in layout).lines (register_in (B.Board.meaning board.now).register) ≤ 64) }
    ensures value { Restores (restore_plan (shape_in layout) (S.Suite.scheme suite.now) (shape_in layout).lines (view_in (B.Board.meaning board.now) no_slots)) (B.Board.meaning board.now) result (table_in slots.new) }
    ensures layout { slots.new.layout ≡ layout }
{
    let base = layout.data_lines();
    let mut below = layout.lines() - base;
    while let Some(j) = highest_below(map, below) {
        let view = View {
            board,
            suite,
            slots,
            layout,
        };
        let slot = view.restore_node(base + j)?;
        slots.push(slot);
        below = j;
    }
    Ok(())
}

// Whether the counters of the slots add up to a dirty sum.
fn adds_up(slots: &Slots, sum: u64) -> bool
    ensures { result ≡ (sum_of (shape_in slots.now.layout) (table_in slots.now) == sum) }
{
    slots.sum() == sum
}

// The slots of the dirty nodes, whose counters must add up to the dirty sum.
// It takes no view, since there are no slots before it.
pub(crate) fn recover<B: Board, S: Suite>(
    board: &B,
    suite: &S,
    layout: Layout,
    register: &Register,
) -> Result<Slots, TreeFault>
    requires fits { Fits layout.levels (B.Board.meaning board.now) }
    requires few { map_count (shape_in layout) (register_in (B.Board.meaning board.now).register) ≤ 64 }
    requires own { register_meant register.now ≡ register_in (B.Board.meaning board.now).register }
    ensures { Recovers (recover_plan (shape_in layout) (S.Suite.scheme suite.now) (memory_in (B.Board.meaning board.now).lines) (register_in (B.Board.meaning board.now).register)) layout result }
{
    let mut slots = Slots::new(layout);
    restore(board, suite, &mut slots, layout, &register.dirty)?;
    if !adds_up(&slots, register.dirty_sum) {
        return Err(TreeFault::SumMismatch);
    }
    Ok(slots)
}
