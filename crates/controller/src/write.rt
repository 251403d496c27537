ghost use Rattle.std.specs.Prelude.{◌≡◌, ◌+◌, ◌<◌, ◌≤◌};
ghost use Rattle.std.proofs.Math.Option.{none};
ghost use Rattle.machine.specs.Words.{row};
ghost use Rattle.machine.specs.Plans.{write_call};
ghost use Rattle.tree.specs.SlotTable.{table_in};
ghost use Rattle.controller.specs.Views.{shape_of, view_of, Fits};
ghost use Rattle.controller.specs.Runs.{ended, Went, before_commit};
ghost use Rattle.controller.specs.Registers.{RoomAt, Rest};

use crate::open::Open;
use crate::types::TreeFault;
use board::board::Board;
use suite::suite::Suite;

impl<B: Board, S: Suite> Open<B, S> {
    // Makes room for the counter of data line `at`: its overdue leaf is evicted, and a slot is free for a leaf that has none.
    fn make_room(&mut self, at: usize, commits: &mut u64) -> Result<(), TreeFault>
        requires place { (Fits self.old.chip.slots.layout.levels (B.Board.meaning self.old.board)) × (at < (shape_of self.old.chip).data_lines) }
        requires countable { commits.old ≤ 1000 }
        ensures went { Went (before_commit (shape_of self.old.chip) (S.Suite.scheme self.old.suite) self.old.chip.capacity (view_of (B.Board.meaning self.old.board) self.old.chip) at) (B.Board.meaning self.old.board) (ended result) (B.Board.meaning self.new.board) (table_in self.new.chip.slots) commits.old commits.new }
        ensures fits { Fits self.new.chip.slots.layout.levels (B.Board.meaning self.new.board) }
        ensures rest { Rest self.old.suite self.old.chip self.new.suite self.new.chip }
        ensures roomy { ended result ≡ none → RoomAt (shape_of self.old.chip) at self.new.chip.slots.used (table_in self.new.chip.slots) }
        ensures tally { commits.new ≤ commits.old + 21907080 }
    {
        let layout = self.chip.slots.layout();
        let leaf = layout.parent(at);
        if leaf >= layout.lines() {
            return Ok(());
        }
        self.evict_overdue(leaf, commits)?;
        if self.chip.slots.holds(leaf) {
            return Ok(());
        }
        self.evict_until(self.chip.capacity - 1, commits)
    }

    // Writes data line `at`.
    pub(crate) fn write_data(
        &mut self,
        at: usize,
        words: &[u64; 8],
        commits: &mut u64,
    ) -> Result<(), TreeFault>
        requires place { (Fits self.old.chip.slots.layout.levels (B.Board.meaning self.old.board)) × (at < (shape_of self.old.chip).data_lines) }
        requires countable { commits.old ≤ 1000 }
        ensures went { Went (write_call (shape_of self.old.chip) (S.Suite.scheme self.old.suite) self.old.chip.capacity (view_of (B.Board.meaning self.old.board) self.old.chip) at (row words.now)) (B.Board.meaning self.old.board) (ended result) (B.Board.meaning self.new.board) (table_in self.new.chip.slots) commits.old commits.new }
        ensures rest { Rest self.old.suite self.old.chip self.new.suite self.new.chip }
    {
        self.make_room(at, commits)?;
        self.commit(at, words, commits)
    }
}
