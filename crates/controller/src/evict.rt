ghost use Rattle.std.specs.Prelude.{◌≡◌, ◌+◌, ◌-◌, ◌<◌, ◌≤◌, true, false};
ghost use Rattle.std.proofs.Math.Option.{none};
ghost use Rattle.machine.specs.Plans.{is_dirty, overdue, evict_now, evict as evicting, evict_overdue, evict_until};
ghost use Rattle.tree.specs.SlotTable.{table_in};
ghost use Rattle.controller.specs.Views.{shape_of, view_of, Fits};
ghost use Rattle.controller.specs.Runs.{ended, Went};
ghost use Rattle.controller.specs.Registers.{LeftSlot, SameBelow, Freed, Rest};

use crate::open::Open;
use crate::types::TreeFault;
use board::board::Board;
use suite::suite::Suite;

impl<B: Board, S: Suite> Open<B, S> {
    // Commits the line of dirty node `at`, which leaves its slot.
    fn evict_now(&mut self, at: usize, commits: &mut u64) -> Result<(), TreeFault>
        requires node { (Fits self.old.chip.slots.layout.levels (B.Board.meaning self.old.board)) × ((at < (shape_of self.old.chip).lines) × (is_dirty (table_in self.old.chip.slots at) ≡ true)) }
        requires parent { (shape_of self.old.chip).parent at < (shape_of self.old.chip).lines → overdue (table_in self.old.chip.slots ((shape_of self.old.chip).parent at)) ≡ false }
        requires countable { commits.old < 18446744073709551615 }
        ensures tally { commits.new ≤ commits.old + 1 }
        ensures went { Went (evict_now (shape_of self.old.chip) (S.Suite.scheme self.old.suite) (view_of (B.Board.meaning self.old.board) self.old.chip) at) (B.Board.meaning self.old.board) (ended result) (B.Board.meaning self.new.board) (table_in self.new.chip.slots) commits.old commits.new }
        ensures fits { Fits self.new.chip.slots.layout.levels (B.Board.meaning self.new.board) }
        ensures rest { Rest self.old.suite self.old.chip self.new.suite self.new.chip }
        ensures out { LeftSlot (shape_of self.old.chip) at (table_in self.old.chip.slots) (ended result) (table_in self.new.chip.slots) }
    {
        let counter = self.next_counter(at)?;
        let Some(counters) = self.chip.slots.remove(at) else {
            unreachable!()
        };
        self.commit_under(at, &counters, counter, commits)
    }

    // Evicts dirty node `at`: an overdue parent first.
    #[cycle(eviction)]
    fn evict(&mut self, at: usize, commits: &mut u64) -> Result<(), TreeFault>
        requires node { (Fits self.old.chip.slots.layout.levels (B.Board.meaning self.old.board)) × ((at < (shape_of self.old.chip).lines) × (is_dirty (table_in self.old.chip.slots at) ≡ true)) }
        requires countable { commits.old + ((shape_of self.old.chip).lines - at) ≤ 18446744073709551615 }
        ensures tally { commits.new ≤ commits.old + ((shape_of self.old.chip).lines - at) }
        ensures went { Went (evicting (shape_of self.old.chip) (S.Suite.scheme self.old.suite) (view_of (B.Board.meaning self.old.board) self.old.chip) at) (B.Board.meaning self.old.board) (ended result) (B.Board.meaning self.new.board) (table_in self.new.chip.slots) commits.old commits.new }
        ensures fits { Fits self.new.chip.slots.layout.levels (B.Board.meaning self.new.board) }
        ensures rest { Rest self.old.suite self.old.chip self.new.suite self.new.chip }
        ensures out { LeftSlot (shape_of self.old.chip) at (table_in self.old.chip.slots) (ended result) (table_in self.new.chip.slots) }
    {
        let parent = self.chip.slots.layout().parent(at);
        self.evict_overdue(parent, commits)?;
        self.evict_now(at, commits)
    }

    // Evicts node `at` if it is overdue.
    #[cycle(eviction)]
    pub(crate) fn evict_overdue(&mut self, at: usize, commits: &mut u64) -> Result<(), TreeFault>
        requires fits { Fits self.old.chip.slots.layout.levels (B.Board.meaning self.old.board) }
        requires countable { commits.old + ((shape_of self.old.chip).lines - at) ≤ 18446744073709551615 }
        ensures tally { commits.new ≤ commits.old + ((shape_of self.old.chip).lines - at) }
        ensures went { Went (evict_overdue (shape_of self.old.chip) (S.Suite.scheme self.old.suite) (view_of (B.Board.meaning self.old.board) self.old.chip) at) (B.Board.meaning self.old.board) (ended result) (B.Board.meaning self.new.board) (table_in self.new.chip.slots) commits.old commits.new }
        ensures fits { Fits self.new.chip.slots.layout.levels (B.Board.meaning self.new.board) }
        ensures rest { Rest self.old.suite self.old.chip self.new.suite self.new.chip }
        ensures rested { ended result ≡ none → overdue (table_in self.new.chip.slots at) ≡ false }
        ensures below { SameBelow at (table_in self.old.chip.slots) (ended result) (table_in self.new.chip.slots) }
    {
        if self.chip.slots.overdue(at) {
            self.evict(at, commits)
        } else {
            Ok(())
        }
    }

    // Evicts the dirty node of lowest address until at most `keep` are dirty.
    pub(crate) fn evict_until(&mut self, keep: usize, commits: &mut u64) -> Result<(), TreeFault>
        requires { (Fits self.old.chip.slots.layout.levels (B.Board.meaning self.old.board)) × (commits.old ≤ 1099511627776) }
        ensures tally { commits.new ≤ commits.old + 21902400 }
        ensures freed { Freed (shape_of self.old.chip) keep (table_in self.old.chip.slots) (ended result) self.new.chip.slots.used (table_in self.new.chip.slots) }
        ensures went { Went (evict_until (shape_of self.old.chip) (S.Suite.scheme self.old.suite) keep (shape_of self.old.chip).lines (view_of (B.Board.meaning self.old.board) self.old.chip)) (B.Board.meaning self.old.board) (ended result) (B.Board.meaning self.new.board) (table_in self.new.chip.slots) commits.old commits.new }
        ensures fits { Fits self.new.chip.slots.layout.levels (B.Board.meaning self.new.board) }
        ensures rest { Rest self.old.suite self.old.chip self.new.suite self.new.chip }
    {
        while self.chip.slots.used() > keep {
            let Some(at) = self.chip.slots.lowest() else {
                unreachable!()
            };
            self.evict(at, commits)?;
        }
        Ok(())
    }
}
