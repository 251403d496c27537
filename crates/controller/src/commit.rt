ghost use Rattle.std.specs.Prelude.{◌≡◌, ◌+◌, ◌<◌, ◌≤◌};
ghost use Rattle.machine.specs.Layout.{counter_limit};
ghost use Rattle.machine.specs.Store.{line_at};
ghost use Rattle.machine.specs.Words.{row, line_in, memory_in, register_in};
ghost use Rattle.machine.specs.Plans.{counter_of, commit_under, commit as committing};
ghost use Rattle.machine.specs.Layouts.{shape_in};
ghost use Rattle.tree.specs.SlotTable.{table_in};
ghost use Rattle.controller.specs.Views.{shape_of, view_of, view_in, outcome_in, Fits};
ghost use Rattle.controller.specs.Runs.{ended, Went};
ghost use Rattle.controller.specs.Registers.{raised_slots, next_counter, RoomAt, SmallAt, RegisterRaised, Rest};

use crate::counters::nonce;
use crate::faults::{at_line, line_of};
use crate::open::Open;
use crate::types::{LineFault, TreeFault};
use board::board::Board;
use board::types::Line;
use machine::register::{put_commit, put_root};
use machine::types::Journal;
use suite::sealing::{seal_data, seal_node};
use suite::suite::Suite;
use tree::counters::LIMIT;
use tree::types::{Layout, Slots};

// The line that commits a body at an address under a counter.
pub(crate) fn sealed_line<S: Suite>(
    suite: &S,
    layout: Layout,
    at: usize,
    words: &[u64; 8],
    counter: u64,
) -> Line
    ensures { line_in result ≡ line_at (shape_in layout) (S.Suite.scheme suite.now) at counter (row words.now) }
{
    let nonce = nonce(at, counter);
    if at < layout.data_lines() {
        return seal_data(suite, nonce, words);
    }
    seal_node(suite, nonce, words)
}

// Raises the counter of line `at`: in its parent's slot, or in the register's words.
// It takes the board and the slots apart, since the board stays as it is.
fn raise_at<B: Board>(
    board: &B,
    slots: &mut Slots,
    at: usize,
    counter: u64,
    register: &mut [u64; 32],
) -> Result<(), LineFault>
    requires place { (Fits slots.old.layout.levels (B.Board.meaning board.now)) × ((at < (shape_in slots.old.layout).lines) × (counter ≤ counter_limit)) }
    requires room { (RoomAt (shape_in slots.old.layout) at slots.old.used (table_in slots.old)) × (SmallAt (shape_in slots.old.layout) at (view_in (B.Board.meaning board.now) (table_in slots.old))) }
    ensures table { table_in slots.new ≡ raised_slots (shape_in slots.old.layout) (memory_in (B.Board.meaning board.now).lines) (table_in slots.old) at counter }
    ensures register { RegisterRaised (shape_in slots.old.layout) at counter (register_in register.old) result register.new }
    ensures layout { slots.new.layout ≡ slots.old.layout }
{
    let layout = slots.layout();
    let parent = layout.parent(at);
    if parent >= layout.lines() {
        put_root(register, layout.index(at), counter);
        return Ok(());
    }
    let fresh = line_of(board, parent)?.body;
    let _ = slots.raise(parent, layout.index(at), counter, &fresh);
    Ok(())
}

impl<B: Board, S: Suite> Open<B, S> {
    // The counter under which line `at` is committed next.
    pub(crate) fn next_counter(&self, at: usize) -> Result<u64, TreeFault>
        requires { (Fits self.now.chip.slots.layout.levels (B.Board.meaning self.now.board)) × (at < (shape_of self.now.chip).lines) }
        ensures { outcome_in result ≡ next_counter at (counter_of (shape_of self.now.chip) (S.Suite.scheme self.now.suite) (view_of (B.Board.meaning self.now.board) self.now.chip) at) }
    {
        let counter = self.view(self.chip.slots.layout()).counter_of(at)?;
        if counter >= LIMIT {
            return Err(TreeFault::AtLimit(at));
        }
        Ok(counter + 1)
    }

    // Commits `words` at line `at` under `counter`: the register, then the line. The slots are those but for the line's own.
    // The commits are counted in the caller's word: a refused call reports them too, and a count in the result would be no plainer, since `?` would lose it.
    pub(crate) fn commit_under(
        &mut self,
        at: usize,
        words: &[u64; 8],
        counter: u64,
        commits: &mut u64,
    ) -> Result<(), TreeFault>
        requires place { (Fits self.old.chip.slots.layout.levels (B.Board.meaning self.old.board)) × ((at < (shape_of self.old.chip).lines) × (counter ≤ counter_limit)) }
        requires room { (RoomAt (shape_of self.old.chip) at self.old.chip.slots.used (table_in self.old.chip.slots)) × (SmallAt (shape_of self.old.chip) at (view_of (B.Board.meaning self.old.board) self.old.chip)) }
        requires countable { commits.old < 18446744073709551615 }
        ensures tally { commits.new ≤ commits.old + 1 }
        ensures went { Went (commit_under (shape_of self.old.chip) (S.Suite.scheme self.old.suite) (memory_in (B.Board.meaning self.old.board).lines) (register_in (B.Board.meaning self.old.board).register) (table_in self.old.chip.slots) at (row words.now) counter) (B.Board.meaning self.old.board) (ended result) (B.Board.meaning self.new.board) (table_in self.new.chip.slots) commits.old commits.new }
        ensures fits { Fits self.new.chip.slots.layout.levels (B.Board.meaning self.new.board) }
        ensures rest { Rest self.old.suite self.old.chip self.new.suite self.new.chip }
    {
        let line = sealed_line(&self.suite, self.chip.slots.layout(), at, words, counter);
        let mut register = self.board.read_register();
        raise_at(
            &self.board,
            &mut self.chip.slots,
            at,
            counter,
            &mut register,
        )?;
        let entry = Journal {
            at: at as u64,
            line,
        };
        let slots = &self.chip.slots;
        put_commit(&mut register, slots.sum(), &entry, &slots.dirty_map());
        at_line(self.board.write_register(register), at)?;
        *commits += 1;
        Ok(at_line(self.board.write_line(at, entry.line), at)?)
    }

    // Commits a body at line `at` under its next counter.
    pub(crate) fn commit(
        &mut self,
        at: usize,
        words: &[u64; 8],
        commits: &mut u64,
    ) -> Result<(), TreeFault>
        requires place { (Fits self.old.chip.slots.layout.levels (B.Board.meaning self.old.board)) × (at < (shape_of self.old.chip).lines) }
        requires room { (RoomAt (shape_of self.old.chip) at self.old.chip.slots.used (table_in self.old.chip.slots)) × (commits.old < 18446744073709551615) }
        ensures went { Went (committing (shape_of self.old.chip) (S.Suite.scheme self.old.suite) (view_of (B.Board.meaning self.old.board) self.old.chip) (table_in self.old.chip.slots) at (row words.now)) (B.Board.meaning self.old.board) (ended result) (B.Board.meaning self.new.board) (table_in self.new.chip.slots) commits.old commits.new }
        ensures fits { Fits self.new.chip.slots.layout.levels (B.Board.meaning self.new.board) }
        ensures rest { Rest self.old.suite self.old.chip self.new.suite self.new.chip }
    {
        let counter = self.next_counter(at)?;
        self.commit_under(at, words, counter, commits)
    }
}
