ghost use Rattle.std.specs.Prelude.{◌≡◌};
ghost use Rattle.suite.specs.Scheme.{Scheme};
ghost use Rattle.machine.specs.Words.{row};
ghost use Rattle.machine.specs.History.{read as reading, write as writing, flush as flushing, shut_down, nothing};
ghost use Rattle.controller.specs.Views.{Fits};
ghost use Rattle.controller.specs.Worlds.{world_in, cold_in, body_answer, read_in, report_by, report_in, Keeps, KeepsLatched, Cleared, LayoutFound, Ready, Does, write_plan, flush_plan, read_of};

use crate::chip::Chip;
use crate::cold::Cold;
use crate::faults::answer;
use crate::latch::{fit_slots, latch};
use crate::types::{Fault, Report};
use crate::view::View;
use board::board::Board;
use machine::types::Register;
use suite::suite::Suite;
use tree::types::Layout;

// A board that was brought up, with the chip beside it.
// No ghost field says that the board has the lines of the chip's layout: a refused bring-up leaves one that may not, so each step asks for it.
// An open board is not dropped: it is given up by `shut_down`.
pub struct Open<B: Board, S: Suite> {
    pub(crate) board: B,
    pub(crate) suite: S,
    pub(crate) chip: Chip,
}

impl<B: Board, S: Suite> Open<B, S> {
    // The board, to look at.
    pub fn board(&self) -> &B
        ensures { result.now ≡ self.now.board }
    {
        &self.board
    }

    // The board's layout, if it has the lines and the slots in use are of this layout.
    fn layout(&self) -> Result<Layout, Fault>
        ensures { LayoutFound (B.Board.meaning self.now.board) self.now.chip.slots.layout.levels self.now.chip.slots.used result }
    {
        let register = Register::decode(&self.board.read_register());
        let layout = Layout::new(register.levels).ok_or(Fault::InvalidRegister)?;
        if layout.lines() > self.board.count() {
            return Err(Fault::TooFewLines);
        }
        let slots = &self.chip.slots;
        if slots.used() > 0 && slots.layout().levels() != layout.levels() {
            return Err(Fault::InvalidRegister);
        }
        Ok(layout)
    }

    // The board's layout, unless a fault is latched or the board does not pass the checks.
    fn ready(&self) -> Result<Layout, Fault>
        ensures { Ready (B.Board.meaning self.now.board) self.now.chip result }
    {
        match self.chip.latched {
            Some(f) => Err(f),
            None => self.layout(),
        }
    }

    // What the checks of lines and counters work on, under this layout.
    pub(crate) fn view(&self, layout: Layout) -> View<'_, B, S>
        requires { Fits layout.levels (B.Board.meaning self.now.board) }
        ensures board { result.board.now ≡ self.now.board }
        ensures suite { result.suite.now ≡ self.now.suite }
        ensures slots { result.slots.now ≡ self.now.chip.slots }
        ensures layout { result.layout ≡ layout }
    {
        View {
            board: &self.board,
            suite: &self.suite,
            slots: &self.chip.slots,
            layout,
        }
    }

    // The body of data line `at`.
    fn body_of(&self, at: usize) -> Result<[u64; 8], Fault>
        ensures { body_answer result ≡ read_of (S.Suite.scheme self.now.suite) (B.Board.meaning self.now.board) self.now.chip at }
    {
        let layout = self.ready()?;
        if at >= layout.data_lines() {
            return Err(Fault::NotData(at));
        }
        let view = self.view(layout);
        Ok(view.data_body(at)?)
    }

    // Reads the body of data line `at` into `body`, which a refusal leaves as zeros.
    // The body goes into the caller's words, and not into the result, since what a refusal leaves in them is promised too.
    pub fn read(&self, at: usize, body: &mut [u64; 8]) -> Result<(), Fault>
        ensures law { Keeps (S.Suite.scheme self.now.suite) (world_in (B.Board.meaning self.now.board) self.now.chip) (reading at) (read_in result body.new) (world_in (B.Board.meaning self.now.board) self.now.chip) }
        ensures others { KeepsLatched self.now.chip.latched (world_in (B.Board.meaning self.now.board) self.now.chip) (reading at) (read_in result body.new) (world_in (B.Board.meaning self.now.board) self.now.chip) }
        ensures does { read_in result body.new ≡ read_of (S.Suite.scheme self.now.suite) (B.Board.meaning self.now.board) self.now.chip at }
        ensures zeros { Cleared result body.new }
    {
        *body = [0; 8];
        *body = self.body_of(at)?;
        Ok(())
    }

    // Writes data line `at`, counting the commits made.
    fn write_counted(&mut self, at: usize, body: &[u64; 8], commits: &mut u64) -> Result<(), Fault>
        requires { commits.old ≡ 0 }
        ensures does { Does (write_plan (S.Suite.scheme self.old.suite) (B.Board.meaning self.old.board) self.old.chip at (row body.now)) (B.Board.meaning self.old.board) self.old.chip (report_by result commits.new) (B.Board.meaning self.new.board) self.new.chip }
        ensures suite { self.new.suite ≡ self.old.suite }
    {
        let layout = self.ready()?;
        if at >= layout.data_lines() {
            return Err(Fault::NotData(at));
        }
        fit_slots(&mut self.chip.slots, layout);
        let r = self.write_data(at, body, commits);
        self.chip.latched = latch(&r);
        answer(r)
    }

    // Writes `body` to data line `at`: reports the commits made, refused or not.
    pub fn write(&mut self, at: usize, body: &[u64; 8]) -> Report
        ensures law { Keeps (S.Suite.scheme self.old.suite) (world_in (B.Board.meaning self.old.board) self.old.chip) (writing at (row body.now)) (report_in result) (world_in (B.Board.meaning self.new.board) self.new.chip) }
        ensures others { KeepsLatched self.old.chip.latched (world_in (B.Board.meaning self.old.board) self.old.chip) (writing at (row body.now)) (report_in result) (world_in (B.Board.meaning self.new.board) self.new.chip) }
        ensures does { Does (write_plan (S.Suite.scheme self.old.suite) (B.Board.meaning self.old.board) self.old.chip at (row body.now)) (B.Board.meaning self.old.board) self.old.chip (report_in result) (B.Board.meaning self.new.board) self.new.chip }
        ensures suite { self.new.suite ≡ self.old.suite }
    {
        let mut commits = 0;
        let outcome = self.write_counted(at, body, &mut commits);
        Report { commits, outcome }
    }

    // Evicts every dirty node, counting the commits made.
    // The write has other steps, and refuses an address that is no data line. One function over a closure would be no plainer: its contract would have to name the steps' plan and promise.
    fn flush_counted(&mut self, commits: &mut u64) -> Result<(), Fault>
        requires { commits.old ≡ 0 }
        ensures does { Does (flush_plan (S.Suite.scheme self.old.suite) (B.Board.meaning self.old.board) self.old.chip) (B.Board.meaning self.old.board) self.old.chip (report_by result commits.new) (B.Board.meaning self.new.board) self.new.chip }
        ensures suite { self.new.suite ≡ self.old.suite }
    {
        let layout = self.ready()?;
        fit_slots(&mut self.chip.slots, layout);
        let r = self.evict_until(0, commits);
        self.chip.latched = latch(&r);
        answer(r)
    }

    // Evicts every dirty node: reports the commits made, refused or not.
    pub fn flush(&mut self) -> Report
        ensures law { Keeps (S.Suite.scheme self.old.suite) (world_in (B.Board.meaning self.old.board) self.old.chip) flushing (report_in result) (world_in (B.Board.meaning self.new.board) self.new.chip) }
        ensures others { KeepsLatched self.old.chip.latched (world_in (B.Board.meaning self.old.board) self.old.chip) flushing (report_in result) (world_in (B.Board.meaning self.new.board) self.new.chip) }
        ensures does { Does (flush_plan (S.Suite.scheme self.old.suite) (B.Board.meaning self.old.board) self.old.chip) (B.Board.meaning self.old.board) self.old.chip (report_in result) (B.Board.meaning self.new.board) self.new.chip }
        ensures suite { self.new.suite ≡ self.old.suite }
    {
        let mut commits = 0;
        let outcome = self.flush_counted(&mut commits);
        Report { commits, outcome }
    }
}

impl<B: Board, S: Suite + Drop> Open<B, S> {
    // Takes the board down, as a loss of power would.
    pub fn shut_down(self) -> Cold<B>
        ensures board { result.board ≡ self.board }
        ensures law { (K : Scheme) → Keeps K (world_in (B.Board.meaning self.board) self.chip) shut_down nothing (cold_in (B.Board.meaning result.board)) }
    {
        let Open {
            board,
            suite: _suite,
            chip: _chip,
        } = self;
        Cold::new(board)
    }
}
