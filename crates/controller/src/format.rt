ghost use Rattle.std.specs.Prelude.{◌≡◌, ◌≤◌, length, ◌≢◌};
ghost use Rattle.suite.specs.Scheme.{Scheme};
ghost use Rattle.machine.specs.Words.{row};
ghost use Rattle.machine.specs.Plans.{blank_lines, format_writes};
ghost use Rattle.machine.specs.History.{format as formatting};
ghost use Rattle.machine.specs.Layouts.{shape_in};
ghost use Rattle.controller.specs.Runs.{ended, Wrote};
ghost use Rattle.controller.specs.Registers.{new_words};
ghost use Rattle.controller.specs.Worlds.{Keeps, cold_in, report_by, Formats, RegisterMade};

use crate::cold::Cold;
use crate::commit::sealed_line;
use crate::faults::{answer, at_line};
use crate::types::{Fault, TreeFault};
use board::board::Board;
use machine::types::Register;
use suite::suite::Suite;
use tree::types::Layout;

// The register of a board just formatted: no journal, nothing dirty.
fn new_register(layout: Layout, number: u64) -> [u64; 32]
    ensures { result ≡ new_words layout.levels number }
{
    let register = Register {
        formatted: 1,
        levels: layout.levels() as u64,
        suite: number,
        roots: [0; 8],
        dirty_sum: 0,
        journal: None,
        dirty: [0; 10],
    };
    register.encode()
}

// Writes each line with zeros under counter 0, from 0 up.
// It and `write_format` take no view, since they write to the board.
fn write_blank_lines<B: Board, S: Suite>(
    board: &mut B,
    suite: &S,
    layout: Layout,
) -> Result<(), TreeFault>
    requires { (shape_in layout).lines ≤ length (B.Board.meaning board.old).lines }
    ensures wrote { Wrote (blank_lines (shape_in layout) (S.Suite.scheme suite.now) (shape_in layout).lines) (B.Board.meaning board.old) (ended result) (B.Board.meaning board.new) }
    ensures register { (B.Board.meaning board.new).register ≡ (B.Board.meaning board.old).register }
{
    for at in 0..layout.lines() {
        let line = sealed_line(suite, layout, at, &[0; 8], 0);
        at_line(board.write_line(at, line), at)?;
    }
    Ok(())
}

// Writes each line, then the register.
fn write_format<B: Board, S: Suite>(
    board: &mut B,
    suite: &S,
    layout: Layout,
) -> Result<(), TreeFault>
    requires { (shape_in layout).lines ≤ length (B.Board.meaning board.old).lines }
    ensures wrote { Wrote (format_writes (shape_in layout) (S.Suite.scheme suite.now) layout.levels) (B.Board.meaning board.old) (ended result) (B.Board.meaning board.new) }
    ensures register { RegisterMade layout.levels (S.Suite.scheme suite.now).number (B.Board.meaning board.old).register result (B.Board.meaning board.new).register }
{
    write_blank_lines(board, suite, layout)?;
    let register = new_register(layout, S::NUMBER);
    Ok(at_line(board.write_register(register), 0)?)
}

impl<B: Board> Cold<B> {
    // Formats the board at these levels under this suite: every line with zeros, then the register.
    // A board of another suite is formatted already, and its history goes on.
    pub fn format<S: Suite>(&mut self, suite: &S, levels: u64) -> Result<(), Fault>
        ensures law { Keeps (S.Suite.scheme suite.now) (cold_in (B.Board.meaning self.old.board)) (formatting levels) (report_by result 0) (cold_in (B.Board.meaning self.new.board)) }
        ensures others { (K : Scheme) → (row (B.Board.meaning self.old.board).register 0 ≢ 0) → Keeps K (cold_in (B.Board.meaning self.old.board)) (formatting levels) (report_by result 0) (cold_in (B.Board.meaning self.new.board)) }
        ensures does { Formats (S.Suite.scheme suite.now) levels (B.Board.meaning self.old.board) (report_by result 0) (B.Board.meaning self.new.board) }
        ensures register { RegisterMade levels (S.Suite.scheme suite.now).number (B.Board.meaning self.old.board).register result (B.Board.meaning self.new.board).register }
    {
        let layout = Layout::new(levels).ok_or(Fault::BadLevels)?;
        if layout.lines() > self.board.count() {
            return Err(Fault::TooFewLines);
        }
        let register = Register::decode(&self.board.read_register());
        if register.formatted != 0 {
            return Err(Fault::AlreadyFormatted);
        }
        answer(write_format(&mut self.board, suite, layout))
    }
}
