ghost use Rattle.std.specs.Prelude.{◌≡◌, true, Some as Just};
ghost use Rattle.machine.specs.Words.{register_in, state_in};
ghost use Rattle.machine.specs.Layout.{eight_ary};
ghost use Rattle.machine.specs.Encoding.{journal_meant, register_meant};
ghost use Rattle.machine.specs.History.{journal_in, bring_up_check, bring_up as bringing_up};
ghost use Rattle.controller.specs.Views.{Fits};
ghost use Rattle.controller.specs.Runs.{ended};
ghost use Rattle.controller.specs.Worlds.{world_in, cold_in, report_by, Keeps};
ghost use Rattle.controller.specs.BringUps.{Checked, WrittenBack, BringsUp, Brought, Settled, ChipLeft, KeepsOthers};

use crate::chip::Chip;
use crate::cold::Cold;
use crate::faults::at_line;
use crate::open::Open;
use crate::restore::recover;
use crate::types::{Fault, TreeFault};
use board::board::Board;
use machine::types::{Journal, Register};
use suite::suite::Suite;
use tree::dirty_map::dirty_nodes;
use tree::types::{Layout, Slots};

// The checks of bring-up before any write, in order: the layout, or why it is refused.
fn check<B: Board>(board: &B, register: &Register, slots: u64, number: u64) -> Result<Layout, Fault>
    requires { register_meant register.now ≡ register_in (B.Board.meaning board.now).register }
    ensures { Checked (bring_up_check eight_ary slots number (state_in (B.Board.meaning board.now))) slots (B.Board.meaning board.now) result }
{
    if !(1..=64).contains(&slots) {
        return Err(Fault::BadSlots);
    }
    if !register.is_valid() {
        return Err(Fault::InvalidRegister);
    }
    // A valid register has levels from 1 to 4. `is_valid` answers a question: a layout as its answer would be no plainer.
    let layout = Layout::new(register.levels).ok_or(Fault::InvalidRegister)?;
    if layout.lines() > board.count() {
        return Err(Fault::TooFewLines);
    }
    if number != register.suite {
        return Err(Fault::OtherSuite);
    }
    if u64::from(dirty_nodes(&register.dirty)) > slots {
        return Err(Fault::TooManyDirty);
    }
    Ok(layout)
}

// Writes the journal's line to its address, if there is a journal.
// It takes no view, since it writes to the board.
fn write_back<B: Board>(
    board: &mut B,
    layout: Layout,
    journal: &Option<Journal>,
) -> Result<(), TreeFault>
    requires { (Fits layout.levels (B.Board.meaning board.old)) × ((journal_meant journal.now ≡ (register_in (B.Board.meaning board.old).register).journal) × (journal_in (eight_ary layout.levels) (register_in (B.Board.meaning board.old).register).journal ≡ true)) }
    ensures { WrittenBack (B.Board.meaning board.old) (ended result) (B.Board.meaning board.new) }
{
    let Some(entry) = journal else {
        return Ok(());
    };
    let at = entry.at as usize;
    Ok(at_line(board.write_line(at, entry.line), at)?)
}

// Checks the board, writes the journal's line back and recovers the dirty nodes: the open chip, or why it is refused.
fn open_chip<B: Board, S: Suite>(board: &mut B, suite: &S, slots: u64) -> Result<Chip, Fault>
    ensures { Brought (S.Suite.scheme suite.now) slots (B.Board.meaning board.old) result (B.Board.meaning board.new) }
{
    let register = Register::decode(&board.read_register());
    let layout = check(board, &register, slots, S::NUMBER)?;
    write_back(board, layout, &register.journal)?;
    Ok(Chip {
        slots: recover(board, suite, layout, &register)?,
        capacity: slots as usize,
        latched: None,
    })
}

// The chip of a refused bring-up: it answers every call but shut-down with the fault.
fn latched_chip(fault: Fault) -> Chip
    ensures { result.latched ≡ Just fault }
{
    Chip {
        slots: Slots::new(Layout::one_level()),
        capacity: 1,
        latched: Some(fault),
    }
}

// The chip that a bring-up leaves, and its answer.
fn settled(opened: Result<Chip, Fault>) -> (Chip, Result<(), Fault>)
    ensures { Settled opened result.0 result.1 }
{
    match opened {
        Ok(chip) => (chip, Ok(())),
        Err(fault) => (latched_chip(fault), Err(fault)),
    }
}

impl<B: Board> Cold<B> {
    // Brings the board up with so many slots. A refused bring-up gives an open board that answers every call but shut-down with the fault.
    pub fn bring_up<S: Suite>(self, suite: S, slots: u64) -> (Open<B, S>, Result<(), Fault>)
        ensures law { Keeps (S.Suite.scheme suite) (cold_in (B.Board.meaning self.board)) (bringing_up slots (S.Suite.scheme suite).number) (report_by result.1 0) (world_in (B.Board.meaning result.0.board) result.0.chip) }
        ensures others { KeepsOthers (S.Suite.scheme suite) slots (B.Board.meaning self.board) (report_by result.1 0) (world_in (B.Board.meaning result.0.board) result.0.chip) }
        ensures does { BringsUp (S.Suite.scheme suite) slots (B.Board.meaning self.board) (report_by result.1 0) (B.Board.meaning result.0.board) (world_in (B.Board.meaning result.0.board) result.0.chip) }
        ensures chip { ChipLeft (B.Board.meaning self.board) result.1 result.0.chip }
        ensures suite { result.0.suite ≡ suite }
    {
        let Cold { mut board } = self;
        let (chip, answer) = settled(open_chip(&mut board, &suite, slots));
        (Open { board, suite, chip }, answer)
    }
}
