// A script on any board that can be tampered with and recharged.
ghost use Rattle.std.specs.Prelude.{◌≡◌, ◌+◌, ◌^◌, ◌<◌, ◌++◌, None, string_bytes, OnOk};
ghost use Rattle.text.specs.Spelling.{lines_of};
ghost use Rattle.text.specs.Writing.{bad, Adds};
ghost use Rattle.machine.specs.History.{format as formatting, bring_up as bringing_up};
ghost use Rattle.controller.specs.Worlds.{cold_in, world_in, report_by, Formats, Keeps};
ghost use Rattle.controller.specs.BringUps.{BringsUp};
ghost use Rattle.bench.specs.Printed.{Played, Rows, Table, Run};

use crate::events::{copy_after, event_of};
use crate::rows::{Head, row_of};
use crate::types::Script;
use board::board::Board;
use board::tamper::{Recharge, Tamper};
use controller::cold::Cold;
use controller::event::{Event, Reply};
use controller::open::Open;
use controller::types::Fault;
use script::step::read_step;
use script::types::Header;
use std::fmt;
use suite::kind::SuiteKind;
use suite::suite::Suite;
use text::lines::{BadLine, Lines};

// Runs what a step asks of the board, if anything.
fn play<B: Tamper + Recharge, S: Suite + Copy>(
    opened: Open<B, S>,
    slots: u64,
    event: Option<Event>,
) -> (Open<B, S>, Reply)
    ensures plays { Played (S.Suite.scheme opened.suite) slots (B.Board.meaning opened.board) opened.chip event result.1 (B.Board.meaning result.0.board) result.0.chip }
    ensures suite { result.0.suite ≡ opened.suite }
{
    match event {
        Some(event) => opened.run(slots, &event),
        // The row of a step that asks nothing is that of `Put`: neither has anything to show.
        None => (opened, Reply::Put(false)),
    }
}

// Adds what is printed where the line of a step is unreadable: five lines stand before the steps.
fn print_bad_step(step: u64, out: &mut String) -> fmt::Result
    requires { step + 5 < 2 ^ 64 }
    ensures { OnOk result (string_bytes out.new ≡ string_bytes out.old ++ bad (step + 5)) }
{
    let bad = BadLine { number: step + 5 };
    writeln!(out, "{bad}")?;
    Ok(())
}

// Runs the steps of a text, and adds a row for each, up to the first unreadable line. `Open` cannot be dropped, so the
// open board is handed back on every way out, and an error returns by hand here and in `print_table`, without `?`.
fn play_steps<B: Tamper + Recharge, S: Suite + Copy>(
    opened: Open<B, S>,
    slots: u64,
    text: &[u8],
    out: &mut String,
) -> (Open<B, S>, fmt::Result)
    ensures { OnOk result.1 (Adds (Rows (S.Suite.scheme opened.suite) slots 1 (lines_of text.now) (B.Board.meaning opened.board) opened.chip None) (string_bytes out.old) (string_bytes out.new)) }
{
    let mut open = opened;
    let mut copy = None;
    for (number, line) in (1..).zip(Lines { text }) {
        let Some(step) = read_step(line) else {
            return (open, print_bad_step(number, out));
        };
        let kept = copy_after(open.board(), &step, copy);
        let (next, reply) = play(open, slots, event_of(&step, copy));
        open = next;
        copy = kept;
        let row = row_of(number, &reply, &open.board().read_register());
        if let Err(e) = writeln!(out, "{row}") {
            return (open, Err(e.into()));
        }
    }
    (open, Ok(()))
}

// Formats the board as the header says.
fn format<B: Board, S: Suite>(
    cold: &mut Cold<B>,
    suite: &S,
    header: &Header<SuiteKind>,
) -> Result<(), Fault>
    ensures does { Formats (S.Suite.scheme suite.now) header.now.levels (B.Board.meaning cold.old.board) (report_by result 0) (B.Board.meaning cold.new.board) }
    ensures law { Keeps (S.Suite.scheme suite.now) (cold_in (B.Board.meaning cold.old.board)) (formatting header.now.levels) (report_by result 0) (cold_in (B.Board.meaning cold.new.board)) }
{
    cold.format(suite, header.levels)
}

// Brings the board up as the header says.
fn bring_up<B: Board, S: Suite>(
    cold: Cold<B>,
    suite: S,
    header: &Header<SuiteKind>,
) -> (Open<B, S>, Result<(), Fault>)
    ensures does { BringsUp (S.Suite.scheme suite) header.now.slots (B.Board.meaning cold.board) (report_by result.1 0) (B.Board.meaning result.0.board) (world_in (B.Board.meaning result.0.board) result.0.chip) }
    ensures law { Keeps (S.Suite.scheme suite) (cold_in (B.Board.meaning cold.board)) (bringing_up header.now.slots (S.Suite.scheme suite).number) (report_by result.1 0) (world_in (B.Board.meaning result.0.board) result.0.chip) }
    ensures suite { result.0.suite ≡ suite }
{
    cold.bring_up(suite, header.slots)
}

// Adds the head of the table by what format answered, and the rows of the steps.
fn print_table<B: Tamper + Recharge, S: Suite + Copy>(
    opened: Open<B, S>,
    outcome: Result<(), Fault>,
    script: &Script,
    out: &mut String,
) -> (Open<B, S>, fmt::Result)
    ensures { OnOk result.1 (Adds (Table (S.Suite.scheme opened.suite) script.now.header (lines_of script.now.steps.now) outcome (B.Board.meaning opened.board) opened.chip) (string_bytes out.old) (string_bytes out.new)) }
{
    let head = Head::new(outcome, script.header.levels);
    if let Err(e) = write!(out, "{head}") {
        return (opened, Err(e.into()));
    }
    play_steps(opened, script.header.slots, script.steps, out)
}

// Formats the board, brings it up and runs the steps, and adds what is printed of all that.
pub(crate) fn play_script<B: Tamper + Recharge, S: Suite + Copy>(
    board: B,
    suite: S,
    script: &Script,
    out: &mut String,
) -> (B, fmt::Result)
    ensures { OnOk result.1 (Adds (Run (S.Suite.scheme suite) script.now.header (lines_of script.now.steps.now) (B.Board.meaning board)) (string_bytes out.old) (string_bytes out.new)) }
{
    let mut cold = Cold::new(board);
    let outcome = format(&mut cold, &suite, &script.header);
    let (open, _) = bring_up(cold, suite, &script.header);
    let (open, printed) = print_table(open, outcome, script, out);
    (open.shut_down().into_board(), printed)
}
