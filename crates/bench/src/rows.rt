// What is printed of a script.
ghost use Rattle.std.specs.Prelude.{◌≡◌, Some};
ghost use Rattle.bench.specs.Rows.{row_of, result_of, lines_needed, made_text};

use controller::event::Reply;
use controller::types::Fault;
use machine::types::Register;
use script::types::Row;
use std::fmt;
use tree::dirty_map::dirty_nodes;
use tree::types::Layout;

// The row of a step: its reply, and the dirty nodes and the dirty sum that the register then has.
pub(crate) fn row_of(step: u64, reply: &Reply, register: &[u64; 32]) -> Row
    ensures { result ≡ row_of step reply.now register.now }
{
    let register = Register::decode(register);
    let silent = Row {
        step,
        result: 0,
        layer: 0,
        at: 0,
        value: 0,
        commits: 0,
        ahead: u64::from(dirty_nodes(&register.dirty)),
        total: register.dirty_sum,
    };
    match reply {
        Reply::Body(body) => Row {
            value: body[0],
            ..silent
        },
        Reply::Done(commits) => Row {
            commits: *commits,
            ..silent
        },
        Reply::Refused(fault, commits) => Row {
            result: fault.cause(),
            layer: fault.layer(),
            at: fault.place(),
            commits: *commits,
            ..silent
        },
        Reply::Put(_) => silent,
    }
}

// The number of a fault, or 0.
fn result_of(outcome: Result<(), Fault>) -> u64
    ensures { result ≡ result_of outcome }
{
    outcome.err().map_or(0, |fault| fault.cause())
}

// How many lines so many levels need, or 0 where there is no such board.
fn lines_needed(levels: u64) -> u64
    ensures { result ≡ lines_needed levels }
{
    Layout::new(levels).map_or(0, |layout| layout.lines() as u64)
}

// What is printed above the rows: the result of format, the number of lines, and the names of the columns.
#[derive(Clone, Copy)]
pub(crate) struct Head {
    made: u64,
    lines: u64,
}

impl Head {
    pub(crate) fn new(outcome: Result<(), Fault>, levels: u64) -> Head
        ensures made { result.made ≡ result_of outcome }
        ensures lines { result.lines ≡ lines_needed levels }
    {
        Head {
            made: result_of(outcome),
            lines: lines_needed(levels),
        }
    }
}

impl fmt::Display for Head {
    ghost output = { λ h. Some (made_text h.made h.lines) };

    fn fmt<W: fmt::Write>(&self, f: &mut fmt::Formatter<W>) -> fmt::Result {
        let Head { made, lines } = *self;
        write!(
            f,
            "made={made} lines={lines}\nstep result layer at value commits ahead total\n"
        )
    }
}
