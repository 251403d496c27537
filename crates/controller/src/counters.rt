ghost use Rattle.std.specs.Prelude.{◌≡◌, ◌<◌};
ghost use Rattle.machine.specs.Plans.{counter_of, read_call};
ghost use Rattle.machine.specs.Words.{line_in};
ghost use Rattle.machine.specs.Layouts.{shape_in};
ghost use Rattle.tree.specs.SlotTable.{table_in};
ghost use Rattle.controller.specs.Views.{view_in, outcome_in, body_in, node_line_valid, NodeLine};

use crate::faults::line_of;
use crate::types::TreeFault;
use crate::view::View;
use board::board::Board;
use board::types::Line;
use machine::types::Register;
use suite::nonce::Nonce;
use suite::sealing::{is_right, open_data};
use suite::suite::Suite;
use tree::counters::within_limit;

// The nonce of an address and a counter. The two go apart up to here, where the address is a place among the lines too.
pub(crate) fn nonce(at: usize, counter: u64) -> Nonce
    ensures { result ≡ record { at = at; counter = counter } }
{
    Nonce {
        at: at as u64,
        counter,
    }
}

// Whether a node's line has the right tag, and counters within the limit.
pub(crate) fn node_valid<S: Suite>(suite: &S, nonce: Nonce, line: &Line) -> bool
    ensures { result ≡ node_line_valid (S.Suite.scheme suite.now) nonce.at nonce.counter (line_in line.now) }
{
    is_right(suite, nonce, line) && within_limit(&line.body)
}

impl<B: Board, S: Suite> View<'_, B, S> {
    // The line of node `at`, which must be valid under this counter.
    pub(crate) fn node_line(&self, at: usize, counter: u64) -> Result<Line, TreeFault>
        requires { at < (shape_in self.now.layout).lines }
        ensures { NodeLine (S.Suite.scheme self.now.suite.now) at counter (B.Board.meaning self.now.board.now).lines result }
    {
        let line = line_of(self.board, at)?;
        let nonce = nonce(at, counter);
        if !node_valid(self.suite, nonce, &line) {
            return Err(TreeFault::Corrupt(at));
        }
        Ok(line)
    }

    // The current counter of line `at`: in the root, in a slot, or in the parent's line once the way down to it is checked.
    pub(crate) fn counter_of(&self, at: usize) -> Result<u64, TreeFault>
        requires { at < (shape_in self.now.layout).lines }
        ensures { outcome_in result ≡ counter_of (shape_in self.now.layout) (S.Suite.scheme self.now.suite.now) (view_in (B.Board.meaning self.now.board.now) (table_in self.now.slots.now)) at }
    {
        let parent = self.layout.parent(at);
        let index = self.layout.index(at);
        if parent >= self.layout.lines() {
            return Ok(Register::decode(&self.board.read_register()).roots[index]);
        }
        if let Some(counter) = self.slots.counter(parent, index) {
            return Ok(counter);
        }
        let counter = self.counter_of(parent)?;
        let line = self.node_line(parent, counter)?;
        Ok(line.body[index])
    }

    // The body of data line `at`, its way down and its own line checked.
    pub(crate) fn data_body(&self, at: usize) -> Result<[u64; 8], TreeFault>
        requires { at < (shape_in self.now.layout).data_lines }
        ensures { body_in result ≡ read_call (shape_in self.now.layout) (S.Suite.scheme self.now.suite.now) (view_in (B.Board.meaning self.now.board.now) (table_in self.now.slots.now)) at }
    {
        let counter = self.counter_of(at)?;
        let line = line_of(self.board, at)?;
        let nonce = nonce(at, counter);
        open_data(self.suite, nonce, &line).ok_or(TreeFault::Corrupt(at))
    }
}
