// What reaches a board between its calls: lines put in place past power, and power set anew.
ghost use Rattle.std.specs.Prelude.{◌≡◌};
ghost use Rattle.board.specs.Meaning.{lesser};
ghost use Rattle.board.specs.Tampering.{LinePut, Recharged};
ghost use Rattle.suite.specs.Scheme.{Scheme};
ghost use Rattle.machine.specs.Words.{line_in};
ghost use Rattle.machine.specs.History.{recharge as recharging, nothing};
ghost use Rattle.controller.specs.Worlds.{world_in, cold_in, Keeps};
ghost use Rattle.controller.specs.Outside.{Tampers};

use crate::cold::Cold;
use crate::open::Open;
use board::tamper::{Recharge, Tamper};
use board::types::Line;
use suite::suite::Suite;

// Puts a line in place past power; false where the board has no such line.
// It and `tamper` answer with a `bool`: there is one refusal alone, and nothing more to say of it.
fn put_line<B: Tamper>(board: &mut B, at: usize, line: Line) -> bool
    ensures { LinePut (B.Board.meaning board.old) at line result (B.Board.meaning board.new) }
{
    board.put(at, line)
}

impl<B: Tamper, S: Suite> Open<B, S> {
    // Puts a line in place from outside; false where the board has no such line. The chip knows nothing of it.
    pub fn tamper(&mut self, at: usize, line: Line) -> bool
        ensures law { (K : Scheme) → Tampers K (world_in (B.Board.meaning self.old.board) self.old.chip) at (line_in line) result (world_in (B.Board.meaning self.new.board) self.new.chip) }
        ensures put { LinePut (B.Board.meaning self.old.board) at line result (B.Board.meaning self.new.board) }
        ensures chip { self.new.chip ≡ self.old.chip }
        ensures suite { self.new.suite ≡ self.old.suite }
    {
        put_line(&mut self.board, at, line)
    }
}

impl<B: Tamper> Cold<B> {
    // Puts a line in place from outside; false where the board has no such line.
    pub fn tamper(&mut self, at: usize, line: Line) -> bool
        ensures law { (K : Scheme) → Tampers K (cold_in (B.Board.meaning self.old.board)) at (line_in line) result (cold_in (B.Board.meaning self.new.board)) }
        ensures put { LinePut (B.Board.meaning self.old.board) at line result (B.Board.meaning self.new.board) }
    {
        put_line(&mut self.board, at, line)
    }
}

impl<B: Recharge> Cold<B> {
    // Sets the power anew: to a number of writes, as far as the supply lasts, or to all of the supply.
    pub fn recharge(&mut self, left: Option<u64>)
        ensures law { (K : Scheme) → Keeps K (cold_in (B.Board.meaning self.old.board)) (recharging (lesser left (B.Recharge.supply self.old.board))) nothing (cold_in (B.Board.meaning self.new.board)) }
        ensures power { Recharged (B.Board.meaning self.old.board) (B.Recharge.supply self.old.board) left (B.Board.meaning self.new.board) }
        ensures supply { B.Recharge.supply self.new.board ≡ B.Recharge.supply self.old.board }
    {
        self.board.recharge(left)
    }
}
