ghost use Rattle.std.specs.Prelude.{◌≡◌};
ghost use Rattle.board.specs.Meaning.{Power};
ghost use Rattle.board.specs.Tampering.{LinePut, Recharged};

use crate::board::Board;
use crate::types::Line;

// A board whose lines can be reached from outside, past its power.
pub trait Tamper: Board {
    // Puts a line in place; false where there is no such address.
    // A bool as of `HashSet::insert`, and no `Result`: there is this one refusal, and no more to say of it.
    fn put(&mut self, at: usize, line: Line) -> bool
        ensures { LinePut (Self.Board.meaning self.old) at line result (Self.Board.meaning self.new) };
}

// A board whose power can be set anew.
pub trait Recharge: Board {
    // The power that the board could draw on if its own number were not there.
    ghost supply: { Self → Power };

    // Sets the number of writes still to come, as far as the supply lasts, or with `None` leaves only the supply's limit.
    fn recharge(&mut self, left: Option<u64>)
        ensures power { Recharged (Self.Board.meaning self.old) (supply self.old) left (Self.Board.meaning self.new) }
        ensures supply { supply self.new ≡ supply self.old };
}
