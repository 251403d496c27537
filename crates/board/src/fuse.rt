ghost use Rattle.std.specs.Prelude.{◌≡◌, true, Some};
ghost use Rattle.board.specs.Piles.{fused, lowered, LineFused, RegisterFused};
ghost use Rattle.board.specs.Calls.{LineWritten, RegisterWritten};
ghost use Rattle.board.specs.Tampering.{LinePut, Recharged};

use crate::board::Board;
use crate::tamper::{Recharge, Tamper};
use crate::types::{BoardFault, Line};

// A board with a number that each done write lowers by one, or none.
#[derive(Drop)]
pub struct Fuse<B> {
    below: B,
    left: Option<u64>,
}

// A fuse's number after one more write.
fn one_less(left: Option<u64>) -> Option<u64>
    ensures { result ≡ lowered left }
{
    left.map(|n| n.saturating_sub(1))
}

impl<B> Fuse<B> {
    pub fn new(below: B, left: Option<u64>) -> Fuse<B>
        ensures { (result.below ≡ below) × (result.left ≡ left) }
    {
        Fuse { below, left }
    }

    // Sets the fuse anew.
    pub fn set(&mut self, left: Option<u64>)
        ensures { (self.new.below ≡ self.old.below) × (self.new.left ≡ left) }
    {
        self.left = left;
    }

    // The board below.
    pub fn below(&self) -> &B
        ensures { result.now ≡ self.now.below }
    {
        &self.below
    }

    // The board below, without the fuse.
    pub fn into_inner(self) -> B
        ensures { result ≡ self.below }
    {
        let Fuse { below, left: _ } = self;
        below
    }
}

impl<B: Board> Board for Fuse<B> {
    ghost meaning = { λ s. fused (B.Board.meaning s.below) s.left };

    fn count(&self) -> usize {
        self.below.count()
    }

    fn read_line(&self, at: usize) -> Result<Line, BoardFault> {
        self.below.read_line(at)
    }

    fn write_line(&mut self, at: usize, line: Line) -> Result<(), BoardFault>
        ensures meaning { LineWritten (fused (B.Board.meaning self.old.below) self.old.left) at line result (fused (B.Board.meaning self.new.below) self.new.left) }
        ensures below { LineFused (B.Board.meaning self.old.below) self.old.left at line result (B.Board.meaning self.new.below) self.new.left }
    {
        if at >= self.below.count() {
            return Err(BoardFault::Absent);
        }
        if self.left == Some(0) {
            return Err(BoardFault::PowerLost);
        }
        self.below.write_line(at, line)?;
        self.left = one_less(self.left);
        Ok(())
    }

    fn read_register(&self) -> [u64; 32] {
        self.below.read_register()
    }

    fn write_register(&mut self, words: [u64; 32]) -> Result<(), BoardFault>
        ensures meaning { RegisterWritten (fused (B.Board.meaning self.old.below) self.old.left) words result (fused (B.Board.meaning self.new.below) self.new.left) }
        ensures below { RegisterFused (B.Board.meaning self.old.below) self.old.left words result (B.Board.meaning self.new.below) self.new.left }
    {
        if self.left == Some(0) {
            return Err(BoardFault::PowerLost);
        }
        self.below.write_register(words)?;
        self.left = one_less(self.left);
        Ok(())
    }
}

impl<B: Tamper> Tamper for Fuse<B> {
    fn put(&mut self, at: usize, line: Line) -> bool
        ensures meaning { LinePut (fused (B.Board.meaning self.old.below) self.old.left) at line result (fused (B.Board.meaning self.new.below) self.new.left) }
        ensures below { LinePut (B.Board.meaning self.old.below) at line result (B.Board.meaning self.new.below) × (self.new.left ≡ self.old.left) }
    {
        self.below.put(at, line)
    }
}

impl<B: Board> Recharge for Fuse<B> {
    ghost supply = { λ s. (B.Board.meaning s.below).power };

    fn recharge(&mut self, left: Option<u64>)
        ensures power { Recharged (fused (B.Board.meaning self.old.below) self.old.left) (B.Board.meaning self.old.below).power left (fused (B.Board.meaning self.new.below) self.new.left) }
        ensures supply { (B.Board.meaning self.new.below).power ≡ (B.Board.meaning self.old.below).power }
        ensures fuse { (self.new.below ≡ self.old.below) × (self.new.left ≡ left) }
    {
        self.set(left);
    }
}
