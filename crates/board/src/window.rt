ghost use Rattle.std.specs.Prelude.{◌≡◌, ◌+◌, ◌^◌, ◌<◌, ◌≤◌, length, MatchOption};
ghost use Rattle.board.specs.Calls.{LineWritten, RegisterWritten};
ghost use Rattle.board.specs.Tampering.{LinePut, Recharged};
ghost use Rattle.board.specs.Piles.{windowed, Shows, LineShown, PutShown};

use crate::board::Board;
use crate::tamper::{Recharge, Tamper};
use crate::types::{BoardFault, Line};

// A board that shows `len` lines of the one below, from `start` on, as far as they exist.
#[derive(Drop)]
pub struct Window<B> {
    below: B,
    // no `Range`: its end may lie past the last number, where `new` has no way to refuse
    start: usize,
    len: usize,
}

impl<B> Window<B> {
    pub fn new(below: B, start: usize, len: usize) -> Window<B>
        ensures { (result.below ≡ below) × (result.start ≡ start) × (result.len ≡ len) }
    {
        Window { below, start, len }
    }

    // The board below.
    pub fn below(&self) -> &B
        ensures { result.now ≡ self.now.below }
    {
        &self.below
    }

    // The board below, whole.
    pub fn into_inner(self) -> B
        ensures { result ≡ self.below }
    {
        let Window {
            below,
            start: _,
            len: _,
        } = self;
        below
    }
}

impl<B: Board> Window<B> {
    // How many lines the window shows.
    fn shown(&self) -> usize
        ensures count { result ≡ length (windowed (B.Board.meaning self.now.below) self.now.start self.now.len).lines }
        ensures fits { self.now.start + result < 2 ^ 64 }
    {
        self.below.count().saturating_sub(self.start).min(self.len)
    }

    // The address below of the line that the window shows at `at`.
    // An `if` and no `then`: this closure, which adds to a field, needs its clauses written out, and they are longer.
    fn place(&self, at: usize) -> Option<usize>
        ensures { MatchOption result (length (windowed (B.Board.meaning self.now.below) self.now.start self.now.len).lines ≤ at) (λ k. Shows (B.Board.meaning self.now.below).lines self.now.start self.now.len at k) }
    {
        if at >= self.shown() {
            return None;
        }
        Some(self.start + at)
    }
}

impl<B: Board> Board for Window<B> {
    ghost meaning = { λ s. windowed (B.Board.meaning s.below) s.start s.len };

    fn count(&self) -> usize {
        self.shown()
    }

    fn read_line(&self, at: usize) -> Result<Line, BoardFault> {
        let k = self.place(at).ok_or(BoardFault::Absent)?;
        self.below.read_line(k)
    }

    fn write_line(&mut self, at: usize, line: Line) -> Result<(), BoardFault>
        ensures meaning { LineWritten (windowed (B.Board.meaning self.old.below) self.old.start self.old.len) at line result (windowed (B.Board.meaning self.new.below) self.new.start self.new.len) }
        ensures below { LineShown (B.Board.meaning self.old.below) self.old.start at line result (B.Board.meaning self.new.below) }
        ensures frame { (self.new.start ≡ self.old.start) × (self.new.len ≡ self.old.len) }
    {
        let k = self.place(at).ok_or(BoardFault::Absent)?;
        self.below.write_line(k, line)
    }

    fn read_register(&self) -> [u64; 32] {
        self.below.read_register()
    }

    fn write_register(&mut self, words: [u64; 32]) -> Result<(), BoardFault>
        ensures meaning { RegisterWritten (windowed (B.Board.meaning self.old.below) self.old.start self.old.len) words result (windowed (B.Board.meaning self.new.below) self.new.start self.new.len) }
        ensures below { RegisterWritten (B.Board.meaning self.old.below) words result (B.Board.meaning self.new.below) }
        ensures frame { (self.new.start ≡ self.old.start) × (self.new.len ≡ self.old.len) }
    {
        self.below.write_register(words)
    }
}

impl<B: Tamper> Tamper for Window<B> {
    fn put(&mut self, at: usize, line: Line) -> bool
        ensures meaning { LinePut (windowed (B.Board.meaning self.old.below) self.old.start self.old.len) at line result (windowed (B.Board.meaning self.new.below) self.new.start self.new.len) }
        ensures below { PutShown (B.Board.meaning self.old.below) self.old.start at line result (B.Board.meaning self.new.below) }
        ensures frame { (self.new.start ≡ self.old.start) × (self.new.len ≡ self.old.len) }
    {
        let Some(k) = self.place(at) else {
            return false;
        };
        self.below.put(k, line)
    }
}

impl<B: Recharge> Recharge for Window<B> {
    ghost supply = { λ s. B.Recharge.supply s.below };

    fn recharge(&mut self, left: Option<u64>)
        ensures power { Recharged (windowed (B.Board.meaning self.old.below) self.old.start self.old.len) (B.Recharge.supply self.old.below) left (windowed (B.Board.meaning self.new.below) self.new.start self.new.len) }
        ensures supply { B.Recharge.supply self.new.below ≡ B.Recharge.supply self.old.below }
        ensures below { Recharged (B.Board.meaning self.old.below) (B.Recharge.supply self.old.below) left (B.Board.meaning self.new.below) }
        ensures frame { (self.new.start ≡ self.old.start) × (self.new.len ≡ self.old.len) }
    {
        self.below.recharge(left)
    }
}
