// The rounds of AES on four columns.
ghost use Rattle.std.specs.Prelude.{◌≡◌};
ghost use Rattle.aes.specs.Aes.{round, last_round};
ghost use Rattle.aes.specs.Columns.{unpack, mixed_word, sub_word, rows_of};

use crate::columns::Columns;
use crate::field::{spread, sub_byte};

// The column that four bytes become, through the S-box and mixed.
fn mixed_word(p: u8, q: u8, r: u8, s: u8) -> u32
    ensures { result ≡ mixed_word p q r s }
{
    (spread(p) ^ spread(q).rotate_right(8))
        ^ (spread(r).rotate_right(16) ^ spread(s).rotate_right(24))
}

// The column that four bytes become, through the S-box alone.
#[tactic(auto, unfolding(crate::specs::Columns::sub_word))]
pub(crate) fn sub_word(p: u8, q: u8, r: u8, s: u8) -> u32
    ensures { result ≡ sub_word p q r s }
{
    u32::from_be_bytes([sub_byte(p), sub_byte(q), sub_byte(r), sub_byte(s)])
}

// A function of four bytes at row 0 of a, row 1 of b, row 2 of c and row 3 of d.
fn rows_of<F: Fn(u8, u8, u8, u8) -> u32>(f: &F, a: u32, b: u32, c: u32, d: u32) -> u32
    requires { F.IsAlwaysCallable f.now }
    ensures { rows_of (F.post f.now) a b c d result }
{
    f(
        a.to_be_bytes()[0],
        b.to_be_bytes()[1],
        c.to_be_bytes()[2],
        d.to_be_bytes()[3],
    )
}

impl Columns {
    // ShiftRows puts row r of a column into the column r places to the left: each new column is a function of rows from four columns.
    fn shifted_by<F: Fn(u8, u8, u8, u8) -> u32>(self, f: F) -> Columns
        requires { F.IsAlwaysCallable f }
        ensures c0 { rows_of (F.post f) self.c0 self.c1 self.c2 self.c3 result.c0 }
        ensures c1 { rows_of (F.post f) self.c1 self.c2 self.c3 self.c0 result.c1 }
        ensures c2 { rows_of (F.post f) self.c2 self.c3 self.c0 self.c1 result.c2 }
        ensures c3 { rows_of (F.post f) self.c3 self.c0 self.c1 self.c2 result.c3 }
    {
        Columns {
            c0: rows_of(&f, self.c0, self.c1, self.c2, self.c3),
            c1: rows_of(&f, self.c1, self.c2, self.c3, self.c0),
            c2: rows_of(&f, self.c2, self.c3, self.c0, self.c1),
            c3: rows_of(&f, self.c3, self.c0, self.c1, self.c2),
        }
    }

    // Two functions, one for each kind of round of the standard: a contract of one over the word's function would be no plainer.
    pub(crate) fn round(self, k: Columns) -> Columns
        ensures { unpack result ≡ round (unpack self) (unpack k) }
    {
        self.shifted_by(mixed_word) ^ k
    }

    pub(crate) fn last_round(self, k: Columns) -> Columns
        ensures { unpack result ≡ last_round (unpack self) (unpack k) }
    {
        self.shifted_by(sub_word) ^ k
    }
}
