// The lines of a text, one after another, and the error for a line that cannot be read.
ghost use Rattle.std.specs.Prelude.{◌++◌, Some, codes, decimal};
ghost use Rattle.std.specs.Iterator.{YieldsFirstRef, item_count};
ghost use Rattle.text.specs.Spelling.{lines_of};

use crate::next_line;
use std::error::Error;
use std::fmt;

// The lines of a text that are still to come.
#[derive(Clone, Copy)]
pub struct Lines<'a> {
    pub text: &'a [u8],
}

impl<'a> Iterator for Lines<'a> {
    type Item = &'a [u8];

    ghost next_gives = { YieldsFirstRef (λ s. lines_of s.text.now) };

    ghost remaining = { item_count (λ s. lines_of s.text.now) };

    fn next(&mut self) -> Option<&'a [u8]> {
        let (line, behind) = next_line(self.text)?;
        self.text = behind;
        Some(line)
    }
}

// The number of a line that is missing or unreadable.
#[derive(Clone, Copy, PartialEq, Eq, Debug)]
pub struct BadLine {
    pub number: u64,
}

impl fmt::Display for BadLine {
    ghost output = { λ b. Some (codes "bad=" ++ decimal b.number) };

    fn fmt<W: fmt::Write>(&self, f: &mut fmt::Formatter<W>) -> fmt::Result {
        let number = self.number;
        write!(f, "bad={number}")
    }
}

impl Error for BadLine {}
