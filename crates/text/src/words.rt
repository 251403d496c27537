ghost use Rattle.std.specs.Prelude.{◌∷◌, Some, decimal};
ghost use Rattle.text.specs.Writing.{row};

use std::fmt;

// Words that are printed in decimal, one space between them.
#[derive(Clone, Copy)]
pub struct Words<'a> {
    pub words: &'a [u64],
}

impl fmt::Display for Words<'_> {
    ghost output = { λ w. Some (row w.words.now) };

    fn fmt<W: fmt::Write>(&self, f: &mut fmt::Formatter<W>) -> fmt::Result {
        let [first, rest @ ..] = self.words else {
            return Ok(());
        };
        write!(f, "{first}")?;
        for word in rest {
            write!(f, " {word}")?;
        }
        Ok(())
    }
}
