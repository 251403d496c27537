ghost use Rattle.std.specs.Prelude.{Some};
ghost use Rattle.script.specs.Script.{row_text};

use crate::types::Row;
use std::fmt;
use text::words::Words;

impl fmt::Display for Row {
    ghost output = { λ r. Some (row_text r) };

    fn fmt<W: fmt::Write>(&self, f: &mut fmt::Formatter<W>) -> fmt::Result {
        let columns = [
            self.step,
            self.result,
            self.layer,
            self.at,
            self.value,
            self.commits,
            self.ahead,
            self.total,
        ];
        let words = Words { words: &columns };
        write!(f, "{words}")
    }
}
