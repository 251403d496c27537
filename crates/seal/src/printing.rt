ghost use Rattle.std.specs.Prelude.{Some};
ghost use Rattle.seal.specs.Answered.{answer_text};

use crate::types::Answer;
use std::fmt;
use text::words::Words;

impl fmt::Display for Answer {
    ghost output = { λ a. Some (answer_text a) };

    fn fmt<W: fmt::Write>(&self, f: &mut fmt::Formatter<W>) -> fmt::Result {
        match self {
            Answer::Sealed(line) => {
                let body = Words { words: &line.body };
                let tag = line.tag;
                write!(f, "{body} {tag}")
            }
            Answer::Opened(body) => {
                let body = Words { words: body };
                write!(f, "{body}")
            }
            Answer::Corrupt => write!(f, "corrupt"),
        }
    }
}
