ghost use Rattle.std.specs.Prelude.{◌≡◌};
ghost use Rattle.suite.specs.Words.{row as words_in, line_in, Answers};
ghost use Rattle.seal.specs.Answered.{line_of, body_of, Answered};

use crate::types::{Answer, Item, Kind};
use board::types::Line;
use suite::nonce::Nonce;
use suite::sealing::{open_data, open_node, seal_data, seal_node};
use suite::suite::Suite;

// The line that the suite makes of words.
fn sealed<S: Suite>(suite: &S, kind: Kind, nonce: Nonce, body: &[u64; 8]) -> Line
    ensures { line_in result ≡ line_of (S.Suite.scheme suite.now) kind nonce (words_in body.now) }
{
    match kind {
        Kind::Data => seal_data(suite, nonce, body),
        Kind::Node => seal_node(suite, nonce, body),
    }
}

// The words that the suite gets back from a line, or none where its tag is not right.
fn opened<S: Suite>(suite: &S, kind: Kind, nonce: Nonce, line: &Line) -> Option<[u64; 8]>
    ensures { Answers (body_of (S.Suite.scheme suite.now) kind nonce (line_in line.now)) result }
{
    match kind {
        Kind::Data => open_data(suite, nonce, line),
        Kind::Node => open_node(suite, nonce, line),
    }
}

// The answer to an item.
pub fn answer<S: Suite>(suite: &S, item: &Item) -> Answer
    ensures { Answered (S.Suite.scheme suite.now) item.now result }
{
    match item {
        Item::Seal { kind, nonce, body } => Answer::Sealed(sealed(suite, *kind, *nonce, body)),
        Item::Open { kind, nonce, line } => {
            opened(suite, *kind, *nonce, line).map_or(Answer::Corrupt, Answer::Opened)
        }
    }
}
