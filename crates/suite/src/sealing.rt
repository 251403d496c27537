ghost use Rattle.std.specs.Prelude.{◌≡◌, ◌+◌, ◌*◌, ◌%◌, ◌^◌, ◌<◌, cond};
ghost use Rattle.std.proofs.Math.Option.{some, none};
ghost use Rattle.suite.specs.Scheme.{tag_of, right, mix, sealed, data_line, node_line};
ghost use Rattle.suite.specs.Words.{row, line_in, open_data, open_node, Answers};

use crate::nonce::Nonce;
use crate::suite::Suite;
use board::types::Line;
use std::array;

// A mac, then the ten low bits of a counter.
fn tag_word(mac: u64, counter: u64) -> u64
    requires { mac < 2 ^ 54 }
    ensures { result ≡ mac * 1024 + counter % 1024 }
{
    mac * 1024 + counter % 1024
}

// The tag of words at an address under a counter: the mac, then the ten low bits of the counter.
#[tactic(auto, unfolding(crate::specs::Scheme::tag_of))]
pub fn tag<S: Suite>(suite: &S, nonce: Nonce, words: &[u64; 8]) -> u64
    ensures { result ≡ tag_of (S.Suite.scheme suite.now) nonce.at (row words.now) nonce.counter }
{
    tag_word(suite.mac(nonce, words), nonce.counter)
}

// Whether the whole tag of a line is right at an address under a counter.
#[tactic(auto, unfolding(crate::specs::Scheme::right))]
pub fn is_right<S: Suite>(suite: &S, nonce: Nonce, line: &Line) -> bool
    ensures { result ≡ right (S.Suite.scheme suite.now) nonce.at nonce.counter (line_in line.now) }
{
    line.tag == tag(suite, nonce, &line.body)
}

// A body combined with a pad by exclusive or.
fn mixed(words: &[u64; 8], pad: &[u64; 8]) -> [u64; 8]
    ensures { row result ≡ mix (row words.now) (row pad.now) }
{
    array::from_fn(|i| words[i] ^ pad[i])
}

// Words combined with the pad of a nonce.
fn padded<S: Suite>(suite: &S, nonce: Nonce, words: &[u64; 8]) -> [u64; 8]
    ensures { row result ≡ mix (row words.now) ((S.Suite.scheme suite.now).pad nonce.at nonce.counter) }
{
    mixed(words, &suite.pad(nonce))
}

// The line that stores these words.
fn sealed_line<S: Suite>(suite: &S, nonce: Nonce, words: &[u64; 8]) -> Line
    ensures { line_in result ≡ sealed (S.Suite.scheme suite.now) nonce.at nonce.counter (row words.now) }
{
    Line {
        body: *words,
        tag: tag(suite, nonce, words),
    }
}

// The line that commits a data body: stored under the pad. Opening it gives the body back.
#[tactic(auto, using(crate::proofs::Undoing::data_undone))]
pub fn seal_data<S: Suite>(suite: &S, nonce: Nonce, body: &[u64; 8]) -> Line
    ensures line { line_in result ≡ data_line (S.Suite.scheme suite.now) nonce.at nonce.counter (row body.now) }
    ensures undone { open_data (S.Suite.scheme suite.now) nonce.at nonce.counter (line_in result) ≡ some (row body.now) }
{
    sealed_line(suite, nonce, &padded(suite, nonce, body))
}

// The line that commits a node's counters. Opening it gives them back.
#[tactic(auto, using(crate::proofs::Undoing::node_undone))]
pub fn seal_node<S: Suite>(suite: &S, nonce: Nonce, counters: &[u64; 8]) -> Line
    ensures line { line_in result ≡ node_line (S.Suite.scheme suite.now) nonce.at nonce.counter (row counters.now) }
    ensures undone { open_node (S.Suite.scheme suite.now) nonce.at nonce.counter (line_in result) ≡ some (row counters.now) }
{
    sealed_line(suite, nonce, counters)
}

// The words that a line stores, or none where its tag is not right.
fn right_words<S: Suite>(suite: &S, nonce: Nonce, line: &Line) -> Option<[u64; 8]>
    ensures { Answers (cond (right (S.Suite.scheme suite.now) nonce.at nonce.counter (line_in line.now)) (some (line_in line.now).words) none) result }
{
    is_right(suite, nonce, line).then_some(line.body)
}

// The body of a data line, or none where its tag is not right.
pub fn open_data<S: Suite>(suite: &S, nonce: Nonce, line: &Line) -> Option<[u64; 8]>
    ensures { Answers (open_data (S.Suite.scheme suite.now) nonce.at nonce.counter (line_in line.now)) result }
{
    let words = right_words(suite, nonce, line)?;
    Some(padded(suite, nonce, &words))
}

// The counters of a node line, or none where its tag is not right.
pub fn open_node<S: Suite>(suite: &S, nonce: Nonce, line: &Line) -> Option<[u64; 8]>
    ensures { Answers (open_node (S.Suite.scheme suite.now) nonce.at nonce.counter (line_in line.now)) result }
{
    right_words(suite, nonce, line)
}
