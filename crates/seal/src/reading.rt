ghost use Rattle.std.specs.Prelude.{◌≡◌, [], take, drop, slice_index};
ghost use Rattle.std.specs.Option.{option_map};
ghost use Rattle.text.specs.Spelling.{Reads};
ghost use Rattle.seal.specs.Items.{Head, nonce_of, ItemLine, SuiteLine};

use crate::types::{Item, Kind};
use board::types::Line;
use suite::kind::SuiteKind;
use suite::nonce::Nonce;
use text::{after, first, number_after, numbers};

// The kind that the first letter names, and what follows.
fn read_kind(text: &[u8]) -> Option<(Kind, &[u8])>
    ensures { Reads (Head []) text.now (option_map (λ p. (p.0, p.1.now)) result) }
{
    let (letter, rest) = first(text)?;
    match letter {
        'd' => Some((Kind::Data, rest)),
        'n' => Some((Kind::Node, rest)),
        _ => None,
    }
}

// What follows a key word and a kind.
fn read_head<'a>(text: &'a [u8], word: &[u8]) -> Option<(Kind, &'a [u8])>
    ensures { Reads (Head word.now) text.now (option_map (λ p. (p.0, p.1.now)) result) }
{
    read_kind(after(text, word)?)
}

// The item that asks for a line of these words.
fn sealing(kind: Kind, words: &[u64; 10]) -> Item
    ensures { result ≡ Item.Seal kind (nonce_of words.now) (take 8 (drop 2 words.now)) }
{
    // A rest pattern, `[at, counter, body @ ..]`, was tried: it gets no proof. `opening` is alike.
    let [at, counter, w0, w1, w2, w3, w4, w5, w6, w7] = *words;
    Item::Seal {
        kind,
        nonce: Nonce { at, counter },
        body: [w0, w1, w2, w3, w4, w5, w6, w7],
    }
}

// The item that asks for the body of this line.
fn opening(kind: Kind, words: &[u64; 11]) -> Item
    ensures { result ≡ Item.Open kind (nonce_of words.now) (record { body = take 8 (drop 2 words.now); tag = slice_index words.now 10 }) }
{
    let [at, counter, w0, w1, w2, w3, w4, w5, w6, w7, tag] = *words;
    Item::Open {
        kind,
        nonce: Nonce { at, counter },
        line: Line {
            body: [w0, w1, w2, w3, w4, w5, w6, w7],
            tag,
        },
    }
}

// An item.
pub fn read_item(text: &[u8]) -> Option<Item>
    ensures { Reads ItemLine text.now result }
{
    if let Some((kind, rest)) = read_head(text, b"seal=") {
        let words = numbers::<10>(rest)?;
        return Some(sealing(kind, &words));
    }
    let (kind, rest) = read_head(text, b"open=")?;
    let words = numbers::<11>(rest)?;
    Some(opening(kind, &words))
}

// A suite that the program has.
pub fn read_suite(text: &[u8]) -> Option<SuiteKind>
    ensures { Reads SuiteLine text.now result }
{
    SuiteKind::try_from(number_after(text, b"suite=")?).ok()
}
