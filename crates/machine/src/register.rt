// The register's 32 words and its named fields.
ghost use Rattle.std.specs.Prelude.{◌≡◌, ℕ, ◌+◌, ◌%◌, ◌<◌, ◌≤◌, ◌++◌, length, take, drop, slice_set, Some};
ghost use Rattle.machine.specs.Words.{row, no_address, register_in, words_of};
ghost use Rattle.machine.specs.Encoding.{encoded, decoded, journal_decoded, with_journal, with_commit, with_counter, committed, said, Real, EightWords, register_meant};

use crate::types::{Journal, Register};
use board::types::Line;

// Stands for the address of no journal.
const NO_ADDRESS: u64 = u64::MAX;

// As many words as the result holds, from a place on.
fn part<const N: usize>(words: &[u64; 32], at: usize) -> [u64; N]
    requires { at + N ≤ 32 }
    ensures { result ≡ take N (drop at words.now) }
{
    *words[at..].first_chunk().unwrap()
}

// Puts a part of the words in its place.
fn put<const N: usize>(words: &mut [u64; 32], at: usize, part: &[u64; N])
    requires { at + N ≤ 32 }
    ensures is { words.new ≡ take at words.old ++ (part.now ++ drop (at + N) words.old) }
    ensures long { length part.now ≡ N }
{
    words[at..at + N].copy_from_slice(part);
}

// The journal, unless there is none.
fn journal_in(words: &[u64; 32]) -> Option<Journal>
    ensures { result ≡ journal_decoded (row words.now 12) words.now }
{
    match words[12] {
        NO_ADDRESS => None,
        at => Some(Journal {
            at,
            line: Line {
                body: part(words, 13),
                tag: words[21],
            },
        }),
    }
}

// Puts a journal's entry in its place.
fn put_entry(words: &mut [u64; 32], entry: &Journal)
    ensures is { words.new ≡ with_journal words.old (Some entry.now) }
    ensures long { EightWords (Some entry.now) }
{
    words[12] = entry.at;
    words[21] = entry.line.tag;
    put(words, 13, &entry.line.body);
}

// Puts a journal in its place.
fn put_journal(words: &mut [u64; 32], journal: &Option<Journal>)
    ensures is { words.new ≡ with_journal words.old journal.now }
    ensures long { EightWords journal.now }
{
    match journal {
        None => words[12] = NO_ADDRESS,
        Some(entry) => put_entry(words, entry),
    }
}

// Puts a counter of the root in its place among a register's words. The index counts modulo 8.
pub fn put_root(words: &mut [u64; 32], index: usize, counter: u64)
    ensures is { words.new ≡ slice_set words.old (3 + index % 8) counter }
    ensures meaning { register_in words.new ≡ with_counter (register_in words.old) (index % 8) counter }
{
    words[3 + index % 8] = counter;
}

// Puts what a commit changes beside the root in its place among a register's words: the dirty sum, the journal and the
// dirty map. The other words stay as they are, which is cheaper than to decode and encode all of them.
pub fn put_commit(words: &mut [u64; 32], dirty_sum: u64, entry: &Journal, dirty: &[u64; 10])
    ensures is { words.new ≡ with_commit words.old dirty_sum entry.now dirty.now }
    ensures meaning { (entry.now.at ≡ no_address → ⊥) → register_in words.new ≡ committed (register_in words.old) dirty_sum entry.now dirty.now }
{
    words[11] = dirty_sum;
    put_entry(words, entry);
    put(words, 22, dirty);
}

impl Register {
    // The fields of 32 words, which mean the same register. All that the words say comes back from them, and from what they mean.
    pub fn decode(words: &[u64; 32]) -> Register
        ensures is { result ≡ decoded words.now }
        ensures meaning { register_meant result ≡ register_in words.now }
        ensures again { encoded result ≡ said words.now }
        ensures meant { words_of (register_meant result) ≡ said words.now }
    {
        Register {
            formatted: words[0],
            levels: words[1],
            suite: words[2],
            roots: part(words, 3),
            dirty_sum: words[11],
            journal: journal_in(words),
            dirty: part(words, 22),
        }
    }

    // The 32 words of the fields, from which the fields come back.
    pub fn encode(&self) -> [u64; 32]
        ensures is { result ≡ encoded self.now }
        ensures back { Real self.now.journal → decoded result ≡ self.now }
        ensures meaning { Real self.now.journal → register_in result ≡ register_meant self.now }
    {
        let mut words = [0; 32];
        words[0] = self.formatted;
        words[1] = self.levels;
        words[2] = self.suite;
        put(&mut words, 3, &self.roots);
        words[11] = self.dirty_sum;
        put_journal(&mut words, &self.journal);
        put(&mut words, 22, &self.dirty);
        words
    }
}

// `decode` and `encode` stay beside the two conversions: each gives its facts by name, and a conversion gives one.
impl From<&[u64; 32]> for Register {
    ghost from_gives = { λ words register. register ≡ decoded words.now };

    fn from(words: &[u64; 32]) -> Register {
        Register::decode(words)
    }
}

impl From<&Register> for [u64; 32] {
    ghost from_gives = { λ register words. words ≡ encoded register.now };

    fn from(register: &Register) -> [u64; 32] {
        register.encode()
    }
}
