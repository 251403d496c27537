ghost use Rattle.std.specs.Prelude.{◌≡◌, ◌/◌, ◌<◌, ◌≤◌, ◌++◌, length, drop, replicate, is_ok, MatchOption, slice_index_or, slice_set};
ghost use Rattle.board.specs.Memory.{memory, lines_of, line_at, line_of, words_of, with_line, WordsPut};
ghost use Rattle.board.specs.Calls.{LineWritten, RegisterWritten};
ghost use Rattle.board.specs.Tampering.{LinePut};

use crate::board::Board;
use crate::tamper::Tamper;
use crate::types::{BoardFault, Line};

// A board on the caller's words: line a stands at words 9a to 9a + 8.
#[derive(Drop)]
pub struct Memory<'a> {
    words: &'a mut [u64],
    register: [u64; 32],
}

// Writes a line into its nine words, in place: a conversion into an array would make nine words more, and copy them.
fn put_line(part: &mut [u64], line: &Line)
    requires { length part.old ≡ 9 }
    ensures { part.new ≡ words_of line.now }
{
    part[..8].copy_from_slice(&line.body);
    part[8] = line.tag;
}

// The line that stands in nine words.
impl From<&[u64; 9]> for Line {
    ghost from_gives = { λ words line. line ≡ line_of words.now };

    fn from(words: &[u64; 9]) -> Line {
        Line {
            body: *words.first_chunk().unwrap(),
            tag: words[8],
        }
    }
}

// How many lines stand whole in these words.
fn lines_in(words: &[u64]) -> usize
    ensures { result ≡ length (lines_of words.now) }
{
    words.len() / 9
}

// The line at an address, if there is one.
fn find(words: &[u64], at: usize) -> Option<Line>
    ensures { MatchOption result (length (lines_of words.now) ≤ at) (λ l. (at < length (lines_of words.now)) × (l ≡ slice_index_or (lines_of words.now) at l)) }
{
    let (lines, _) = words.as_chunks();
    Some(Line::from(lines.get(at)?))
}

impl<'a> Memory<'a> {
    pub fn new(words: &'a mut [u64]) -> Memory<'a>
        ensures { (result.words.now ≡ words.old) × (result.register ≡ replicate 32 0) }
    {
        Memory {
            words,
            register: [0; 32],
        }
    }

    // The caller's words, those past the last whole line too.
    pub fn words(&self) -> &[u64]
        ensures { result.now ≡ self.now.words.now }
    {
        self.words
    }

    // Puts a line into its nine words, which are lent from the middle of all, by their place: of what a slice ends as, `as_chunks_mut` promises nothing.
    fn overwrite(&mut self, at: usize, line: &Line)
        requires { at < length self.old.words.now / 9 }
        ensures words { self.new.words.now ≡ with_line self.old.words.now at line.now }
        ensures length { length self.new.words.now ≡ length self.old.words.now }
        ensures register { self.new.register ≡ self.old.register }
    {
        put_line(&mut self.words[9 * at..9 * at + 9], line);
    }
}

impl Board for Memory<'_> {
    ghost meaning = { λ s. memory s.words.now s.register };

    fn count(&self) -> usize {
        lines_in(self.words)
    }

    fn read_line(&self, at: usize) -> Result<Line, BoardFault> {
        find(self.words, at).ok_or(BoardFault::Absent)
    }

    fn write_line(&mut self, at: usize, line: Line) -> Result<(), BoardFault>
        ensures meaning { LineWritten (memory self.old.words.now self.old.register) at line result (memory self.new.words.now self.new.register) }
        ensures words { WordsPut self.old.words.now at line (is_ok result) self.new.words.now }
    {
        if at >= self.count() {
            return Err(BoardFault::Absent);
        }
        self.overwrite(at, &line);
        Ok(())
    }

    fn read_register(&self) -> [u64; 32] {
        self.register
    }

    fn write_register(&mut self, words: [u64; 32]) -> Result<(), BoardFault>
        ensures meaning { RegisterWritten (memory self.old.words.now self.old.register) words result (memory self.new.words.now self.new.register) }
        ensures words { self.new.words.now ≡ self.old.words.now }
    {
        self.register = words;
        Ok(())
    }
}

impl Tamper for Memory<'_> {
    fn put(&mut self, at: usize, line: Line) -> bool
        ensures meaning { LinePut (memory self.old.words.now self.old.register) at line result (memory self.new.words.now self.new.register) }
        ensures words { WordsPut self.old.words.now at line result self.new.words.now }
    {
        self.write_line(at, line).is_ok()
    }
}
