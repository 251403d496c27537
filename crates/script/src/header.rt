ghost use Rattle.std.specs.Prelude.{◌≡◌, codes, ◌==◌};
ghost use Rattle.std.specs.Option.{option_map};
ghost use Rattle.std.specs.List.{find};
ghost use Rattle.text.specs.Spelling.{Reads, After, lines_of};
ghost use Rattle.std.specs.Fn.{FnReturnsAt};
ghost use Rattle.script.specs.Script.{Limit, SuiteLine, SuiteLineAs, LineRead, bad_line, HeaderBy, HeaderRead, HeaderReadAs};

use crate::step::read_limit;
use crate::types::Header;
use text::lines::BadLine;
use text::{after, key_line, next_line, number_after};

// The first of some suites that has this number.
fn find_suite<K>(suites: &[(u64, K)], wanted: u64) -> Option<&(u64, K)>
    ensures { option_map (λ s. s.now) result ≡ find (λ s. s.0 == wanted) suites.now }
{
    suites.iter().find(|(number, _)| *number == wanted)
}

// The number of a suite that is at hand: numbers, since a caller that holds a list of them cannot make pairs where nothing is allocated.
fn read_suite(line: &[u8], suites: &[u64]) -> Option<u64>
    ensures { Reads (SuiteLine suites.now) line.now result }
{
    let suite = number_after(line, b"suite=")?;
    if suites.contains(&suite) {
        Some(suite)
    } else {
        None
    }
}

// A suite that is at hand, by what stands beside its number.
fn read_suite_as<K: Copy>(line: &[u8], suites: &[(u64, K)]) -> Option<K>
    ensures { Reads (SuiteLineAs suites.now) line.now result }
{
    let (_, suite) = find_suite(suites, number_after(line, b"suite=")?)?;
    Some(*suite)
}

// The fuse.
fn read_fuse(line: &[u8]) -> Option<Option<u64>>
    ensures { Reads (After (codes "fuse=") Limit) line.now result }
{
    read_limit(after(line, b"fuse=")?)
}

// What the first line of a text spells, and the text behind that line, which has this number.
fn read_line<T, F: Fn(&[u8]) -> Option<T>>(
    text: &[u8],
    number: u64,
    read: F,
) -> Result<(T, &[u8]), BadLine>
    requires { F.IsAlwaysCallable read }
    ensures { LineRead (FnReturnsAt F.Fn read) number (lines_of text.now) result }
{
    let (line, rest) = next_line(text).ok_or(BadLine { number })?;
    let value = read(line).ok_or(BadLine { number })?;
    Ok((value, rest))
}

// The header, whose suite this function reads from its line, and the text behind it; or the number of its first line
// that is missing or unreadable.
fn read_lines<K: Copy, F: Fn(&[u8]) -> Option<K>>(
    text: &[u8],
    suite_line: F,
) -> Result<(Header<K>, &[u8]), BadLine>
    requires { F.IsAlwaysCallable suite_line }
    ensures { HeaderBy bad_line (FnReturnsAt F.Fn suite_line) (lines_of text.now) result }
{
    let (levels, rest) = read_line(text, 1, |line| number_after(line, b"levels="))?;
    let (slots, rest) = read_line(rest, 2, |line| number_after(line, b"slots="))?;
    let (suite, rest) = read_line(rest, 3, suite_line)?;
    let (keys, rest) = read_line(rest, 4, key_line)?;
    let (fuse, rest) = read_line(rest, 5, read_fuse)?;
    Ok((
        Header {
            levels,
            slots,
            suite,
            keys,
            fuse,
        },
        rest,
    ))
}

// The header, and the text behind it; or the number of its first line that is missing or unreadable. A suite that is
// not among those at hand is unreadable.
pub fn read_header<'a>(text: &'a [u8], suites: &[u64]) -> Result<(Header, &'a [u8]), u64>
    ensures { HeaderRead suites.now (lines_of text.now) result }
{
    read_lines(text, |line| read_suite(line, suites)).map_err(|bad| bad.number)
}

// The same, where the header holds what stands beside the number of its suite.
pub fn read_header_as<'a, K: Copy>(
    text: &'a [u8],
    suites: &[(u64, K)],
) -> Result<(Header<K>, &'a [u8]), BadLine>
    ensures { HeaderReadAs suites.now (lines_of text.now) result }
{
    read_lines(text, |line| read_suite_as(line, suites))
}
