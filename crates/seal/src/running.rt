ghost use Rattle.std.specs.Prelude.{IfOk, string_bytes, OnOk};
ghost use Rattle.text.specs.Spelling.{lines_of};
ghost use Rattle.text.specs.Writing.{Adds};
ghost use Rattle.seal.specs.Answered.{scheme_of, Rows, Printed, Single, HeaderRead};

use crate::answering::answer;
use crate::reading::{read_item, read_suite};
use std::alloc::Global;
use std::fmt;
use suite::cmac_suite::CmacSuite;
use suite::kind::SuiteKind;
use suite::sip_suite::SipSuite;
use suite::suite::Suite;
use text::lines::{BadLine, Lines};
use text::types::KeyPair;
use text::{key_line, next_line};

// Adds what is printed for the lines behind the two of the header.
fn print_rows<S: Suite>(suite: &S, text: &[u8], out: &mut String) -> fmt::Result
    ensures { OnOk result (Adds (Rows (S.Suite.scheme suite.now) 3 (lines_of text.now)) (string_bytes out.old) (string_bytes out.new)) }
{
    for (number, line) in (3..).zip(Lines { text }) {
        let Some(item) = read_item(line) else {
            let bad = BadLine { number };
            writeln!(out, "{bad}")?;
            return Ok(());
        };
        let reply = answer(suite, &item);
        writeln!(out, "{reply}")?;
    }
    Ok(())
}

// The suite and the keys that the first two lines name, and what is behind them; or the number of the line that is
// unreadable.
fn read_header(input: &[u8]) -> Result<(SuiteKind, KeyPair, &[u8]), BadLine>
    ensures { HeaderRead (lines_of input.now) result }
{
    // `script` reads such a line by a helper that takes a closure. In `text`, for both, it would be public and would
    // have a `requires`, which no public function here has; a helper without the closure saves no line.
    let first = BadLine { number: 1 };
    let second = BadLine { number: 2 };
    let (line, rest) = next_line(input).ok_or(first)?;
    let kind = read_suite(line).ok_or(first)?;
    let (line, rest) = next_line(rest).ok_or(second)?;
    let keys = key_line(line).ok_or(second)?;
    Ok((kind, keys, rest))
}

// Adds what is printed for the items, under the suite of this kind and these keys.
fn print_items(kind: SuiteKind, keys: &KeyPair, text: &[u8], out: &mut String) -> fmt::Result
    ensures { OnOk result (Adds (Rows (scheme_of kind keys.now) 3 (lines_of text.now)) (string_bytes out.old) (string_bytes out.new)) }
{
    // `bench` has the same two arms: a closure takes one type of suite, a trait for what runs under both is longer, and
    // an enum of both suites could not have one `NUMBER`.
    match kind {
        SuiteKind::Sip => print_rows(&SipSuite::new(&keys.mac, &keys.pad), text, out),
        SuiteKind::Cmac => print_rows(&CmacSuite::new(&keys.mac), text, out),
    }
}

// Adds what is printed for the whole input.
fn print_all(input: &[u8], out: &mut String) -> fmt::Result
    ensures { OnOk result (Adds (Printed (lines_of input.now)) (string_bytes out.old) (string_bytes out.new)) }
{
    match read_header(input) {
        Ok((kind, keys, rest)) => print_items(kind, &keys, rest, out),
        Err(bad) => {
            writeln!(out, "{bad}")?;
            Ok(())
        }
    }
}

// What the program prints for an input: for each input one text.
pub fn transcript(heap: Global, input: &[u8]) -> Result<String, fmt::Error>
    ensures single { Single (Printed (lines_of input.now)) }
    ensures printed { IfOk result (λ s. Printed (lines_of input.now) (string_bytes s)) }
{
    let mut out = String::new(heap);
    print_all(input, &mut out)?;
    Ok(out)
}
