// The bench: a script on a memory of 584 lines under a fuse.
ghost use Rattle.std.specs.Prelude.{◌≡◌, replicate, IfOk, string_bytes, OnOk};
ghost use Rattle.text.specs.Spelling.{lines_of};
ghost use Rattle.text.specs.Writing.{Adds};
ghost use Rattle.bench.specs.Printed.{scheme_of, on_memory, Run, Printed};

use crate::playing::play_script;
use crate::types::Script;
use board::fuse::Fuse;
use board::memory::Memory;
use script::header::read_header_as;
use std::alloc::Global;
use std::fmt;
use suite::cmac_suite::CmacSuite;
use suite::kind::SuiteKind;
use suite::sip_suite::SipSuite;
use suite::suite::Suite;

// The suites that the bench has, by number.
const SUITES: [(u64, SuiteKind); 2] = [
    (SipSuite::NUMBER, SuiteKind::Sip),
    (CmacSuite::NUMBER, SuiteKind::Cmac),
];

// The words of 584 lines: the board's memory is fixed, as that of the device is.
const WORDS: usize = 9 * 584;

// Memory of these words, under a fuse.
fn fused_memory(words: &mut [u64], left: Option<u64>) -> Fuse<Memory<'_>>
    ensures words { result.below.words.now ≡ words.old }
    ensures register { result.below.register ≡ replicate 32 0 }
    ensures left { result.left ≡ left }
{
    Fuse::new(Memory::new(words), left)
}

// Runs a script on memory of these words, under the fuse of its header.
fn play_on_memory<S: Suite + Copy>(
    suite: S,
    script: &Script,
    words: &mut [u64],
    out: &mut String,
) -> fmt::Result
    ensures { OnOk result (Adds (Run (S.Suite.scheme suite) script.now.header (lines_of script.now.steps.now) (on_memory words.old script.now.header.fuse)) (string_bytes out.old) (string_bytes out.new)) }
{
    let board = fused_memory(words, script.header.fuse);
    let (_board, printed) = play_script(board, suite, script, out);
    printed
}

// Plays a script under the suite and the keys of its header.
fn play_keyed(script: &Script, words: &mut [u64], out: &mut String) -> fmt::Result
    ensures { OnOk result (Adds (Run (scheme_of script.now.header) script.now.header (lines_of script.now.steps.now) (on_memory words.old script.now.header.fuse)) (string_bytes out.old) (string_bytes out.new)) }
{
    let keys = script.header.keys;
    // `seal` has the same two arms: a closure takes one type of suite, a trait for what runs under both is longer, and
    // an enum of both suites could not have one `NUMBER`.
    match script.header.suite {
        SuiteKind::Sip => {
            play_on_memory(SipSuite::new(&keys.mac, &keys.pad), script, words, out)
        }
        SuiteKind::Cmac => play_on_memory(CmacSuite::new(&keys.mac), script, words, out),
    }
}

// Adds what is printed for the whole input.
fn print_all(input: &[u8], out: &mut String) -> fmt::Result
    ensures { OnOk result (Adds (Printed (lines_of input.now)) (string_bytes out.old) (string_bytes out.new)) }
{
    match read_header_as(input, &SUITES) {
        Ok((header, steps)) => {
            let mut words = [0; WORDS];
            play_keyed(&Script { header, steps }, &mut words, out)
        }
        Err(bad) => {
            writeln!(out, "{bad}")?;
            Ok(())
        }
    }
}

// What the program prints for an input.
pub(crate) fn transcript(heap: Global, input: &[u8]) -> Result<String, fmt::Error>
    ensures { IfOk result (λ s. Printed (lines_of input.now) (string_bytes s)) }
{
    let mut out = String::new(heap);
    print_all(input, &mut out)?;
    Ok(out)
}
