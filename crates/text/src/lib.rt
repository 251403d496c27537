// Reading the inputs of the programs: numbers, keys, prefixes and lines. A text is a slice of bytes.
#![tactic(auto)]

ghost use Rattle.std.specs.Prelude.{◌≡◌, ℕ, ◌^◌, ◌<◌, ◌≤◌, List, [], ◌∷◌, ◌++◌, length, MatchOption, codes, ◌≢◌, slice_index};
ghost use Rattle.std.specs.Option.{option_map};
ghost use Rattle.std.specs.Fn.{FnReturnsAt};
ghost use Rattle.text.specs.Spelling.{Reads, Behind, Begins, After, Digit, then_digit, Decimal, Spaced, Numbers, Hex, HexByte, Key, Keys, FirstLine};
ghost use Rattle.text.specs.Taking.{Stops, Any, Cut, Takes, steps_of, Fills};

pub mod lines;
pub mod types;
pub mod words;

use types::KeyPair;

// The number with one more digit behind it, where that is a digit and the number fits.
fn push_digit(value: u64, byte: u8) -> Option<u64>
    ensures { MatchOption result (Digit byte → then_digit value byte < 2 ^ 64 → ⊥) (λ n. Digit byte × (n ≡ then_digit value byte)) }
{
    let digit = char::from(byte).to_digit(10)?;
    value.checked_mul(10)?.checked_add(u64::from(digit))
}

// The value of a hexadecimal digit.
fn hex(byte: u8) -> Option<u8>
    ensures { MatchOption result ((v : ℕ) → Hex byte v → ⊥) (λ v. Hex byte v) }
{
    u8::try_from(char::from(byte).to_digit(16)?).ok()
}

// The place of the first such byte, or the length where there is none.
fn find(text: &[u8], byte: u8) -> usize
    ensures within { result ≤ length text.now }
    ensures before { (k : ℕ) → k < result → slice_index text.now k ≢ byte }
    ensures found { result < length text.now → slice_index text.now result ≡ byte }
{
    text.iter().position(|x| *x == byte).unwrap_or(text.len())
}

// A decimal number.
pub fn number(text: &[u8]) -> Option<u64>
    ensures { Reads Decimal text.now result }
{
    if text.is_empty() {
        return None;
    }
    let mut value = 0u64;
    // `try_fold` with `push_digit` was tried: the goal that the digits spell the value stays open.
    for byte in text {
        value = push_digit(value, *byte)?;
    }
    Some(value)
}

// What stands behind a prefix.
pub fn after<'a>(text: &'a [u8], prefix: &[u8]) -> Option<&'a [u8]>
    ensures { Reads (Behind prefix.now) text.now (option_map (λ x. x.now) result) }
{
    text.strip_prefix(prefix)
}

// A prefix and a number.
pub fn number_after(text: &[u8], prefix: &[u8]) -> Option<u64>
    ensures { Reads (After prefix.now Decimal) text.now result }
{
    number(after(text, prefix)?)
}

// The first byte as a character, and what follows it.
pub fn first(text: &[u8]) -> Option<(char, &[u8])>
    ensures { Reads Begins text.now (option_map (λ p. (p.0, p.1.now)) result) }
{
    let (byte, rest) = text.split_first()?;
    Some((char::from(*byte), rest))
}

// The text in two: up to the first such byte, and from it on.
fn cut(text: &[u8], byte: u8) -> (&[u8], &[u8])
    ensures { Cut byte text.now result.0.now result.1.now }
{
    text.split_at(find(text, byte))
}

// Reads a value into each place from the front of a text, and gives what follows the last.
fn fill<'a, T: Copy, F: Fn(&[u8]) -> Option<(T, &[u8])>>(
    values: &mut [T],
    text: &'a [u8],
    next: F,
) -> Option<&'a [u8]>
    requires { F.IsAlwaysCallable next }
    ensures { Fills (steps_of (FnReturnsAt F.Fn next)) text.now values.new (option_map (λ x. x.now) result) }
{
    let mut rest = text;
    for value in values {
        (*value, rest) = next(rest)?;
    }
    Some(rest)
}

// One space and a number, with what follows from the next space on.
fn next_number(text: &[u8]) -> Option<(u64, &[u8])>
    ensures { Takes Spaced (Stops 32) text.now (option_map (λ p. (p.0, p.1.now)) result) }
{
    let (word, rest) = cut(after(text, b" ")?, b' ');
    Some((number(word)?, rest))
}

// So many numbers, each after one space, and nothing else.
pub fn numbers<const N: usize>(text: &[u8]) -> Option<[u64; N]>
    ensures { Reads (Numbers N) text.now result }
{
    let mut values = [0u64; N];
    let rest = fill(&mut values, text, next_number)?;
    rest.is_empty().then_some(values)
}

// A byte as two hexadecimal digits, with what follows.
fn next_byte(text: &[u8]) -> Option<(u8, &[u8])>
    ensures { Takes HexByte Any text.now (option_map (λ p. (p.0, p.1.now)) result) }
{
    let [high, low, rest @ ..] = text else {
        return None;
    };
    Some((16 * hex(*high)? + hex(*low)?, rest))
}

// Sixteen bytes in hexadecimal, with what follows.
fn next_key(text: &[u8]) -> Option<([u8; 16], &[u8])>
    ensures { Takes Key Any text.now (option_map (λ p. (p.0, p.1.now)) result) }
{
    let mut key = [0u8; 16];
    let rest = fill(&mut key, text, next_byte)?;
    Some((key, rest))
}

// The mac key and the pad key, and nothing else.
pub fn keys(text: &[u8]) -> Option<KeyPair>
    ensures { Reads Keys text.now result }
{
    let (mac, rest) = next_key(text)?;
    let (pad, rest) = next_key(rest)?;
    rest.is_empty().then_some(KeyPair { mac, pad })
}

// The key word of the two keys, and the keys.
pub fn key_line(line: &[u8]) -> Option<KeyPair>
    ensures { Reads (After (codes "key=") Keys) line.now result }
{
    keys(after(line, b"key=")?)
}

// The first line and the text behind it, or none at the end of the text.
pub fn next_line(text: &[u8]) -> Option<(&[u8], &[u8])>
    ensures { FirstLine text.now (option_map (λ p. (p.0.now, p.1.now)) result) }
{
    if text.is_empty() {
        return None;
    }
    let (line, rest) = cut(text, b'\n');
    Some((line, after(rest, b"\n").unwrap_or(rest)))
}
