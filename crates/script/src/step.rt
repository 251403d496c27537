ghost use Rattle.text.specs.Spelling.{Reads, Unambiguous};
ghost use Rattle.script.specs.Script.{Limit, Lettered, StepLine, One};

use crate::types::Step;
use text::{after, first, number, numbers};

// A number of writes, or none.
pub fn read_limit(text: &[u8]) -> Option<Option<u64>>
    ensures { Reads Limit text.now result }
{
    match text {
        b"none" => Some(None),
        _ => Some(Some(number(text)?)),
    }
}

// One number behind one space.
fn read_one(text: &[u8]) -> Option<u64>
    ensures { Reads One text.now result }
{
    let [value] = numbers::<1>(text)?;
    Some(value)
}

// The step that a letter and what is behind it spell.
fn read_arguments(letter: char, text: &[u8]) -> Option<Step>
    ensures { Reads (Lettered letter) text.now result }
{
    match letter {
        'r' => Some(Step::Read(read_one(text)?)),
        'w' => {
            let [at, value] = numbers::<2>(text)?;
            Some(Step::Write(at, value))
        }
        's' => text.is_empty().then_some(Step::Flush),
        'd' => text.is_empty().then_some(Step::Restart),
        'p' => Some(Step::Recharge(read_limit(after(text, b" ")?)?)),
        'k' => Some(Step::Copy(read_one(text)?)),
        'm' => Some(Step::Put(read_one(text)?)),
        _ => None,
    }
}

// A step. No line spells two.
pub fn read_step(line: &[u8]) -> Option<Step>
    ensures single { Unambiguous StepLine }
    ensures reads { Reads StepLine line.now result }
{
    let (letter, rest) = first(after(line, b"step=")?)?;
    read_arguments(letter, rest)
}
