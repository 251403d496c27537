// The controller by its definitions and what holds in every history of a board; the register's words, the layout of the lines and the counters.
#![tactic(auto)]

pub mod counter;
pub mod layout;
pub mod register;
#[cfg(test)]
mod tests;
pub mod types;
pub mod validity;

ghost use Rattle.std.specs.Prelude.{◌≡◌, ◌≤◌, [], ◌∷◌};
ghost use Rattle.machine.specs.Layout.{lines_of, counter_limit};
ghost use Rattle.machine.specs.Promises.{HistoryHolds, LawsDecide};
ghost use Rattle.machine.specs.Cases.{WorkedCases};

use crate::counter::LIMIT;
use crate::layout::Layout;

// The largest counter.
fn largest_counter() -> u64
    ensures { result ≡ counter_limit }
{
    LIMIT
}

// In every history of a board, at every point, the promises hold, and the laws among them leave a write and a flush no choice: see specs/Promises.antt. No counter goes past the one answered.
pub fn history_holds() -> u64
    ensures promises { HistoryHolds }
    ensures decided { LawsDecide }
    ensures limit { result ≡ counter_limit }
{
    largest_counter()
}

// Lines for this many levels.
fn lines_at(levels: usize) -> u64
    requires { (1 ≤ levels) × (levels ≤ 4) }
    ensures { result ≡ lines_of levels }
{
    Layout { levels }.lines() as u64
}

// Lines for one to four levels.
fn line_counts() -> [u64; 4]
    ensures { result ≡ lines_of 1 ∷ lines_of 2 ∷ lines_of 3 ∷ lines_of 4 ∷ [] }
{
    [lines_at(1), lines_at(2), lines_at(3), lines_at(4)]
}

// The worked cases hold of the definitions: see specs/Cases.antt. The lines for one to four levels are answered.
pub fn worked_cases() -> [u64; 4]
    ensures cases { WorkedCases }
    ensures lines { result ≡ lines_of 1 ∷ lines_of 2 ∷ lines_of 3 ∷ lines_of 4 ∷ [] }
{
    line_counts()
}
