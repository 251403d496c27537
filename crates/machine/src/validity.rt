// Whether a register is one of a formatted board.
ghost use Rattle.std.specs.Prelude.{◌≡◌, ℕ, ◌<◌, ◌≤◌, not, ◌||◌, nat_lt};
ghost use Rattle.machine.specs.Layout.{eight_ary, lines_of, every};
ghost use Rattle.machine.specs.History.{journal_in, register_valid};
ghost use Rattle.machine.specs.Words.{bit};
ghost use Rattle.machine.specs.Encoding.{journal_meant, register_meant};

use crate::counter::within_limit;
use crate::layout::Layout;
use crate::types::{Journal, Register};

// Whether a bit of the dirty map is set.
fn is_set(dirty: &[u64; 10], place: usize) -> bool
    requires { place < 640 }
    ensures { result ≡ bit dirty.now place }
{
    (dirty[place / 64] >> (place % 64)) % 2 == 1
}

// Whether only the first bits of the dirty map are set, as many as there are nodes.
fn map_is_valid(dirty: &[u64; 10], nodes: usize) -> bool
    requires { nodes ≤ 640 }
    ensures { result ≡ every 640 (λ j. nat_lt j nodes || not (bit dirty.now j)) }
{
    (nodes..640).all(|place| !is_set(dirty, place))
}

// Whether a journal's address is a line.
fn journal_is_valid(journal: &Option<Journal>, lines: u64) -> bool
    ensures { (h : ℕ) → lines ≡ lines_of h → result ≡ journal_in (eight_ary h) (journal_meant journal.now) }
{
    journal.is_none_or(|entry| entry.at < lines)
}

impl Register {
    // Whether the register is one of a formatted board, as bring-up judges it.
    pub fn is_valid(&self) -> bool
        ensures { result ≡ register_valid eight_ary (register_meant self.now) }
    {
        let Some(layout) = Layout::new(self.levels) else {
            return false;
        };
        self.formatted == 1
            && within_limit(&self.roots)
            && map_is_valid(&self.dirty, layout.nodes())
            && journal_is_valid(&self.journal, layout.lines() as u64)
    }
}
