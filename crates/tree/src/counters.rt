ghost use Rattle.std.specs.Prelude.{◌≡◌, ◌*◌, ◌≤◌, nat_le};
ghost use Rattle.suite.specs.Words.{row};
ghost use Rattle.machine.specs.Layout.{counter_limit, sum_to};
ghost use Rattle.tree.specs.Limits.{WithinLimit};

pub use machine::counter::{LIMIT, within_limit};

// The sum of a node's counters.
pub(crate) fn sum_of(counters: &[u64; 8]) -> u64
    requires { WithinLimit (row counters.now) }
    ensures value { result ≡ sum_to 8 (row counters.now) }
    ensures small { result ≤ 8 * counter_limit }
{
    counters.iter().sum()
}
