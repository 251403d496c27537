// Counters: their limit, and restoring one from a stored counter and ten low bits.
ghost use Rattle.std.specs.Prelude.{◌≡◌, ℕ, ◌+◌, ◌%◌, ◌<◌, ◌≤◌, Some, MatchOption};
ghost use Rattle.machine.specs.Layout.{restored, counter_limit, all_within};
ghost use Rattle.machine.specs.Words.{row};

// The largest counter.
pub const LIMIT: u64 = 281_474_976_710_655;

// Whether none of a node's counters is above the limit.
pub fn within_limit(counters: &[u64; 8]) -> bool
    ensures { result ≡ all_within (row counters.now) }
{
    counters.iter().all(|counter| *counter <= LIMIT)
}

// A child's counter: the smallest not below the one that its parent's line stores that agrees with the child's tag in the ten low bits; none where that is above the limit.
// It is never above the true counter, and is the true one if that moved by less than 1,024.
pub fn restore_counter(stored: u64, tag: u64) -> Option<u64>
    ensures value { MatchOption result (counter_limit < restored stored (tag % 1024)) (λ c. (c ≡ restored stored (tag % 1024)) × (c ≤ counter_limit)) }
    ensures never_above { (t : ℕ) → stored ≤ t → t % 1024 ≡ tag % 1024 → MatchOption result (counter_limit < t) (λ c. c ≤ t) }
    ensures exact { (t : ℕ) → stored ≤ t → t < stored + 1024 → t ≤ counter_limit → t % 1024 ≡ tag % 1024 → result ≡ Some t }
{
    if stored > LIMIT {
        return None;
    }
    let counter = stored + (tag % 1024 + 1024 - stored % 1024) % 1024;
    (counter <= LIMIT).then_some(counter)
}
