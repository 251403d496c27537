ghost use Rattle.std.specs.Prelude.{◌≡◌, ℕ, ◌^◌, ◌<◌, ◌≤◌};
ghost use Rattle.suite.specs.Scheme.{Body, Scheme};
ghost use Rattle.suite.specs.Words.{row};

use crate::nonce::Nonce;

// Every mac is below this: a tag is a mac and then ten bits.
pub(crate) const MAC_BOUND: u64 = 1 << 54;

// What seals lines: a number, a mac for each address, words and counter, and a pad for each address and counter.
// It never refuses, and its answers are those of its scheme.
pub trait Suite {
    // The number by which a register names the suite, from 1 to 255.
    const NUMBER: u64;

    ghost NUMBER: { ℕ };

    ghost scheme: { Self → Scheme };

    fn mac(&self, nonce: Nonce, words: &[u64; 8]) -> u64
        ensures { result ≡ (scheme self.now).mac nonce.at (row words.now) nonce.counter };

    fn pad(&self, nonce: Nonce) -> [u64; 8]
        ensures { row result ≡ (scheme self.now).pad nonce.at nonce.counter };

    // The number is the scheme's under every key.
    ghost named: { (s : Self) → NUMBER ≡ (scheme s).number };

    ghost low: { (s : Self) → 1 ≤ (scheme s).number };

    ghost high: { (s : Self) → (scheme s).number ≤ 255 };

    ghost small: { (s : Self) (a : ℕ) (ws : Body) (c : ℕ) → (scheme s).mac a ws c < 2 ^ 54 };
}
