// AES-128 encryption (FIPS 197).
#![tactic(auto)]

mod columns;
mod field;
mod rounds;
mod schedule;

ghost use Rattle.std.specs.Prelude.{◌≡◌, map};
ghost use Rattle.aes.specs.Aes.{aes128, after, round_keys};
ghost use Rattle.aes.specs.Columns.{unpack};

use crate::columns::Columns;
use crate::schedule::expand;

// A key with its round keys 1 to 10; round key 0 is the key itself.
#[derive(Clone, Copy)]
pub struct Aes128 {
    key: [u8; 16],
    rounds: [Columns; 10],
    ghost expanded: { map unpack rounds ≡ round_keys key },
}

impl Aes128 {
    pub fn new(key: &[u8; 16]) -> Aes128
        ensures { result.key ≡ key.now }
    {
        Aes128 {
            key: *key,
            rounds: expand(key),
        }
    }

    // The state after nine rounds.
    fn nine_rounds(&self, block: &[u8; 16]) -> Columns
        ensures { unpack result ≡ after self.now.key block.now 9 }
    {
        let mut state = Columns::from(block) ^ Columns::from(&self.key);
        for key in &self.rounds[..9] {
            state = state.round(*key);
        }
        state
    }

    // A block encrypted under this key.
    #[tactic(auto, using(crate::proofs::Keys::key_at))]
    pub fn encrypt(&self, block: &[u8; 16]) -> [u8; 16]
        ensures { result ≡ aes128 self.now.key block.now }
    {
        self.nine_rounds(block).last_round(self.rounds[9]).into()
    }
}
