// SipHash-2-4 (Aumasson and Bernstein, 2012) of a message of any length.
#![tactic(auto)]

mod rounds;
mod state;
mod words;

ghost use Rattle.std.specs.Prelude.{◌≡◌, ◌/◌, length};
ghost use Rattle.sip.specs.Sip.{absorbed, siphash24};

use crate::state::SipState;
use crate::words::last_word;

// A key of SipHash.
#[derive(Clone, Copy)]
pub struct SipKey {
    bytes: [u8; 16],
}

impl SipKey {
    pub fn new(bytes: &[u8; 16]) -> SipKey
        ensures { result.bytes ≡ bytes.now }
    {
        SipKey { bytes: *bytes }
    }

    // The state after the whole words of a message.
    fn absorb(&self, message: &[u8]) -> SipState
        ensures { result ≡ absorbed self.now.bytes message.now (length message.now / 8) }
    {
        let (words, _) = message.as_chunks::<8>();
        let mut state = SipState::start(&self.bytes);
        for word in words {
            state = state.compress(u64::from_le_bytes(*word));
        }
        state
    }

    // The hash of a message under this key.
    pub fn hash(&self, message: &[u8]) -> u64
        ensures { result ≡ siphash24 self.now.bytes message.now }
    {
        self.absorb(message).compress(last_word(message)).finish()
    }
}
