ghost use Rattle.std.specs.Prelude.{◌≡◌, ◌<◌};
ghost use Rattle.suite.specs.Suites.{sip_scheme, pad_part};
ghost use Rattle.std.proofs.Common.{rules};

use crate::message::{message, pad_block, word_of};
use crate::nonce::Nonce;
use crate::suite::{MAC_BOUND, Suite};
use aes::Aes128;
use sip::SipKey;
use std::array;

// Suite 1: SipHash-2-4 macs, AES-128 pads.
#[derive(Clone, Copy)]
pub struct SipSuite {
    hash: SipKey,
    cipher: Aes128,
}

impl SipSuite {
    pub fn new(mac_key: &[u8; 16], pad_key: &[u8; 16]) -> SipSuite
        ensures mac { result.hash.bytes ≡ mac_key.now }
        ensures pad { result.cipher.key ≡ pad_key.now }
    {
        SipSuite {
            hash: SipKey::new(mac_key),
            cipher: Aes128::new(pad_key),
        }
    }

    // The two words that a part of a pad gives.
    fn pad_words(&self, nonce: Nonce, part: u8) -> [u64; 2]
        ensures { result ≡ pad_part self.now.cipher.key nonce.at nonce.counter part }
    {
        let block = self.cipher.encrypt(&pad_block(nonce, part));
        [word_of(&block, 0), word_of(&block, 8)]
    }
}

impl Suite for SipSuite {
    const NUMBER: u64 = 1;

    ghost NUMBER = { 1 };

    ghost scheme = { λ s. sip_scheme s.hash.bytes s.cipher.key };

    ghost named = { Prim.search rules };

    ghost low = { Prim.search rules };

    ghost high = { Prim.search rules };

    ghost small = { Prim.search rules };

    fn mac(&self, nonce: Nonce, words: &[u64; 8]) -> u64 {
        self.hash.hash(message(nonce, words).as_flattened()) % MAC_BOUND
    }

    fn pad(&self, nonce: Nonce) -> [u64; 8] {
        let parts: [[u64; 2]; 4] = array::from_fn(
            |part| -> [u64; 2]
                requires { part < 4 }
                ensures { result ≡ pad_part self.entry.now.cipher.key nonce.at nonce.counter part }
            { self.pad_words(nonce, part as u8) },
        );
        let [[w0, w1], [w2, w3], [w4, w5], [w6, w7]] = parts;
        [w0, w1, w2, w3, w4, w5, w6, w7]
    }
}
