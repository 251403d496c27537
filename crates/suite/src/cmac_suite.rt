ghost use Rattle.std.specs.Prelude.{◌≡◌};
ghost use Rattle.suite.specs.Suites.{cmac_scheme};
ghost use Rattle.std.proofs.Common.{rules};

use crate::message::{message, word_of};
use crate::nonce::Nonce;
use crate::suite::{MAC_BOUND, Suite};
use cmac::CmacKey;

// Suite 2: AES-CMAC macs, pads of zeros.
#[derive(Clone, Copy)]
pub struct CmacSuite {
    cmac: CmacKey,
}

impl CmacSuite {
    pub fn new(mac_key: &[u8; 16]) -> CmacSuite
        ensures { result.cmac.aes.key ≡ mac_key.now }
    {
        CmacSuite {
            cmac: CmacKey::new(mac_key),
        }
    }
}

impl Suite for CmacSuite {
    const NUMBER: u64 = 2;

    ghost NUMBER = { 2 };

    ghost scheme = { λ s. cmac_scheme s.cmac.aes.key };

    ghost named = { Prim.search rules };

    ghost low = { Prim.search rules };

    ghost high = { Prim.search rules };

    ghost small = { Prim.search rules };

    fn mac(&self, nonce: Nonce, words: &[u64; 8]) -> u64 {
        word_of(&self.cmac.tag(message(nonce, words).as_flattened()), 0) % MAC_BOUND
    }

    fn pad(&self, _nonce: Nonce) -> [u64; 8] {
        [0; 8]
    }
}
