// AES-CMAC (NIST SP 800-38B) of a message of any length.
#![tactic(auto)]

mod blocks;

ghost use Rattle.std.specs.Prelude.{◌≡◌, ◌≤◌, length};
ghost use Rattle.aes.specs.Aes.{aes128};
ghost use Rattle.cmac.specs.Cmac.{cmac, chained, before_last, subkey1, last_block};

use crate::blocks::{before_last, doubled, padded, tail, xor};
use aes::Aes128;

// A key of AES-CMAC, with its first subkey.
#[derive(Clone, Copy)]
pub struct CmacKey {
    aes: Aes128,
    k1: [u8; 16],
    ghost subkey: { k1 ≡ subkey1 (aes128 aes.key) },
}

impl CmacKey {
    pub fn new(key: &[u8; 16]) -> CmacKey
        ensures { result.aes.key ≡ key.now }
    {
        let aes = Aes128::new(key);
        let k1 = doubled(&aes.encrypt(&[0; 16]));
        CmacKey { aes, k1 }
    }

    // The chain after the blocks before the last.
    fn chain(&self, message: &[u8]) -> [u8; 16]
        ensures { result ≡ chained (aes128 self.now.aes.key) message.now (before_last message.now) }
    {
        let (blocks, _) = message.as_chunks::<16>();
        let mut chain = [0; 16];
        for block in &blocks[..before_last(message)] {
            chain = self.aes.encrypt(&xor(&chain, block));
        }
        chain
    }

    // The last block, complete or padded, with its subkey.
    fn last_block(&self, rest: &[u8]) -> [u8; 16]
        requires { length rest.now ≤ 16 }
        ensures { result ≡ last_block (aes128 self.now.aes.key) rest.now }
    {
        match rest.as_array() {
            Some(block) => xor(block, &self.k1),
            None => xor(&padded(rest), &doubled(&self.k1)),
        }
    }

    // The tag of a message under this key.
    pub fn tag(&self, message: &[u8]) -> [u8; 16]
        ensures { result ≡ cmac (aes128 self.now.aes.key) message.now }
    {
        let last = self.last_block(tail(message));
        self.aes.encrypt(&xor(&self.chain(message), &last))
    }
}
