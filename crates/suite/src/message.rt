ghost use Rattle.std.specs.Prelude.{◌≡◌, ◌+◌, ◌≤◌, take, drop};
ghost use Rattle.std.specs.List.{flat_map};
ghost use Rattle.sip.specs.Sip.{le};
ghost use Rattle.suite.specs.Words.{row};
ghost use Rattle.suite.specs.Message.{message as sealed_message, pad_block, word_bytes};

use crate::nonce::Nonce;

// The message that a mac covers, as the bytes of its ten words: the address, the eight words, the counter.
pub(crate) fn message(nonce: Nonce, words: &[u64; 8]) -> [[u8; 8]; 10]
    ensures { flat_map (λ bytes. bytes) result ≡ sealed_message nonce.at (row words.now) nonce.counter }
{
    let [w0, w1, w2, w3, w4, w5, w6, w7] = *words;
    [nonce.at, w0, w1, w2, w3, w4, w5, w6, w7, nonce.counter].map(u64::to_le_bytes)
}

// The block from which part `part` of a pad is made.
pub(crate) fn pad_block(nonce: Nonce, part: u8) -> [u8; 16]
    ensures { result ≡ pad_block nonce.at nonce.counter part }
{
    let [a0, a1, a2, a3, a4, a5, a6, a7] = nonce.at.to_le_bytes();
    let [c0, c1, c2, c3, c4, c5, _, _] = nonce.counter.to_le_bytes();
    [
        a0, a1, a2, a3, a4, a5, a6, a7, c0, c1, c2, c3, c4, c5, part, 0,
    ]
}

// The word of eight bytes of a block, lowest byte first.
pub(crate) fn word_of(block: &[u8; 16], at: usize) -> u64
    requires { at + 8 ≤ 16 }
    ensures { result ≡ le (take 8 (drop at block.now)) }
{
    u64::from_le_bytes(*block[at..].first_chunk().unwrap())
}
