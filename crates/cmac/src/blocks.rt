// Blocks of 16 bytes.
ghost use Rattle.std.specs.Prelude.{◌≡◌, ◌*◌, ◌<◌, ◌≤◌, length, drop};
ghost use Rattle.aes.specs.Aes.{xor_blocks};
ghost use Rattle.cmac.specs.Cmac.{shifted, doubled, padded, before_last};

use std::array;

// Two blocks added byte by byte.
pub(crate) fn xor(a: &[u8; 16], b: &[u8; 16]) -> [u8; 16]
    ensures { result ≡ xor_blocks a.now b.now }
{
    array::from_fn(|i| a[i] ^ b[i])
}

// A block shifted left by one bit.
fn shifted(b: &[u8; 16]) -> [u8; 16]
    ensures { result ≡ shifted b.now }
{
    array::from_fn(|i| b[i] % 128 * 2 + b.get(i + 1).copied().unwrap_or(0) / 128)
}

// The subkey after b.
pub(crate) fn doubled(b: &[u8; 16]) -> [u8; 16]
    ensures { result ≡ doubled b.now }
{
    let mut next = shifted(b);
    if b[0] >= 128 {
        next[15] ^= 0x87;
    }
    next
}

// How many blocks stand before the last one.
pub(crate) fn before_last(message: &[u8]) -> usize
    ensures { result ≡ before_last message.now }
{
    message.len().saturating_sub(1) / 16
}

// The last block of a message, of at most 16 bytes.
pub(crate) fn tail(message: &[u8]) -> &[u8]
    ensures { (result.now ≡ drop (16 * before_last message.now) message.now) × (length result.now ≤ 16) }
{
    &message[16 * before_last(message)..]
}

// A short block padded by a bit 1 and zeros.
pub(crate) fn padded(rest: &[u8]) -> [u8; 16]
    requires { length rest.now < 16 }
    ensures { result ≡ padded rest.now }
{
    let mut out = [0; 16];
    out[..rest.len()].copy_from_slice(rest);
    out[rest.len()] = 0x80;
    out
}
