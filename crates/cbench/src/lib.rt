// The ciphers as C functions, for the benchmark driver: each result feeds the next turn, so that no turn can be left out.
#![tactic(auto)]

pub mod types;

ghost use Rattle.std.specs.Prelude.{◌≡◌, ◌++◌, drop};
ghost use Rattle.aes.specs.Aes.{aes128};
ghost use Rattle.sip.specs.Sip.{siphash24};
ghost use Rattle.cbench.specs.Turns.{turned, tagged};

use crate::types::{Block, Message};
use aes::Aes128;
use cmac::CmacKey;
use sip::SipKey;

// A block encrypted again and again.
#[unsafe(no_mangle)]
pub extern "C" fn cbench_aes(key: &Block, block: &mut Block, turns: u64)
    ensures { block.new.bytes ≡ turned (aes128 key.now.bytes) turns block.old.bytes }
{
    let aes = Aes128::new(&key.bytes);
    let again = |bytes: [u8; 16], _turn: u64|
        ensures { result ≡ aes128 aes.key bytes }
    { aes.encrypt(&bytes) };
    block.bytes = (0..turns).fold(block.bytes, again);
}

// A message with its tag in place of its first bytes.
fn tagged(cmac: &CmacKey, mut message: [u8; 80]) -> [u8; 80]
    ensures { result ≡ tagged cmac.now.aes.key message }
{
    let tag = cmac.tag(&message);
    message[..16].copy_from_slice(&tag);
    message
}

// A message whose first block becomes its tag, again and again.
#[unsafe(no_mangle)]
pub extern "C" fn cbench_cmac(key: &Block, message: &mut Message, turns: u64)
    ensures { message.new.bytes ≡ turned (tagged key.now.bytes) turns message.old.bytes }
{
    let cmac = CmacKey::new(&key.bytes);
    let again = |bytes: [u8; 80], _turn: u64|
        ensures { result ≡ tagged cmac.aes.key bytes }
    { tagged(&cmac, bytes) };
    message.bytes = (0..turns).fold(message.bytes, again);
}

// The hash of a message.
#[unsafe(no_mangle)]
pub extern "C" fn cbench_sip(key: &Block, message: &Message) -> u64
    ensures { result ≡ siphash24 key.now.bytes message.now.bytes }
{
    SipKey::new(&key.bytes).hash(&message.bytes)
}
