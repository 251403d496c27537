// A message as words of eight bytes, lowest byte first.
ghost use Rattle.std.specs.Prelude.{◌≡◌};
ghost use Rattle.sip.specs.Sip.{last_word};

// The word after the whole ones: the bytes left, with the length modulo 256 highest.
pub(crate) fn last_word(message: &[u8]) -> u64
    ensures { result ≡ last_word message.now }
{
    let (_, rest) = message.as_chunks::<8>();
    let mut word = 0;
    for byte in rest.iter().rev() {
        word = word * 256 + u64::from(*byte);
    }
    word + (message.len() as u64 % 256) * 0x0100_0000_0000_0000
}
