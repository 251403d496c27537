// A state of AES as its four columns, the first byte of each highest. Clauses say `unpack` where they mean its bytes: a model
// that is seen as bytes alone is no plainer, since the rounds speak of the columns too.
ghost use Rattle.std.specs.Prelude.{◌≡◌};
ghost use Rattle.aes.specs.Aes.{xor_blocks};
ghost use Rattle.aes.specs.Columns.{unpack};

use std::ops::BitXor;

#[derive(Clone, Copy)]
pub struct Columns {
    pub c0: u32,
    pub c1: u32,
    pub c2: u32,
    pub c3: u32,
}

impl From<&[u8; 16]> for Columns {
    ghost from_gives = { λ block r. unpack r ≡ block.now };

    fn from(block: &[u8; 16]) -> Columns {
        let (words, _) = block.as_chunks::<4>();
        Columns {
            c0: u32::from_be_bytes(words[0]),
            c1: u32::from_be_bytes(words[1]),
            c2: u32::from_be_bytes(words[2]),
            c3: u32::from_be_bytes(words[3]),
        }
    }
}

impl From<Columns> for [u8; 16] {
    ghost from_gives = { λ s r. r ≡ unpack s };

    #[tactic(auto, unfolding(crate::specs::Columns::unpack))]
    fn from(s: Columns) -> [u8; 16] {
        let [a0, a1, a2, a3] = s.c0.to_be_bytes();
        let [b0, b1, b2, b3] = s.c1.to_be_bytes();
        let [c0, c1, c2, c3] = s.c2.to_be_bytes();
        let [d0, d1, d2, d3] = s.c3.to_be_bytes();
        [
            a0, a1, a2, a3, b0, b1, b2, b3, c0, c1, c2, c3, d0, d1, d2, d3,
        ]
    }
}

// AddRoundKey.
impl BitXor for Columns {
    type Output = Columns;

    ghost bitxor_gives = { λ s k r. unpack r ≡ xor_blocks (unpack s) (unpack k) };

    fn bitxor(self, k: Columns) -> Columns {
        Columns {
            c0: self.c0 ^ k.c0,
            c1: self.c1 ^ k.c1,
            c2: self.c2 ^ k.c2,
            c3: self.c3 ^ k.c3,
        }
    }
}
