// The steps of SipHash on its state.
ghost use Rattle.std.specs.Prelude.{◌≡◌};
ghost use Rattle.sip.specs.Sip.{sip_round, compress, start, finish};

use crate::state::SipState;

impl SipState {
    #[tactic(auto, unfolding(crate::specs::Sip::sip_round))]
    fn round(self) -> SipState
        ensures { result ≡ sip_round self }
    {
        let v0 = self.v0.wrapping_add(self.v1);
        let v2 = self.v2.wrapping_add(self.v3);
        let v1 = self.v1.rotate_left(13) ^ v0;
        let v3 = self.v3.rotate_left(16) ^ v2;
        let v0 = v0.rotate_left(32).wrapping_add(v3);
        let v2 = v2.wrapping_add(v1);
        let v1 = v1.rotate_left(17) ^ v2;
        let v3 = v3.rotate_left(21) ^ v0;
        SipState {
            v0,
            v1,
            v2: v2.rotate_left(32),
            v3,
        }
    }

    // The state before the first word.
    pub(crate) fn start(key: &[u8; 16]) -> SipState
        ensures { result ≡ start key.now }
    {
        let (words, _) = key.as_chunks::<8>();
        let k0 = u64::from_le_bytes(words[0]);
        let k1 = u64::from_le_bytes(words[1]);
        SipState {
            v0: k0 ^ 0x736f_6d65_7073_6575,
            v1: k1 ^ 0x646f_7261_6e64_6f6d,
            v2: k0 ^ 0x6c79_6765_6e65_7261,
            v3: k1 ^ 0x7465_6462_7974_6573,
        }
    }

    // The state after one more word.
    #[tactic(auto, unfolding(crate::specs::Sip::compress))]
    pub(crate) fn compress(self, word: u64) -> SipState
        ensures { result ≡ compress self word }
    {
        let s = SipState {
            v3: self.v3 ^ word,
            ..self
        };
        let s = s.round().round();
        SipState {
            v0: s.v0 ^ word,
            ..s
        }
    }

    // The hash, after the last word.
    #[tactic(auto, unfolding(crate::specs::Sip::finish))]
    pub(crate) fn finish(self) -> u64
        ensures { result ≡ finish self }
    {
        let s = SipState {
            v2: self.v2 ^ 0xff,
            ..self
        };
        let s = s.round().round().round().round();
        (s.v0 ^ s.v1) ^ (s.v2 ^ s.v3)
    }
}
