#![tactic(auto)]

// Published test vectors of AES-128, AES-CMAC and SipHash-2-4, run.
#[cfg(test)]
mod tests {
    use aes::Aes128;
    use cmac::CmacKey;
    use sip::SipKey;
    use std::array;

    const EXAMPLE_KEY: u128 = 0x2b7e151628aed2a6abf7158809cf4f3c;

    const COUNTING_KEY: u128 = 0x000102030405060708090a0b0c0d0e0f;

    // FIPS 197, appendices B and C.1.
    #[test]
    fn aes_blocks(rt: HostRuntime) {
        let aes = Aes128::new(&EXAMPLE_KEY.to_be_bytes());
        let out = aes.encrypt(&0x3243f6a8885a308d313198a2e0370734u128.to_be_bytes());
        assert_eq!(rt;
            u128::from_be_bytes(out),
            0x3925841d02dc09fbdc118597196a0b32
        );
        let aes = Aes128::new(&COUNTING_KEY.to_be_bytes());
        let out = aes.encrypt(&0x00112233445566778899aabbccddeeffu128.to_be_bytes());
        assert_eq!(rt;
            u128::from_be_bytes(out),
            0x69c4e0d86a7b0430d8cdb78070b4c55a
        );
    }

    // SP 800-38B, the AES-128 examples: 0, 16, 40 and 64 bytes.
    #[test]
    fn cmac_tags(rt: HostRuntime) {
        let message = [
            0x6b, 0xc1, 0xbe, 0xe2, 0x2e, 0x40, 0x9f, 0x96, 0xe9, 0x3d, 0x7e, 0x11, 0x73, 0x93,
            0x17, 0x2a, 0xae, 0x2d, 0x8a, 0x57, 0x1e, 0x03, 0xac, 0x9c, 0x9e, 0xb7, 0x6f, 0xac,
            0x45, 0xaf, 0x8e, 0x51, 0x30, 0xc8, 0x1c, 0x46, 0xa3, 0x5c, 0xe4, 0x11, 0xe5, 0xfb,
            0xc1, 0x19, 0x1a, 0x0a, 0x52, 0xef, 0xf6, 0x9f, 0x24, 0x45, 0xdf, 0x4f, 0x9b, 0x17,
            0xad, 0x2b, 0x41, 0x7b, 0xe6, 0x6c, 0x37, 0x10,
        ];
        let key = CmacKey::new(&EXAMPLE_KEY.to_be_bytes());
        assert_eq!(rt;
            u128::from_be_bytes(key.tag(&message[0..0])),
            0xbb1d6929e95937287fa37d129b756746
        );
        assert_eq!(rt;
            u128::from_be_bytes(key.tag(&message[0..16])),
            0x070a16b46b4d4144f79bdd9dd04a287c
        );
        assert_eq!(rt;
            u128::from_be_bytes(key.tag(&message[0..40])),
            0xdfa66747de9ae63030ca32611497c827
        );
        assert_eq!(rt;
            u128::from_be_bytes(key.tag(&message)),
            0x51f0bebf7e3b9d92fc49741779363cfe
        );
    }

    // The bytes 0 to 63.
    fn counting() -> [u8; 64] {
        array::from_fn(|i| i as u8)
    }

    // The SipHash paper's example, of 15 bytes, and some of the authors' 64 reference vectors.
    #[test]
    fn sip_hashes(rt: HostRuntime) {
        let message = counting();
        let key = SipKey::new(&COUNTING_KEY.to_be_bytes());
        assert_eq!(rt; key.hash(&message[0..15]), 0xa129ca6149be45e5);
        assert_eq!(rt; key.hash(&message[0..0]), 0x726fdb47dd0e0e31);
        assert_eq!(rt; key.hash(&message[0..1]), 0x74f839c593dc67fd);
        assert_eq!(rt; key.hash(&message[0..7]), 0xab0200f58b01d137);
        assert_eq!(rt; key.hash(&message[0..8]), 0x93f5f5799a932462);
        assert_eq!(rt; key.hash(&message[0..16]), 0x3f2acc7f57c29bdb);
        assert_eq!(rt; key.hash(&message[0..63]), 0x958a324ceb064572);
    }
}
