// The two keys of a suite.
#[derive(Clone, Copy)]
pub struct KeyPair {
    pub mac: [u8; 16],
    pub pad: [u8; 16],
}
