// What sets one sealing apart from every other: the address of the line, and its counter.
#[derive(Clone, Copy, PartialEq, Eq, Debug)]
pub struct Nonce {
    pub at: u64,
    pub counter: u64,
}
