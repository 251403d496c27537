// The register by name.
use board::types::Line;

// One redo entry: a committed line and its address.
#[derive(Clone, Copy, PartialEq, Eq, Debug)]
pub struct Journal {
    pub at: u64,
    pub line: Line,
}

// The register's 32 words by name. They stay numbers: a register may hold any words, and each of them comes back.
#[derive(Clone, Copy, PartialEq, Eq, Debug)]
pub struct Register {
    pub formatted: u64,
    pub levels: u64,
    pub suite: u64,
    pub roots: [u64; 8],
    pub dirty_sum: u64,
    pub journal: Option<Journal>,
    pub dirty: [u64; 10],
}
