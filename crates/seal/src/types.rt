use board::types::Line;
use suite::nonce::Nonce;

// What a line holds: a body, or a node's counters.
#[derive(Clone, Copy)]
pub enum Kind {
    Data,
    Node,
}

// One thing that is asked for.
#[derive(Clone, Copy)]
pub enum Item {
    Seal {
        kind: Kind,
        nonce: Nonce,
        body: [u64; 8],
    },
    Open {
        kind: Kind,
        nonce: Nonce,
        line: Line,
    },
}

// What an item is answered by.
#[derive(Clone, Copy)]
pub enum Answer {
    Sealed(Line),
    Opened([u64; 8]),
    Corrupt,
}
