// A line: eight words of body and a tag.
#[derive(Clone, Copy, PartialEq, Eq, Debug)]
pub struct Line {
    pub body: [u64; 8],
    pub tag: u64,
}

// Why a board refuses a call.
#[derive(Clone, Copy, PartialEq, Eq, Debug)]
pub enum BoardFault {
    // the address is not below the number of lines
    Absent,
    // no power is left for a write
    PowerLost,
}
