use board::types::BoardFault;

// A board's fault, with the line in hand.
#[derive(Clone, Copy)]
pub struct LineFault {
    pub fault: BoardFault,
    pub line: usize,
}

// What meets a fault: the board, the tree of counters on the chip, or the controller.
#[derive(Clone, Copy, PartialEq, Eq, Debug)]
pub enum Layer {
    Board,
    Tree,
    Controller,
}

// Why the tree refuses a call.
#[derive(Clone, Copy)]
pub enum TreeFault {
    Board(LineFault),
    // a line whose tag is not right, or a node's line with a counter above the limit
    Corrupt(usize),
    // the counter to be raised is at the limit
    AtLimit(usize),
    // the restored counters miss the dirty sum
    SumMismatch,
}

// Why the controller refuses a call.
#[derive(Clone, Copy)]
pub enum Fault {
    Tree(TreeFault),
    // the address is no data address
    NotData(usize),
    // levels outside 1 to 4
    BadLevels,
    // slots outside 1 to 64
    BadSlots,
    // the board has fewer lines than the levels need
    TooFewLines,
    // the register is not one of a formatted board
    InvalidRegister,
    // the board was formatted before
    AlreadyFormatted,
    // the register has another suite's number
    OtherSuite,
    // more dirty nodes than slots
    TooManyDirty,
}

// What a writing call answers: the commits made, refused or not, and how it ended.
#[derive(Clone, Copy)]
pub struct Report {
    pub commits: u64,
    pub outcome: Result<(), Fault>,
}
