use text::types::KeyPair;

// What a script sets up before its steps. K is what the caller names its suites by: their numbers, unless it says
// otherwise. A fuse of none never burns out.
#[derive(Clone, Copy)]
pub struct Header<K = u64> {
    pub levels: u64,
    pub slots: u64,
    pub suite: K,
    pub keys: KeyPair,
    pub fuse: Option<u64>,
}

// One step of a script.
#[derive(Clone, Copy, PartialEq, Eq, Debug)]
pub enum Step {
    // read the line at an address
    Read(u64),
    // write a body whose word 0 is given and whose rest is 0
    Write(u64, u64),
    Flush,
    // shut down and bring up
    Restart,
    // the same, with the fuse set anew between the two
    Recharge(Option<u64>),
    // keep a copy of the line at an address
    Copy(u64),
    // put the copy at an address, past the fuse
    Put(u64),
}

// What is printed of a step. Results and layers are numbers, as the columns are printed: this crate has no type of
// faults.
#[derive(Clone, Copy)]
pub struct Row {
    pub step: u64,
    pub result: u64,
    pub layer: u64,
    pub at: u64,
    pub value: u64,
    pub commits: u64,
    pub ahead: u64,
    pub total: u64,
}
