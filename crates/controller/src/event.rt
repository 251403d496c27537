use crate::types::Fault;
use board::types::Line;

// One thing that happens to an open board in a script.
#[derive(Clone, Copy)]
pub enum Event {
    // the body at an address is read
    Read(usize),
    // a body is written at an address
    Write(usize, [u64; 8]),
    Flush,
    // the board is shut down and brought up
    Restart,
    // the board is shut down, its power set anew, and brought up
    Recharge(Option<u64>),
    // a line is put in place from outside
    Tamper(usize, Line),
}

// What came of an event.
#[derive(Clone, Copy)]
pub enum Reply {
    Body([u64; 8]),
    // done, with the commits made
    Done(u64),
    // refused, with the commits made
    Refused(Fault, u64),
    // whether the line from outside was put in place: if not, the board has no such line
    Put(bool),
}
