// Boards: lines of nine words, a register of 32 words, and the power to write them.
#![tactic(auto)]

pub mod board;
pub mod fuse;
pub mod memory;
pub mod tamper;
#[cfg(test)]
mod tests;
pub mod types;
pub mod window;
