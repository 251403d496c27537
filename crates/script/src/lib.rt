// The text of a bench script: its header, its steps, and the rows that are printed of them.
#![tactic(auto)]

pub mod header;
pub mod row;
pub mod step;
#[cfg(test)]
mod tests;
pub mod types;
