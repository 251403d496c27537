// The controller of a board of untrusted memory: cold and open boards and their calls.
#![tactic(auto)]

mod bring_up;
pub mod chip;
pub mod cold;
mod commit;
mod counters;
pub mod event;
mod evict;
pub mod faults;
mod format;
mod latch;
pub mod open;
pub mod outside;
mod restore;
pub mod script;
pub mod types;
mod view;
mod write;
