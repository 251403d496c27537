// The tree of counters on the chip: the dirty map, and the slots of the dirty nodes.
#![tactic(auto)]

pub mod changes;
pub mod counters;
pub mod dirty_map;
pub mod slots;
pub mod types;
