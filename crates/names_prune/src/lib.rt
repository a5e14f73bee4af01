// Sweep 4: records without an entry of their child, and later repeats, are removed.
#![tactic(auto)]

pub mod by_child;
pub mod prune;
pub mod records;
