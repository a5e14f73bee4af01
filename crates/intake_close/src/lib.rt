// The line that closes an entry: its owner, and the row that it fills.
#![tactic(auto)]

pub mod closing;
pub mod filled;
pub mod owners;
