// The linkEA of a child changed in its row: a record appended, and records taken out.
#![tactic(auto)]

pub mod append;
pub mod keep;
pub mod room;
