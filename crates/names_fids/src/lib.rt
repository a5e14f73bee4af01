// What is noted of each entry's directory, and the sweeps that mend FIDs.
#![tactic(auto)]

pub mod dirents;
pub mod notes;
pub mod selves;
