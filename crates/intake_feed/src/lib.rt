// A dump taken in piece by piece.
#![tactic(auto)]

pub mod feeding;
pub mod lines;
