// The check of entry rows and child rows, and the findings of each entry.
#![tactic(auto)]

pub mod calls;
pub mod check;
pub mod finding;
pub mod links;
