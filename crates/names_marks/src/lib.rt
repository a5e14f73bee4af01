// The mending under marks: whether they fit the rows, and which directories they make visible.
#![tactic(auto)]

pub mod fit;
pub mod marked;
