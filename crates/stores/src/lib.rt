// Rows written in place in the lent tables: what the repairs write.
#![tactic(auto)]

pub mod files;
pub mod objects;
pub mod parents;
pub mod pieces;
