// The exports of the archive: each calls the function of its name in capi, with the same clauses.
#![tactic(auto)]

pub mod classes;
pub mod input;
pub mod intakes;
pub mod keepers;
pub mod layouts;
pub mod links;
pub mod namespaces;
pub mod runs;
pub mod step_writes;
