// What C calls, as functions on numbers and lent slices: capi_c exports them.
#![tactic(auto)]

pub mod classes;
pub mod input;
pub mod intakes;
pub mod keepers;
pub mod layouts;
pub mod links;
pub mod namespaces;
pub mod runs;
pub mod step_writes;
