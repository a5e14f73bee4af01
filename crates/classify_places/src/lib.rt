// Headers by class, and the places that an object can have.
#![tactic(auto)]

pub mod headers;
pub mod places;
