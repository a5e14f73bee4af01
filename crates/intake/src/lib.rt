// What is taken of a dump of attributes.
#![tactic(auto)]

// The attributes that are taken, and all others.
#[derive(Clone, Copy, Debug, PartialEq, Eq)]
pub enum Kind {
    Lov,
    Fid,
    Lma,
    Other,
}
