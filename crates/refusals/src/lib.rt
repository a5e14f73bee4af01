// Why a call is refused or a run stops, and the number that tells it: one list for every crate.
#![tactic(auto)]

ghost use Rattle.std.specs.Prelude.{◌≡◌};
ghost use Rattle.refusals.specs.Numbers.{number, answer};

use std::fmt;

// Document 01, "What comes back", from 11 on; then document 02: 31 linkEA values, 33 to 37 dumps, 38 and 39 names.
#[derive(Clone, Copy, Debug, PartialEq, Eq)]
pub enum Refusal {
    BadTable,
    BadPolicy,
    BadLayout,
    BadFid,
    FidTwice,
    NoPlace,
    TooShort,
    NoReserve,
    NoObjectRow,
    NoParentRow,
    BadLink,
    BadDump,
    AttributeTwice,
    NoSelf,
    NoKind,
    NoFit,
    LinkFull,
    LongClimb,
}

impl Refusal {
    // Its number.
    pub fn number(self) -> u32
        ensures { result ≡ number self }
    {
        match self {
            Refusal::BadTable => 11,
            Refusal::BadPolicy => 12,
            Refusal::BadLayout => 13,
            Refusal::BadFid => 14,
            Refusal::FidTwice => 15,
            Refusal::NoPlace => 16,
            Refusal::TooShort => 17,
            Refusal::NoReserve => 21,
            Refusal::NoObjectRow => 22,
            Refusal::NoParentRow => 23,
            Refusal::BadLink => 31,
            Refusal::BadDump => 33,
            Refusal::AttributeTwice => 34,
            Refusal::NoSelf => 35,
            Refusal::NoKind => 36,
            Refusal::NoFit => 37,
            Refusal::LinkFull => 38,
            Refusal::LongClimb => 39,
        }
    }
}

// The number that a call answers: 0, or that of its refusal.
pub fn answer(done: Result<(), Refusal>) -> u32
    ensures { result ≡ answer done }
{
    match done {
        Ok(()) => 0,
        Err(refusal) => refusal.number(),
    }
}

impl fmt::Display for Refusal {
    fn fmt<W: fmt::Write>(&self, f: &mut fmt::Formatter<W>) -> fmt::Result {
        write!(f, "{}", self.number())
    }
}
