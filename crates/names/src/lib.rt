// Names against objects: entry rows and child rows, what is found of each entry, and how a climb from a directory ends.
#![tactic(auto)]

ghost use Rattle.std.specs.Prelude.{◌≡◌};
ghost use Rattle.names.specs.Findings.{fid_number, link_number};

pub mod rows;

// What an entry's FID-in-dirent and its child's self FID say together.
#[derive(Clone, Copy, Debug, PartialEq, Eq)]
pub enum FidFinding {
    FidAgrees,
    NoDirentFid,
    FidDiffers,
    NoSelfFid,
    NeitherFid,
}

impl FidFinding {
    // Its number.
    pub fn number(self) -> u64
        ensures { result ≡ fid_number self }
    {
        match self {
            FidFinding::FidAgrees => 0,
            FidFinding::NoDirentFid => 1,
            FidFinding::FidDiffers => 2,
            FidFinding::NoSelfFid => 3,
            FidFinding::NeitherFid => 4,
        }
    }
}

// Whether the child has the record of an entry.
#[derive(Clone, Copy, Debug, PartialEq, Eq)]
pub enum LinkFinding {
    RecordThere,
    NoRecord,
}

impl LinkFinding {
    // Its number.
    pub fn number(self) -> u64
        ensures { result ≡ link_number self }
    {
        match self {
            LinkFinding::RecordThere => 0,
            LinkFinding::NoRecord => 1,
        }
    }
}

// How a climb from a directory ends.
#[derive(Clone, Copy, Debug, PartialEq, Eq)]
pub enum Climbed {
    TooLong,
    Hidden,
    Visible,
}
