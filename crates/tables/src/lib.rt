// The lent tables: parent rows, object rows and the reserve.
#![tactic(auto)]

pub mod rows;

use fid::{MdtFid, OstFid};

// The uid and gid of a file or an object.
#[derive(Clone, Copy, PartialEq, Eq)]
pub struct Owner {
    pub uid: u32,
    pub gid: u32,
}

// Where a slot stands: its file and its stripe index.
#[derive(Clone, Copy)]
pub struct Place {
    pub file: MdtFid,
    pub index: u32,
}

// What a used object row says; the claim is the place that it says is its own, if any.
#[derive(Clone, Copy)]
pub struct Object {
    pub fid: OstFid,
    pub ost: u32,
    pub owner: Owner,
    pub claim: Option<Place>,
    pub fresh: bool,
}

// Stage, row and part of a step; the end is 3, 0, 0.
#[derive(Clone, Copy)]
pub struct Position {
    pub stage: u64,
    pub row: u64,
    pub part: u64,
}
