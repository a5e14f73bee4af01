// Which directories are visible: the index of the child rows by FID, and the climb.
#![tactic(auto)]

pub mod calls;
pub mod climb;
pub mod judge;
pub mod listing;

use fid::MdtFid;

// How a climb ends: None where not within its levels, else after how many levels, and whether in sight.
pub type Ended = Option<(u32, bool)>;

// What is seen at a directory: how every climb from it ends, or its row and the directory above. Neither is an error, so no Result.
#[derive(Clone, Copy, Debug, PartialEq, Eq)]
pub enum Looked {
    Told(Ended),
    Above(u32, MdtFid),
}
