// The directories under marks: listed in the index, and found by it.
ghost use Rattle.std.specs.Prelude.{◌≡◌, ◌*◌, ◌/◌, ◌≤◌, ◌<◌, length};
ghost use Rattle.index.specs.Entries.{place_size, entries};
ghost use Rattle.names.specs.Rows.{child_size, child_at, parse_children};
ghost use Rattle.names.specs.Check.{max_rows};
ghost use Rattle.names.specs.Visible.{directory, seen_by};
ghost use Rattle.names_judge.specs.Listed.{child_numbers, is_row};
ghost use Rattle.names_marks.specs.Directories.{self_under, directories, IndexedUnder};

use fid::{Fid, MdtFid};
use names::rows;
use names::rows::CHILD_SIZE;
use names_judge::judge::{NO_SELF, VISIBLE};
use names_judge::{climb, listing};

// The self FID of a row that is a directory under its mark, else none.
fn self_under(mark: u64, f: MdtFid) -> MdtFid
    ensures { result ≡ self_under mark f }
{
    if mark < NO_SELF {
        return f;
    }
    MdtFid(Fid::ZERO)
}

// The self FID of row r, if it is a directory under its mark, else none.
fn marked_at(children: &[u8], marks: &[u64], r: usize) -> MdtFid
    requires { (length marks.now ≡ length children.now / child_size) × (r < length children.now / child_size) }
    ensures { result ≡ (child_at (directories marks.now (parse_children children.now)) r).self }
{
    self_under(marks[r], listing::self_at(children, r))
}

// Puts the rows that are directories under the marks in the index, and tells how many they are.
fn list(children: &[u8], marks: &[u64], index: &mut [u8]) -> usize
    requires { (length children.now / child_size ≤ max_rows) × (length marks.now ≡ length children.now / child_size) × (place_size * (length children.now / child_size) ≤ length index.old) }
    ensures { (entries result index.new ≡ child_numbers (directories marks.now (parse_children children.now))) × (result ≤ length children.now / child_size) }
{
    let count = children.len() / CHILD_SIZE;
    listing::list_by(count, index, |r| marked_at(children, marks, r))
}

// Puts them in order.
pub fn index_marked(children: &[u8], marks: &[u64], index: &mut [u8], room: &mut [u8]) -> usize
    requires { (length children.now / child_size ≤ max_rows) × (length marks.now ≡ length children.now / child_size) × (place_size * (length children.now / child_size) ≤ length index.old) × (place_size * (length children.now / child_size) ≤ length room.old) }
    ensures { IndexedUnder children.now marks.now index.new result }
{
    let n = list(children, marks, index);
    index::sort(index, room, n);
    n
}

// Whether row r is there, and is the directory of a FID under its mark.
fn is_marked(children: &[u8], marks: &[u64], r: u32, f: MdtFid) -> bool
    requires { length marks.now ≡ length children.now / child_size }
    ensures { result ≡ is_row (directories marks.now (parse_children children.now)) f r }
{
    let k = r as usize;
    k < children.len() / CHILD_SIZE && marked_at(children, marks, k) == f
}

// The directory of a FID under the marks.
fn find(children: &[u8], marks: &[u64], index: &[u8], n: usize, f: MdtFid) -> Option<u32>
    requires { IndexedUnder children.now marks.now index.now n }
    ensures { result ≡ directory (directories marks.now (parse_children children.now)) f }
{
    if rows::is_none(f) {
        return None;
    }
    let g = f.0;
    index::find_by(index, n, g.seq, g.oid, |r| is_marked(children, marks, r, f))
}

// Whether a directory is visible under the marks.
pub fn seen(children: &[u8], marks: &[u64], index: &[u8], n: usize, f: MdtFid) -> bool
    requires { IndexedUnder children.now marks.now index.now n }
    ensures { result ≡ seen_by marks.now (parse_children children.now) f }
{
    if climb::is_root(f) {
        return true;
    }
    match find(children, marks, index, n, f) {
        None => false,
        Some(r) => marks[r as usize] == VISIBLE,
    }
}
