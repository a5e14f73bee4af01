// The index of the child rows that have a self FID, and the directory of a FID found by it.
ghost use Rattle.std.specs.Prelude.{◌≡◌, ◌+◌, ◌*◌, ◌/◌, ◌≤◌, ◌<◌, ℕ, List, length};
ghost use Rattle.index.specs.Entries.{place_size, entries, sorted};
ghost use Rattle.names.specs.Rows.{Child, child_size, child_at, parse_children};
ghost use Rattle.names.specs.Visible.{directory};
ghost use Rattle.names.specs.Check.{max_rows};
ghost use Rattle.names_judge.specs.Listed.{child_numbers, is_row, listed_count, listed_bytes, Names, Indexed};

use fid::MdtFid;
use names::rows;
use names::rows::CHILD_SIZE;

// Puts row r in the index after n entries, if it has a self FID, and tells how many they are then.
pub fn put_row(index: &mut [u8], n: usize, r: u32, name: MdtFid) -> usize
    requires { (place_size * n + place_size ≤ length index.old) × (n ≤ max_rows) }
    ensures { (result ≡ listed_count name n) × (index.new ≡ listed_bytes name n r index.old) }
{
    if rows::is_none(name) {
        return n;
    }
    let f = name.0;
    index::put(index, n, f.seq, f.oid, r);
    n + 1
}

// Puts the rows up to `count` in the index, each under the FID that `name` gives it if that is one, and tells how many they are.
// A loop: how many were put so far says where the next one goes.
pub fn list_by<F: Fn(usize) -> MdtFid>(count: usize, index: &mut [u8], name: F) -> usize
    requires room { (count ≤ max_rows) × (place_size * count ≤ length index.old) }
    requires callable { (r : ℕ) → r < count → F.pre name r }
    ensures listed { (cs : List Child) → length cs ≡ count → Names (F.post name) cs → entries result index.new ≡ child_numbers cs }
    ensures few { result ≤ count }
{
    let mut n = 0usize;
    for r in 0..count {
        n = put_row(index, n, r as u32, name(r));
    }
    n
}

// The self FID of row r.
pub fn self_at(children: &[u8], r: usize) -> MdtFid
    requires { r < length children.now / child_size }
    ensures { result ≡ (child_at (parse_children children.now) r).self }
{
    rows::self_of(tables::rows::row_at(children, CHILD_SIZE, r))
}

// Puts the rows that have a self FID in the index, and tells how many they are.
pub fn list(children: &[u8], index: &mut [u8]) -> usize
    requires { (length children.now / child_size ≤ max_rows) × (place_size * (length children.now / child_size) ≤ length index.old) }
    ensures { (entries result index.new ≡ child_numbers (parse_children children.now)) × (result ≤ length children.now / child_size) }
{
    list_by(children.len() / CHILD_SIZE, index, |r| self_at(children, r))
}

// Whether row r is there and has the FID.
fn is_row(children: &[u8], r: u32, f: MdtFid) -> bool
    ensures { result ≡ is_row (parse_children children.now) f r }
{
    let k = r as usize;
    k < children.len() / CHILD_SIZE && self_at(children, k) == f
}

// The directory of a FID: the first row with it.
pub fn find(children: &[u8], index: &[u8], n: usize, f: MdtFid) -> Option<u32>
    requires { (length children.now / child_size ≤ max_rows) × (place_size * n ≤ length index.now) × (entries n index.now ≡ sorted (child_numbers (parse_children children.now))) }
    ensures { result ≡ directory (parse_children children.now) f }
{
    if rows::is_none(f) {
        return None;
    }
    let g = f.0;
    index::find_by(index, n, g.seq, g.oid, |r| is_row(children, r, f))
}

// Puts the rows that have a self FID in the index, in order, and tells how many they are. `room` is lent to work in.
pub fn index_rows(children: &[u8], index: &mut [u8], room: &mut [u8]) -> usize
    requires { (length children.now / child_size ≤ max_rows) × (place_size * (length children.now / child_size) ≤ length index.old) × (place_size * (length children.now / child_size) ≤ length room.old) }
    ensures { Indexed children.now index.new result }
{
    let n = list(children, index);
    index::sort(index, room, n);
    n
}
