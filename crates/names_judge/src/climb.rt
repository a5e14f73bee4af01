// The climb from a directory by `..`, with what was found of each directory noted in the lent room.
ghost use Rattle.std.specs.Prelude.{◌≡◌, ◌+◌, ◌*◌, ◌/◌, ◌≤◌, ◌<◌, length, Some};
ghost use Rattle.index.specs.Entries.{place_size};
ghost use Rattle.names.specs.Rows.{child_size, parse_children};
ghost use Rattle.names.specs.Visible.{is_root, max_levels};
ghost use Rattle.names_judge.specs.Listed.{Indexed};
ghost use Rattle.names_judge.specs.Levels.{ended, Noted, one_more, within, ended_of, Few, look_row, look, noted};

use super::{Ended, Looked, listing};
use fid::{Fid, MdtFid};
use index::PLACE_SIZE;
use names::rows;
use names::rows::CHILD_SIZE;
use wire::Little;

// The levels that a climb may take.
pub const MAX_LEVELS: u32 = 4096;

const ROOT_SEQUENCE: u64 = 0x2_0000_0007;

// Whether a FID is ROOT's.
pub fn is_root(f: MdtFid) -> bool
    ensures { result ≡ is_root f }
{
    let root = Fid {
        seq: ROOT_SEQUENCE,
        oid: 1,
        ver: 0,
    };
    f == MdtFid(root)
}

// The end that a note tells.
fn told(note: u32) -> Ended
    requires { 1 ≤ note }
    ensures { result ≡ ended_of note }
{
    let m = note - 1;
    Some((m / 2, m % 2 == 1))
}

// An end, where the levels that are left allow it.
fn allowed(e: Ended, left: u32) -> Ended
    ensures { result ≡ within left e }
{
    let (levels, _) = e?;
    if left < levels {
        return None;
    }
    e
}

// What is seen at a row: its note, or else what it says.
fn look_row(children: &[u8], room: &[u8], r: u32) -> Looked
    requires { (r < length children.now / child_size) × (place_size * (length children.now / child_size) ≤ length room.now) }
    ensures { result ≡ look_row (parse_children children.now) room.now r }
{
    let k = r as usize;
    let note = wire::get::<u32, Little>(room, PLACE_SIZE * k);
    if note != 0 {
        return Looked::Told(told(note));
    }
    let row = tables::rows::row_at(children, CHILD_SIZE, k);
    if rows::link_len(row) != 0 {
        return Looked::Told(Some((0, true)));
    }
    let up = rows::up_of(row);
    if rows::is_none(up) {
        return Looked::Told(Some((0, false)));
    }
    Looked::Above(r, up)
}

// What is seen at a directory.
fn look_at(children: &[u8], index: &[u8], n: usize, room: &[u8], f: MdtFid) -> Looked
    requires { Indexed children.now index.now n × (place_size * (length children.now / child_size) ≤ length room.now) }
    ensures { result ≡ look (parse_children children.now) room.now f }
{
    if is_root(f) {
        return Looked::Told(Some((0, true)));
    }
    match listing::find(children, index, n, f) {
        None => Looked::Told(Some((0, false))),
        Some(r) => look_row(children, room, r),
    }
}

// Notes of row r how its climb ends.
fn put_note(room: &mut [u8], r: u32, d: u32, v: bool)
    requires { (place_size * r + place_size ≤ length room.old) × (d ≤ max_levels + 1) }
    ensures { room.new ≡ noted r (Some (d, v)) room.old }
{
    let k = r as usize;
    wire::put::<u32, Little>(room, PLACE_SIZE * k, 1 + 2 * d + u32::from(v));
}

// Notes of row r that its climb takes a level more than the one above.
fn note_row(room: &mut [u8], r: u32, above: Ended) -> Ended
    requires { (place_size * r + place_size ≤ length room.old) × Few max_levels above }
    ensures { (result ≡ one_more above) × (room.new ≡ noted r (one_more above) room.old) }
{
    let (levels, seen) = above?;
    put_note(room, r, levels + 1, seen);
    Some((levels + 1, seen))
}

// How the climb from a directory ends within the levels that are left: at the directory, or a level above it.
pub fn climb(
    children: &[u8],
    index: &[u8],
    n: usize,
    room: &mut [u8],
    f: MdtFid,
    left: u32,
) -> Ended
    requires { Indexed children.now index.now n × (place_size * (length children.now / child_size) ≤ length room.old) × Noted (parse_children children.now) room.old × (left ≤ max_levels) }
    ensures { (result ≡ ended left (parse_children children.now) f) × Noted (parse_children children.now) room.new }
{
    match look_at(children, index, n, room, f) {
        Looked::Told(e) => allowed(e, left),
        Looked::Above(r, up) => {
            if left == 0 {
                return None;
            }
            let above = climb(children, index, n, room, up, left - 1);
            note_row(room, r, above)
        }
    }
}
