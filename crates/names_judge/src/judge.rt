// The judging of the child rows: whether a climb is too long, and the mark of each row.
ghost use Rattle.std.specs.Prelude.{◌≡◌, cond, Ok, Err, ◌*◌, ◌/◌, ◌≤◌, ◌<◌, length};
ghost use Rattle.std.proofs.lemmas.List.Edits.{sets};
ghost use Rattle.refusals.specs.declared.Refusal.TheVariants.{LongClimb};
ghost use Rattle.index.specs.Entries.{place_size};
ghost use Rattle.names.specs.Rows.{child_size, parse_children, child_at};
ghost use Rattle.names.specs.Check.{max_rows};
ghost use Rattle.names.specs.Visible.{max_levels, climbs_too_long, too_long, climb_mark, mark_of, judged};
ghost use Rattle.names_judge.specs.Listed.{Indexed};
ghost use Rattle.names_judge.specs.Levels.{climbed_of, Noted, Blank};

use super::climb::MAX_LEVELS;
use super::{Ended, climb, listing};
use index::PLACE_SIZE;
use names::rows;
use names::rows::CHILD_SIZE;
use refusals::Refusal;

// The mark of a hidden directory, of a visible one, and of a row without self FID.
pub const HIDDEN: u64 = 0;

pub const VISIBLE: u64 = 1;

pub const NO_SELF: u64 = 2;

// Makes the first notes of the room blank.
fn clear(room: &mut [u8], count: usize)
    requires { place_size * count ≤ length room.old }
    ensures { Blank count room.new }
{
    room[..PLACE_SIZE * count].fill(0);
}

// The mark of a directory by how its climb ends.
fn end_mark(e: Ended) -> u64
    ensures { result ≡ climb_mark (climbed_of e) }
{
    match e {
        Some((_, true)) => VISIBLE,
        Some((_, false)) => HIDDEN,
        None => HIDDEN,
    }
}

// Whether the climb of row r is too long.
fn row_too_long(children: &[u8], index: &[u8], n: usize, room: &mut [u8], r: usize) -> bool
    requires { Indexed children.now index.now n × (place_size * (length children.now / child_size) ≤ length room.old) × Noted (parse_children children.now) room.old × (r < length children.now / child_size) }
    ensures { (result ≡ climbs_too_long max_levels (parse_children children.now) (child_at (parse_children children.now) r)) × Noted (parse_children children.now) room.new }
{
    let name = rows::self_of(tables::rows::row_at(children, CHILD_SIZE, r));
    if rows::is_none(name) {
        return false;
    }
    climb::climb(children, index, n, room, name, MAX_LEVELS).is_none()
}

// The mark of row r.
fn row_mark(children: &[u8], index: &[u8], n: usize, room: &mut [u8], r: usize) -> u64
    requires { Indexed children.now index.now n × (place_size * (length children.now / child_size) ≤ length room.old) × Noted (parse_children children.now) room.old × (r < length children.now / child_size) }
    ensures { (result ≡ mark_of max_levels (parse_children children.now) (child_at (parse_children children.now) r)) × Noted (parse_children children.now) room.new }
{
    let name = rows::self_of(tables::rows::row_at(children, CHILD_SIZE, r));
    if rows::is_none(name) {
        return NO_SELF;
    }
    end_mark(climb::climb(children, index, n, room, name, MAX_LEVELS))
}

// Whether the climb of a row is too long.
// A loop: each climb reads the notes that the ones before it wrote in the room.
fn some_too_long(children: &[u8], index: &[u8], n: usize, room: &mut [u8]) -> bool
    requires { Indexed children.now index.now n × (place_size * (length children.now / child_size) ≤ length room.old) × Noted (parse_children children.now) room.old }
    ensures { (result ≡ too_long max_levels (parse_children children.now)) × Noted (parse_children children.now) room.new }
{
    let count = children.len() / CHILD_SIZE;
    for r in 0..count {
        if row_too_long(children, index, n, room, r) {
            return true;
        }
    }
    false
}

// Writes the mark of every row.
fn put_marks(children: &[u8], index: &[u8], n: usize, room: &mut [u8], marks: &mut [u64])
    requires { Indexed children.now index.now n × (place_size * (length children.now / child_size) ≤ length room.old) × Noted (parse_children children.now) room.old × (length children.now / child_size ≤ length marks.old) }
    ensures { marks.new ≡ sets marks.old 0 (judged max_levels (parse_children children.now)) }
{
    let count = children.len() / CHILD_SIZE;
    for (r, mark) in marks[..count].iter_mut().enumerate() {
        *mark = row_mark(children, index, n, room, r);
    }
}

// Judges the child rows: the marks are written, unless a climb is too long. Index and room are lent to work in.
pub fn judge_rows(
    children: &[u8],
    index: &mut [u8],
    room: &mut [u8],
    marks: &mut [u64],
) -> Result<(), Refusal>
    requires { (length children.now / child_size ≤ max_rows) × (place_size * (length children.now / child_size) ≤ length index.old) × (place_size * (length children.now / child_size) ≤ length room.old) × (length children.now / child_size ≤ length marks.old) }
    ensures { (result ≡ cond (too_long max_levels (parse_children children.now)) (Err LongClimb) (Ok tt)) × (marks.new ≡ cond (too_long max_levels (parse_children children.now)) marks.old (sets marks.old 0 (judged max_levels (parse_children children.now)))) }
{
    let count = children.len() / CHILD_SIZE;
    let n = listing::index_rows(children, index, room);
    clear(room, count);
    if some_too_long(children, index, n, room) {
        return Err(Refusal::LongClimb);
    }
    put_marks(children, index, n, room, marks);
    Ok(())
}
