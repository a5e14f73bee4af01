// Positions: which exist, the first and the next, and the count of steps.
#![tactic(auto)]

ghost use Rattle.std.specs.Prelude.{◌≡◌, true, ◌/◌, ◌≤◌, ◌<◌, length};
ghost use Rattle.tables.specs.Bytes.{parent_size, object_size, parse_parent, parse, parse_parents, parse_objects};
ghost use Rattle.tables.specs.Positions.{slots_of, width, in_stage_one, in_stage_two, is_end, is_position, place, from_object, from_parent, start, after_part, next, row_steps, count_steps};
ghost use Rattle.tables.specs.Check.{when_used, max_parents, good_layout, good_layouts, Sound};

use tables::rows::{OBJECT_SIZE, PARENT_SIZE};
use tables::{Position, rows};

// The number of parent rows.
pub fn parent_count(parents: &[u8]) -> usize
    ensures { result ≡ length parents.now / parent_size }
{
    parents.len() / PARENT_SIZE
}

// The number of object rows.
pub fn object_count(objects: &[u8]) -> usize
    ensures { result ≡ length objects.now / object_size }
{
    objects.len() / OBJECT_SIZE
}

// The number of slots of a parent row: none where it is unused.
pub fn row_width(row: &[u8]) -> u16
    requires { (length row.now ≡ parent_size) × (when_used good_layout row.now ≡ true) }
    ensures { result ≡ length (slots_of (parse_parent row.now)) }
{
    if !rows::is_used(row) {
        return 0;
    }
    layout::stripe_count(rows::layout_of(row))
}

// The number of slots of parent row r.
pub fn width(parents: &[u8], r: usize) -> u16
    requires { (good_layouts parents.now ≡ true) × (r < length parents.now / parent_size) }
    ensures { result ≡ width (parse_parents parents.now) r }
{
    row_width(rows::row_at(parents, PARENT_SIZE, r))
}

// Whether this row and part are a position of stage one.
pub fn in_stage_one(parents: &[u8], row: u64, part: u64) -> bool
    requires { good_layouts parents.now ≡ true }
    ensures { result ≡ in_stage_one (parse_parents parents.now) row part }
{
    let r = row as usize;
    r < parent_count(parents) && part <= width(parents, r) as u64
}

// Whether they are a position of stage two.
pub fn in_stage_two(objects: &[u8], row: u64, part: u64) -> bool
    ensures { result ≡ in_stage_two (parse_objects objects.now) row part }
{
    (row as usize) < object_count(objects) && part == 0
}

pub fn is_end(at: Position) -> bool
    ensures { result ≡ is_end at }
{
    at.stage == 3 && at.row == 0 && at.part == 0
}

// Whether a position exists in sound tables.
pub fn is_position(parents: &[u8], objects: &[u8], at: Position) -> bool
    requires { Sound parents.now objects.now }
    ensures { result ≡ is_position (parse parents.now objects.now) at }
{
    match at.stage {
        1 => in_stage_one(parents, at.row, at.part),
        2 => in_stage_two(objects, at.row, at.part),
        _ => is_end(at),
    }
}

pub fn end() -> Position
    ensures { result ≡ place 3 0 0 }
{
    Position {
        stage: 3,
        row: 0,
        part: 0,
    }
}

// Object row o if there is one, else the end.
pub fn from_object(objects: &[u8], o: usize) -> Position
    ensures { result ≡ from_object (parse_objects objects.now) o }
{
    if object_count(objects) <= o {
        return end();
    }
    Position {
        stage: 2,
        row: o as u64,
        part: 0,
    }
}

// The header of parent row r if there is one, else stage two.
pub fn from_parent(parents: &[u8], objects: &[u8], r: usize) -> Position
    ensures { result ≡ from_parent (parse parents.now objects.now) r }
{
    if parent_count(parents) <= r {
        return from_object(objects, 0);
    }
    Position {
        stage: 1,
        row: r as u64,
        part: 0,
    }
}

// The first position that exists.
pub fn first(parents: &[u8], objects: &[u8]) -> Position
    ensures { result ≡ start (parse parents.now objects.now) }
{
    from_parent(parents, objects, 0)
}

// The part after this one in the row if there is one, else the next row.
pub fn after_part(parents: &[u8], objects: &[u8], row: u64, part: u64) -> Position
    requires { (good_layouts parents.now ≡ true) × (row < length parents.now / parent_size) }
    ensures { result ≡ after_part (parse parents.now objects.now) row part }
{
    let r = row as usize;
    if width(parents, r) as u64 <= part {
        return from_parent(parents, objects, r + 1);
    }
    Position {
        stage: 1,
        row,
        part: part + 1,
    }
}

// The position after one that exists.
pub fn next_position(parents: &[u8], objects: &[u8], at: Position) -> Position
    requires { Sound parents.now objects.now × (is_position (parse parents.now objects.now) at ≡ true) }
    ensures { result ≡ next (parse parents.now objects.now) at }
{
    match at.stage {
        1 => after_part(parents, objects, at.row, at.part),
        2 => from_object(objects, at.row as usize + 1),
        _ => end(),
    }
}

// The steps of stage one: one for each row and one for each slot.
pub fn row_steps(parents: &[u8]) -> u32
    requires { (good_layouts parents.now ≡ true) × (length parents.now / parent_size ≤ max_parents) }
    ensures { result ≡ row_steps (parse_parents parents.now) }
{
    let mut steps: u32 = 0;
    for row in parents.chunks_exact(PARENT_SIZE) {
        steps += 1 + row_width(row) as u32;
    }
    steps
}

// The steps of an uncut run.
pub fn count_steps(parents: &[u8], objects: &[u8]) -> u64
    requires { Sound parents.now objects.now }
    ensures { result ≡ count_steps (parse parents.now objects.now) }
{
    row_steps(parents) as u64 + object_count(objects) as u64
}
