// The judging of the tables as lent: the check first, then the places, then the climbs.
ghost use Rattle.std.specs.Prelude.{◌≡◌, ◌&&◌, length, leb};
ghost use Rattle.refusals.specs.Numbers.{answer};
ghost use Rattle.names.specs.Check.{SoundNames};
ghost use Rattle.names.specs.Rows.{child_rows};
ghost use Rattle.names.specs.Calls.{roomy, judge_number, judge_marks};

use super::judge;
use index::PLACE_SIZE;
use names::rows::{CHILD_SIZE, ENTRY_SIZE};
use names_check::check;
use refusals::Refusal;

// Whether a lent room has a place for each row of both tables that pass the check.
pub fn has_room(entries: &[u8], children: &[u8], room: &[u8]) -> bool
    requires { SoundNames entries.now children.now }
    ensures { result ≡ roomy entries.now children.now room.now }
{
    let places = entries.len() / ENTRY_SIZE + children.len() / CHILD_SIZE;
    PLACE_SIZE * places <= room.len()
}

// Whether index and room have a place for each row of both tables that pass the check.
pub fn has_rooms(entries: &[u8], children: &[u8], index: &[u8], room: &[u8]) -> bool
    requires { SoundNames entries.now children.now }
    ensures { result ≡ (roomy entries.now children.now index.now && roomy entries.now children.now room.now) }
{
    has_room(entries, children, index) && has_room(entries, children, room)
}

// Whether index, room and marks have their places.
fn has_places(entries: &[u8], children: &[u8], index: &[u8], room: &[u8], marks: usize) -> bool
    requires { SoundNames entries.now children.now }
    ensures { result ≡ (roomy entries.now children.now index.now && roomy entries.now children.now room.now && leb (length (child_rows children.now)) marks) }
{
    has_rooms(entries, children, index, room) && children.len() / CHILD_SIZE <= marks
}

// Writes the marks: 11, 16, 31, then 17 for the places, then 39. Index and room are lent to work in.
pub fn judge(
    entries: &[u8],
    children: &[u8],
    index: &mut [u8],
    room: &mut [u8],
    marks: &mut [u64],
) -> Result<(), Refusal>
    ensures answer { answer result ≡ judge_number entries.now children.now index.old room.old marks.old }
    ensures marked { marks.new ≡ judge_marks entries.now children.now index.old room.old marks.old }
{
    check::check(entries, children)?;
    let count = marks.len();
    if !has_places(entries, children, index, room, count) {
        return Err(Refusal::TooShort);
    }
    judge::judge_rows(children, index, room, marks)
}
