// The closing line: 33, 35, 36 and 37 in this order, or a row.
ghost use Rattle.std.specs.Prelude.{◌≡◌, ◌+◌, ◌≤◌, length};
ghost use Rattle.tables.specs.Bytes.{layout_room};
ghost use Rattle.intake_bytes.specs.Lent.{layout_at};
ghost use Rattle.intake_line.specs.Entry.{GoodMarks};
ghost use Rattle.intake_close.specs.Closing.{ParentClosed, ObjectClosed, EntryClosed, OwnedClosed};

use super::{filled, owners};
use intake_bytes::Marks;
use refusals::Refusal;
use search::first;
use tables::Owner;
use tables::rows::{LAYOUT_ROOM, OBJECT_SIZE, PARENT_SIZE};

// A file: its layout fits the room, and there is an unused row.
fn close_parent(buf: &[u8], size: usize, w: Owner, parents: &mut [u8]) -> Result<(), Refusal>
    requires { length buf.now ≡ layout_at + layout_room }
    ensures { ParentClosed buf.now size w parents.old parents.new result }
{
    if LAYOUT_ROOM < size {
        return Err(Refusal::NoFit);
    }
    let Some(r) = first::free_row(parents, PARENT_SIZE) else {
        return Err(Refusal::NoFit);
    };
    filled::fill_parent(parents, r, buf, size, w);
    Ok(())
}

// An object: there is an unused row.
fn close_object(buf: &[u8], w: Owner, index: u32, objects: &mut [u8]) -> Result<(), Refusal>
    requires { length buf.now ≡ layout_at + layout_room }
    ensures { ObjectClosed buf.now w index objects.old objects.new result }
{
    let Some(r) = first::free_row(objects, OBJECT_SIZE) else {
        return Err(Refusal::NoFit);
    };
    filled::fill_object(objects, r, buf, index, w);
    Ok(())
}

// An entry of this owner.
// The tables stay two arguments: a struct that holds them as &mut needs a clause on each reference in every function that passes it on.
fn close_owned(
    buf: &[u8],
    m: Marks,
    w: Owner,
    index: u32,
    parents: &mut [u8],
    objects: &mut [u8],
) -> Result<(), Refusal>
    requires { (length buf.now ≡ layout_at + layout_room) × GoodMarks m }
    ensures { OwnedClosed buf.now m w index parents.old objects.old parents.new objects.new result }
{
    if m.lma == 0 {
        return Err(Refusal::NoSelf);
    }
    if m.lov == 0 {
        if m.fid == 0 {
            return Err(Refusal::NoKind);
        }
        return close_object(buf, w, index, objects);
    }
    if m.fid != 0 {
        return Err(Refusal::NoKind);
    }
    close_parent(buf, m.lov - 1, w, parents)
}

// The entry that closes, where so much of the owners file is taken.
pub fn close(
    buf: &[u8],
    m: Marks,
    file: &[u8],
    taken: usize,
    parents: &mut [u8],
    objects: &mut [u8],
) -> Result<(), Refusal>
    requires { (length buf.now ≡ layout_at + layout_room) × GoodMarks m × (taken ≤ length file.now) }
    ensures { EntryClosed buf.now m file.now taken parents.old objects.old parents.new objects.new result }
{
    let end = owners::line_stop(file, taken);
    let Some((uid, gid, index)) = owners::owner_line(&file[taken..end]) else {
        return Err(Refusal::BadDump);
    };
    close_owned(buf, m, Owner { uid, gid }, index, parents, objects)
}
