// What a mending makes ready in the lent room: the index of directories, the index of entries behind it, and the notes.
ghost use Rattle.std.specs.Prelude.{◌≡◌, ◌+◌, ◌*◌, ◌/◌, ◌≤◌, length, take, drop};
ghost use Rattle.index.specs.Entries.{place_size};
ghost use Rattle.names.specs.Rows.{entry_size, child_size, parse_children};
ghost use Rattle.names.specs.Check.{SoundNames};
ghost use Rattle.names_marks.specs.Directories.{IndexedUnder};
ghost use Rattle.names_prune.specs.ByChild.{ByChild};
ghost use Rattle.names_mend.specs.Ready.{entries_at, Ready};

use index::PLACE_SIZE;
use names::rows::CHILD_SIZE;
use names_fids::notes;
use names_marks::marked;
use names_prune::by_child;

// Where the index of the entries begins: behind a place for each child row.
pub fn entries_at(children: &[u8]) -> usize
    ensures { result ≡ entries_at children.now }
{
    PLACE_SIZE * (children.len() / CHILD_SIZE)
}

// Makes both indices, and tells how many directories are in the first.
fn index_both(
    entries: &[u8],
    children: &[u8],
    marks: &[u64],
    index: &mut [u8],
    room: &mut [u8],
) -> usize
    requires { SoundNames entries.now children.now × (length marks.now ≡ length children.now / child_size)
        × (place_size * (length entries.now / entry_size + length children.now / child_size) ≤ length index.old)
        × (place_size * (length entries.now / entry_size + length children.now / child_size) ≤ length room.old) }
    ensures { IndexedUnder children.now marks.now (take (entries_at children.now) index.new) result
        × ByChild entries.now (drop (entries_at children.now) index.new) }
{
    let at = entries_at(children);
    let n = marked::index_marked(children, marks, &mut index[..at], room);
    by_child::index_entries(entries, &mut index[at..], room);
    n
}

// Makes all ready.
pub fn prepare(
    entries: &[u8],
    children: &[u8],
    marks: &[u64],
    index: &mut [u8],
    room: &mut [u8],
) -> usize
    requires { SoundNames entries.now children.now × (length marks.now ≡ length children.now / child_size)
        × (place_size * (length entries.now / entry_size + length children.now / child_size) ≤ length index.old)
        × (place_size * (length entries.now / entry_size + length children.now / child_size) ≤ length room.old) }
    ensures { Ready entries.now children.now marks.now index.new room.new result }
{
    let n = index_both(entries, children, marks, index, room);
    let at = entries_at(children);
    notes::note(entries, children, marks, &index[..at], n, room);
    n
}
