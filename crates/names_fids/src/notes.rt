// Notes: one byte for each entry, 1 where its directory is visible.
ghost use Rattle.std.specs.Prelude.{◌≡◌, ◌/◌, ◌≤◌, ◌<◌, length};
ghost use Rattle.names.specs.Rows.{entry_size, parse_children};
ghost use Rattle.names.specs.Visible.{seen_by};
ghost use Rattle.names_check.specs.Asked.{entry_at};
ghost use Rattle.names_marks.specs.Directories.{IndexedUnder};
ghost use Rattle.names_store.specs.Notes.{Noted};

use names::rows;
use names::rows::ENTRY_SIZE;
use names_marks::marked;

// Whether the directory of entry i is visible under the marks.
fn entry_seen(
    entries: &[u8],
    children: &[u8],
    marks: &[u64],
    index: &[u8],
    n: usize,
    i: usize,
) -> bool
    requires { IndexedUnder children.now marks.now index.now n × (i < length entries.now / entry_size) }
    ensures { result ≡ seen_by marks.now (parse_children children.now) (entry_at entries.now i).parent }
{
    let row = tables::rows::row_at(entries, ENTRY_SIZE, i);
    marked::seen(children, marks, index, n, rows::parent_of(row))
}

// Notes of each entry whether its directory is visible under the marks.
pub fn note(
    entries: &[u8],
    children: &[u8],
    marks: &[u64],
    index: &[u8],
    n: usize,
    notes: &mut [u8],
)
    requires { IndexedUnder children.now marks.now index.now n × (length entries.now / entry_size ≤ length notes.old) }
    ensures { Noted (seen_by marks.now (parse_children children.now)) entries.now notes.new }
{
    let count = entries.len() / ENTRY_SIZE;
    for (i, note) in notes[..count].iter_mut().enumerate() {
        *note = u8::from(entry_seen(entries, children, marks, index, n, i));
    }
}
