// The index of the entries by the row of their child: made, and an entry found that has a record.
ghost use Rattle.std.specs.Prelude.{◌≡◌, true, ◌*◌, ◌/◌, ◌≤◌, length};
ghost use Rattle.index.specs.Entries.{place_size, entries as entries_of};
ghost use Rattle.tables.specs.Check.{all};
ghost use Rattle.names.specs.Rows.{entry_size, entry_rows, parse_entries};
ghost use Rattle.names.specs.Check.{max_rows, good_name};
ghost use Rattle.names_check.specs.Asked.{asked};
ghost use Rattle.names_prune.specs.ByChild.{entry_numbers, ByChild, is_named, first_named};

use fid::MdtFid;
use names::rows;
use names::rows::ENTRY_SIZE;
use names_check::links;

// Puts the entries in the index, in their order.
// A loop: turn i writes place i, and of parts that chunks_exact_mut lends a proof knows what they held, and not what the slice ends as.
fn list(entries: &[u8], index: &mut [u8])
    requires { (length entries.now / entry_size ≤ max_rows) × (place_size * (length entries.now / entry_size) ≤ length index.old) }
    ensures { entries_of (length entries.now / entry_size) index.new ≡ entry_numbers (parse_entries entries.now) }
{
    let count = entries.len() / ENTRY_SIZE;
    for i in 0..count {
        let row = tables::rows::row_at(entries, ENTRY_SIZE, i);
        index::put(index, i, 0, rows::child_of(row), i as u32);
    }
}

// Puts the entries in the index, in order of their children. `room` is lent to work in.
pub fn index_entries(entries: &[u8], index: &mut [u8], room: &mut [u8])
    requires { (length entries.now / entry_size ≤ max_rows) × (place_size * (length entries.now / entry_size) ≤ length index.old) × (place_size * (length entries.now / entry_size) ≤ length room.old) }
    ensures { ByChild entries.now index.new }
{
    let count = entries.len() / ENTRY_SIZE;
    list(entries, index);
    index::sort(index, room, count);
}

// Whether entry i is there and has a directory and a name.
fn is_named(entries: &[u8], i: u32, parent: MdtFid, name: &[u8]) -> bool
    requires { all good_name (entry_rows entries.now) ≡ true }
    ensures { result ≡ is_named (parse_entries entries.now) (asked parent name.now) i }
{
    let k = i as usize;
    if entries.len() / ENTRY_SIZE <= k {
        return false;
    }
    let row = tables::rows::row_at(entries, ENTRY_SIZE, k);
    if parent != rows::parent_of(row) {
        return false;
    }
    links::same_name(name, rows::name_of(row))
}

// The first entry of child r that has a directory and a name.
pub fn find(entries: &[u8], places: &[u8], r: u32, parent: MdtFid, name: &[u8]) -> Option<u32>
    requires { ByChild entries.now places.now × (all good_name (entry_rows entries.now) ≡ true) }
    ensures { result ≡ first_named (parse_entries entries.now) r (asked parent name.now) 0 }
{
    let count = entries.len() / ENTRY_SIZE;
    index::find_by(places, count, 0, r, |i| is_named(entries, i, parent, name))
}
