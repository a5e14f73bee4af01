// The records of each child looked at in turn.
ghost use Rattle.std.specs.Prelude.{◌≡◌, ◌/◌, ◌≤◌, ◌<◌, length, set};
ghost use Rattle.names.specs.Rows.{child_size, decode_child, child_at, parse_entries, parse_children};
ghost use Rattle.names.specs.Check.{SoundNames};
ghost use Rattle.names.specs.Visible.{seen_by};
ghost use Rattle.names.specs.Sweeps.{gone, pruned, sweep4, removals};
ghost use Rattle.names_marks.specs.Directories.{IndexedUnder};
ghost use Rattle.names_store.specs.Notes.{Noted};
ghost use Rattle.names_prune.specs.ByChild.{ByChild};
ghost use Rattle.names_prune.specs.Ready.{Ready, flag_room, child_bytes, Flags};

use super::records::Lent;
use names::rows;
use names::rows::CHILD_SIZE;
use names_links::keep;

// Room for the flags of a linkEA, which has fewer records.
const FLAG_ROOM: usize = 256;

// Tells how many records of child r go, and where some do flags each of them.
fn flag_child(lent: Lent<'_>, r: usize, flags: &mut [u8]) -> usize
    requires { (r < length lent.children.now / child_size) × (flag_room ≤ length flags.old) }
    ensures { (result ≡ gone (seen_by lent.entry.marks.now (parse_children lent.entry.children.now)) (parse_entries lent.entry.entries.now) r (decode_child (child_bytes lent.entry.children.now r)))
        × (result ≤ flag_room)
        × (0 < result → Flags (seen_by lent.entry.marks.now (parse_children lent.entry.children.now)) (parse_entries lent.entry.entries.now) r (child_bytes lent.entry.children.now r) flags.new) }
{
    let row = tables::rows::row_at(lent.children, CHILD_SIZE, r);
    if rows::is_none(rows::self_of(row)) {
        return 0;
    }
    if rows::link_len(row) == 0 {
        return 0;
    }
    lent.flag(r as u32, rows::link_of(row), flags)
}

// Removes the records of child r that go, and tells how many they were.
// The parts come one by one: `Lent` reads the children, which this writes.
fn prune_child(
    entries: &[u8],
    children: &mut [u8],
    marks: &[u64],
    index: &[u8],
    n: usize,
    places: &[u8],
    notes: &[u8],
    r: usize,
) -> usize
    requires { Ready entries.now children.old marks.now index.now n places.now notes.now × (r < length children.old / child_size) }
    ensures { (parse_children children.new ≡ set (parse_children children.old) r (pruned (seen_by marks.now (parse_children children.old)) (parse_entries entries.now) r (child_at (parse_children children.old) r)))
        × (result ≡ gone (seen_by marks.now (parse_children children.old)) (parse_entries entries.now) r (child_at (parse_children children.old) r))
        × (result ≤ flag_room)
        × SoundNames entries.now children.new }
{
    let mut flags = [0u8; FLAG_ROOM];
    let lent = Lent {
        entries,
        children,
        marks,
        index,
        n,
        places,
        notes,
    };
    let gone = flag_child(lent, r, &mut flags);
    if gone == 0 {
        return 0;
    }
    let a = CHILD_SIZE * r;
    let e = a + CHILD_SIZE;
    keep::keep_flagged(&mut children[a..e], &flags);
    gone
}

// Sweep 4 over tables that pass the check, and how many records were removed.
// A loop: turn r reads all children and then writes row r of them, so no iterator can lend that row.
pub fn prune(
    entries: &[u8],
    children: &mut [u8],
    marks: &[u64],
    index: &[u8],
    n: usize,
    places: &[u8],
    notes: &[u8],
) -> usize
    requires { SoundNames entries.now children.old × IndexedUnder children.old marks.now index.now n × ByChild entries.now places.now × Noted (seen_by marks.now (parse_children children.old)) entries.now notes.now }
    ensures { (parse_children children.new ≡ sweep4 (seen_by marks.now (parse_children children.old)) (parse_entries entries.now) (parse_children children.old) 0)
        × (result ≡ removals (seen_by marks.now (parse_children children.old)) (parse_entries entries.now) (parse_children children.old) 0)
        × SoundNames entries.now children.new }
{
    let count = children.len() / CHILD_SIZE;
    let mut total = 0usize;
    for r in 0..count {
        total += prune_child(entries, children, marks, index, n, places, notes, r);
    }
    total
}
