// The sweeps one after the other.
ghost use Rattle.std.specs.Prelude.{◌≡◌, true, cond, ◌+◌, ◌*◌, ◌/◌, ◌≤◌, length};
ghost use Rattle.index.specs.Entries.{place_size};
ghost use Rattle.names.specs.Rows.{entry_size, child_size, parse_entries, parse_children};
ghost use Rattle.names.specs.Check.{SoundNames};
ghost use Rattle.names.specs.Visible.{seen_by, good_marks};
ghost use Rattle.names.specs.Mend.{mended};
ghost use Rattle.names.specs.Sweeps.{sweep4, removals};
ghost use Rattle.names_mend.specs.Mending.{mended_by};
ghost use Rattle.names_mend.specs.Ready.{Ready};

use super::{Mending, ready};
use names_fids::{dirents, selves};
use names_prune::prune;

// Sweep 4, by what was made ready, unless sweep 3 stopped.
fn remove(
    full: bool,
    entries: &[u8],
    children: &mut [u8],
    marks: &[u64],
    index: &[u8],
    n: usize,
    notes: &[u8],
) -> usize
    requires { SoundNames entries.now children.old × Ready entries.now children.old marks.now index.now notes.now n }
    ensures { (parse_children children.new ≡ cond full (parse_children children.old) (sweep4 (seen_by marks.now (parse_children children.old)) (parse_entries entries.now) (parse_children children.old) 0))
        × (result ≡ cond full 0 (removals (seen_by marks.now (parse_children children.old)) (parse_entries entries.now) (parse_children children.old) 0))
        × SoundNames entries.now children.new }
{
    if full {
        return 0;
    }
    let at = ready::entries_at(children);
    prune::prune(
        entries,
        children,
        marks,
        &index[..at],
        n,
        &index[at..],
        notes,
    )
}

// The four sweeps, the last one unless sweep 3 stopped.
fn sweep(
    entries: &mut [u8],
    children: &mut [u8],
    marks: &[u64],
    index: &[u8],
    n: usize,
    notes: &[u8],
) -> Mending
    requires { SoundNames entries.old children.old × (good_marks marks.now (parse_children children.old) ≡ true) × Ready entries.old children.old marks.now index.now notes.now n }
    ensures { SoundNames entries.new children.new
        × (mended_by result (parse_entries entries.new) (parse_children children.new)
        ≡ mended (seen_by marks.now (parse_children children.old)) (parse_entries entries.old) (parse_children children.old)) }
{
    let taken = selves::take_selves(entries, children, notes);
    let written = dirents::write_fids(entries, children, notes);
    let swept = names_append::append_all(entries, children, notes);
    let removed = remove(swept.full, entries, children, marks, index, n, notes);
    Mending {
        taken,
        written,
        appended: swept.count,
        removed,
        reached: swept.reached,
        full: swept.full,
    }
}

// A mending of tables that pass the check, under marks that fit them.
pub fn mend(
    entries: &mut [u8],
    children: &mut [u8],
    marks: &[u64],
    index: &mut [u8],
    room: &mut [u8],
) -> Mending
    requires { SoundNames entries.old children.old × (good_marks marks.now (parse_children children.old) ≡ true)
        × (place_size * (length entries.old / entry_size + length children.old / child_size) ≤ length index.old)
        × (place_size * (length entries.old / entry_size + length children.old / child_size) ≤ length room.old) }
    ensures { SoundNames entries.new children.new
        × (mended_by result (parse_entries entries.new) (parse_children children.new)
        ≡ mended (seen_by marks.now (parse_children children.old)) (parse_entries entries.old) (parse_children children.old)) }
{
    let n = ready::prepare(entries, children, marks, index, room);
    sweep(entries, children, marks, index, n, room)
}
