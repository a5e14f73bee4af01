// Sweep 1: a child without self FID takes that of the first entry of a visible directory that has one.
ghost use Rattle.std.specs.Prelude.{◌≡◌, Bool, ◌/◌, ◌≤◌, ◌<◌, length};
ghost use Rattle.fid.specs.declared.MdtFid.{MdtFid};
ghost use Rattle.names.specs.Rows.{entry_size, parse_entries, parse_children};
ghost use Rattle.names.specs.Check.{SoundNames};
ghost use Rattle.names.specs.Sweeps.{gives, taking, sweep1, taken};
ghost use Rattle.names_check.specs.Asked.{entry_at};
ghost use Rattle.names_store.specs.Notes.{note_of, Noted};

use names::rows;
use names::rows::{CHILD_SIZE, ENTRY_SIZE};

// What entry i gives its child, under its note, and whether it gave.
fn take_self(entries: &[u8], children: &mut [u8], i: usize, note: u8) -> bool
    requires { SoundNames entries.now children.old × (i < length entries.now / entry_size) }
    ensures { SoundNames entries.now children.new
        × ((seen : MdtFid → Bool) → note ≡ note_of seen (entry_at entries.now i) →
        (parse_children children.new ≡ taking seen (parse_children children.old) (entry_at entries.now i))
        × (result ≡ gives seen (parse_children children.old) (entry_at entries.now i))) }
{
    if note == 0 {
        return false;
    }
    let row = tables::rows::row_at(entries, ENTRY_SIZE, i);
    let f = rows::fid_of(row);
    if rows::is_none(f) {
        return false;
    }
    let r = rows::child_of(row) as usize;
    let child = tables::rows::row_at(children, CHILD_SIZE, r);
    if !rows::is_none(rows::self_of(child)) {
        return false;
    }
    let a = CHILD_SIZE * r;
    let e = a + CHILD_SIZE;
    rows::put_self(&mut children[a..e], f);
    true
}

// The sweep over tables that pass the check, and how many self FIDs were taken, under every visibility that the notes are of.
pub fn take_selves(entries: &[u8], children: &mut [u8], notes: &[u8]) -> usize
    requires { SoundNames entries.now children.old × (length entries.now / entry_size ≤ length notes.now) }
    ensures { SoundNames entries.now children.new
        × ((seen : MdtFid → Bool) → Noted seen entries.now notes.now →
        (parse_children children.new ≡ sweep1 seen (parse_entries entries.now) (parse_children children.old))
        × (result ≡ taken seen (parse_entries entries.now) (parse_children children.old))) }
{
    let count = entries.len() / ENTRY_SIZE;
    let mut n = 0usize;
    for (i, note) in notes[..count].iter().enumerate() {
        n += usize::from(take_self(entries, children, i, *note));
    }
    n
}
