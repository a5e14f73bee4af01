// Sweep 2: the entries of visible directories get the self FID of their child.
ghost use Rattle.std.specs.Prelude.{◌≡◌, Bool, ◌/◌, ◌≤◌, ◌<◌, length, set};
ghost use Rattle.fid.specs.declared.MdtFid.{MdtFid};
ghost use Rattle.names.specs.Rows.{entry_size, parse_entries, parse_children};
ghost use Rattle.names.specs.Check.{SoundNames};
ghost use Rattle.names.specs.Sweeps.{written, differs, sweep2, writes};
ghost use Rattle.names_check.specs.Asked.{entry_at};
ghost use Rattle.names_store.specs.Notes.{note_of, Noted};

use names::rows;
use names::rows::{CHILD_SIZE, ENTRY_SIZE};

// Writes the FID-in-dirent of entry i, under its note, and tells whether it differed.
fn write_fid(entries: &mut [u8], children: &[u8], i: usize, note: u8) -> bool
    requires { SoundNames entries.old children.now × (i < length entries.old / entry_size) }
    ensures { SoundNames entries.new children.now
        × ((seen : MdtFid → Bool) → note ≡ note_of seen (entry_at entries.old i) →
        (parse_entries entries.new ≡ set (parse_entries entries.old) i (written seen (parse_children children.now) (entry_at entries.old i)))
        × (result ≡ differs seen (parse_children children.now) (entry_at entries.old i))) }
{
    if note == 0 {
        return false;
    }
    let row = tables::rows::row_at(entries, ENTRY_SIZE, i);
    let r = rows::child_of(row) as usize;
    let own = rows::self_of(tables::rows::row_at(children, CHILD_SIZE, r));
    if rows::is_none(own) {
        return false;
    }
    if rows::fid_of(row) == own {
        return false;
    }
    let a = ENTRY_SIZE * i;
    let e = a + ENTRY_SIZE;
    rows::put_fid(&mut entries[a..e], own);
    true
}

// The sweep over tables that pass the check, and how many FIDs were written, under every visibility that the notes are of.
pub fn write_fids(entries: &mut [u8], children: &[u8], notes: &[u8]) -> usize
    requires { SoundNames entries.old children.now × (length entries.old / entry_size ≤ length notes.now) }
    ensures { SoundNames entries.new children.now
        × ((seen : MdtFid → Bool) → Noted seen entries.old notes.now →
        (parse_entries entries.new ≡ sweep2 seen (parse_children children.now) (parse_entries entries.old))
        × (result ≡ writes seen (parse_children children.now) (parse_entries entries.old))) }
{
    let count = entries.len() / ENTRY_SIZE;
    let mut n = 0usize;
    for (i, note) in notes[..count].iter().enumerate() {
        n += usize::from(write_fid(entries, children, i, *note));
    }
    n
}
