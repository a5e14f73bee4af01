// Sweep 3: missing records are appended, in the order of the entries.
#![tactic(auto)]

ghost use Rattle.std.specs.Prelude.{◌≡◌, Bool, ◌/◌, ◌≤◌, ◌<◌, length};
ghost use Rattle.fid.specs.declared.MdtFid.{MdtFid};
ghost use Rattle.names.specs.Rows.{entry_size, parse_entries, parse_children};
ghost use Rattle.names.specs.Check.{SoundNames};
ghost use Rattle.names.specs.Sweeps.{asks, sweep3};
ghost use Rattle.names_check.specs.Asked.{entry_at};
ghost use Rattle.names_store.specs.Notes.{note_of, Noted};
ghost use Rattle.names_append.specs.Asking.{asked_by, children_after, appends_of};

use names::rows;
use names::rows::{CHILD_SIZE, ENTRY_SIZE};
use names_check::finding;
use names_links::append;

// What an entry asks of its child: nothing, a record for which there is room, or one that outgrows it.
#[derive(Clone, Copy, Debug, PartialEq, Eq)]
pub enum Asked {
    Nothing,
    Room,
    More,
}

// How many records were appended, the entry it stopped in front of or the number of entries, and whether it stopped.
// A flag beside the numbers: they are told in either case, so a Result would hold them twice.
#[derive(Clone, Copy, Debug, PartialEq, Eq)]
pub struct Swept {
    pub count: usize,
    pub reached: usize,
    pub full: bool,
}

// Appends the record of entry i where its child lacks it and has room for it, under its note.
fn append_at(entries: &[u8], children: &mut [u8], i: usize, note: u8) -> Asked
    requires { SoundNames entries.now children.old × (i < length entries.now / entry_size) }
    ensures { SoundNames entries.now children.new
        × ((seen : MdtFid → Bool) → note ≡ note_of seen (entry_at entries.now i) →
        (asked_by result ≡ asks seen (parse_children children.old) (entry_at entries.now i))
        × (parse_children children.new ≡ children_after (asked_by result) (parse_children children.old) (entry_at entries.now i))) }
{
    if note == 0 {
        return Asked::Nothing;
    }
    let row = tables::rows::row_at(entries, ENTRY_SIZE, i);
    let r = rows::child_of(row) as usize;
    let child = tables::rows::row_at(children, CHILD_SIZE, r);
    if rows::is_none(rows::self_of(child)) {
        return Asked::Nothing;
    }
    if finding::has_record(row, child) {
        return Asked::Nothing;
    }
    let name = rows::name_of(row);
    let n = name.len();
    if append::outgrows_room(child, n) {
        return Asked::More;
    }
    let a = CHILD_SIZE * r;
    let e = a + CHILD_SIZE;
    let parent = rows::parent_of(row);
    append::append_link(&mut children[a..e], parent, name);
    Asked::Room
}

// The sweep over tables that pass the check, under every visibility that the notes are of.
pub fn append_all(entries: &[u8], children: &mut [u8], notes: &[u8]) -> Swept
    requires { SoundNames entries.now children.old × (length entries.now / entry_size ≤ length notes.now) }
    ensures { SoundNames entries.now children.new
        × ((seen : MdtFid → Bool) → Noted seen entries.now notes.now →
        appends_of (parse_children children.new) result ≡ sweep3 seen (parse_entries entries.now) (parse_children children.old) 0 0) }
{
    let count = entries.len() / ENTRY_SIZE;
    let mut n = 0usize;
    for (i, note) in notes[..count].iter().enumerate() {
        match append_at(entries, children, i, *note) {
            Asked::Nothing => {}
            Asked::Room => {
                n += 1;
            }
            Asked::More => {
                return Swept {
                    count: n,
                    reached: i,
                    full: true,
                };
            }
        }
    }
    Swept {
        count: n,
        reached: count,
        full: false,
    }
}
