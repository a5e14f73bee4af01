// The records of a child: which of them go.
ghost use Rattle.std.specs.Prelude.{◌≡◌, not, false, ◌≤◌, ◌<◌, length, take};
ghost use Rattle.linkea.specs.Link.{decode_link_ea, link_at};
ghost use Rattle.linkea.specs.Conditions.{bad_record, refused_link};
ghost use Rattle.names.specs.Rows.{link_room, parse_entries, parse_children};
ghost use Rattle.names.specs.Findings.{any, same_link};
ghost use Rattle.names.specs.Visible.{seen_by};
ghost use Rattle.names.specs.Sweeps.{goes};
ghost use Rattle.names_check.specs.Asked.{asked};
ghost use Rattle.names_prune.specs.ReadyProps.{ready_props};
ghost use Rattle.names_prune.specs.Ready.{Ready, flag_room, Told};

use super::by_child;
use fid::MdtFid;
use linkea::{LINK_HEADER, NAME_AT, PARENT_AT};
use names_check::links;
use names_marks::marked;
use wire::Big;

// Whether one of the first k records of a linkEA has a directory and a name.
// A loop: the next place comes from the record read; `successors` gives places, and would read each length twice.
fn stands_before(l: &[u8], k: usize, parent: MdtFid, name: &[u8]) -> bool
    requires { (refused_link l.now ≡ false) × (k ≤ length (decode_link_ea l.now).links) }
    ensures { result ≡ any (same_link (asked parent name.now)) (take k (decode_link_ea l.now).links) }
{
    let mut at = LINK_HEADER;
    for j in 0..k {
        if links::is_link(l, at, parent, name) {
            return true;
        }
        at += wire::get::<u16, Big>(l, at) as usize;
    }
    false
}

// What the sweep is lent: the tables, the index of the n directories under the marks, the index of the entries by child, and the notes.
#[derive(Clone, Copy)]
pub struct Lent<'a> {
    pub entries: &'a [u8],
    pub children: &'a [u8],
    pub marks: &'a [u64],
    pub index: &'a [u8],
    pub n: usize,
    pub places: &'a [u8],
    pub notes: &'a [u8],
    pub ghost ready: { Ready entries.now children.now marks.now index.now n places.now notes.now } by { Prim.hlevel ready_props },
}

impl Lent<'_> {
    // Whether a record of child r goes, which has a directory and a name and k records before it.
    fn must_go(self, r: u32, l: &[u8], k: usize, parent: MdtFid, name: &[u8]) -> bool
        requires { (refused_link l.now ≡ false) × (k ≤ length (decode_link_ea l.now).links) }
        ensures { result ≡ goes (seen_by self.entry.marks.now (parse_children self.entry.children.now)) (parse_entries self.entry.entries.now) r (take k (decode_link_ea l.now).links) (asked parent name.now) }
    {
        match by_child::find(self.entries, self.places, r, parent, name) {
            None => marked::seen(self.children, self.marks, self.index, self.n, parent),
            Some(i) => {
                if self.notes[i as usize] == 0 {
                    return false;
                }
                stands_before(l, k, parent, name)
            }
        }
    }

    // Whether the record at place p stays, which has k records before it.
    fn stays(self, r: u32, l: &[u8], p: usize, k: usize) -> bool
        requires { (refused_link l.now ≡ false) × (p < length l.now) × (bad_record l.now p ≡ false) × (k ≤ length (decode_link_ea l.now).links) }
        ensures { result ≡ not (goes (seen_by self.entry.marks.now (parse_children self.entry.children.now)) (parse_entries self.entry.entries.now) r (take k (decode_link_ea l.now).links) (link_at l.now p)) }
    {
        let size = wire::get::<u16, Big>(l, p) as usize;
        let parent = MdtFid(fid::read_in::<Big>(l, p + PARENT_AT));
        let a = p + NAME_AT;
        let e = p + size;
        !self.must_go(r, l, k, parent, &l[a..e])
    }

    // Flags the records of a linkEA of child r, and tells how many go.
    // A loop: the next place comes from the record read; `successors` gives places, and would read each length twice.
    pub fn flag(self, r: u32, l: &[u8], flags: &mut [u8]) -> usize
        requires { (refused_link l.now ≡ false) × (length l.now ≤ link_room) × (flag_room ≤ length flags.old) }
        ensures { Told (seen_by self.entry.marks.now (parse_children self.entry.children.now)) (parse_entries self.entry.entries.now) r (decode_link_ea l.now).links flags.new result }
    {
        let mut at = LINK_HEADER;
        let mut k = 0usize;
        let mut gone = 0usize;
        while at < l.len() {
            let stays = self.stays(r, l, at, k);
            flags[k] = u8::from(stays);
            gone += usize::from(!stays);
            k += 1;
            at += wire::get::<u16, Big>(l, at) as usize;
        }
        gone
    }
}
