// The records of a linkEA: whether one of them is a directory and a name.
ghost use Rattle.std.specs.Prelude.{◌≡◌, false, ◌<◌, length};
ghost use Rattle.linkea.specs.Link.{decode_link_ea, link_at};
ghost use Rattle.linkea.specs.Conditions.{bad_record, refused_link};
ghost use Rattle.names.specs.Findings.{same_name, same_link, any};
ghost use Rattle.names_check.specs.Asked.{asked};

use fid::MdtFid;
use linkea::{LINK_HEADER, NAME_AT, PARENT_AT};
use wire::Big;

// Whether two names are the same.
pub fn same_name(a: &[u8], b: &[u8]) -> bool
    ensures { result ≡ same_name a.now b.now }
{
    a == b
}

// Whether the good record at a place has a directory and a name.
pub fn is_link(l: &[u8], p: usize, parent: MdtFid, name: &[u8]) -> bool
    requires { (p < length l.now) × (bad_record l.now p ≡ false) }
    ensures { result ≡ same_link (asked parent name.now) (link_at l.now p) }
{
    let n = wire::get::<u16, Big>(l, p) as usize;
    let there = MdtFid(fid::read_in::<Big>(l, p + PARENT_AT));
    parent == there && same_name(name, &l[p + NAME_AT..p + n])
}

// Whether a linkEA that is not refused has a record with a directory and a name.
// A loop: the next place comes from the record read; `successors` gives places, and would read each length twice.
pub fn has_link(l: &[u8], parent: MdtFid, name: &[u8]) -> bool
    requires { refused_link l.now ≡ false }
    ensures { result ≡ any (same_link (asked parent name.now)) (decode_link_ea l.now).links }
{
    let mut at = LINK_HEADER;
    while at < l.len() {
        if is_link(l, at, parent, name) {
            return true;
        }
        at += wire::get::<u16, Big>(l, at) as usize;
    }
    false
}
