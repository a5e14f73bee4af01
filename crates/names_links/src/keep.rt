// Records taken out of the linkEA of a child, in its row.
ghost use Rattle.std.specs.Prelude.{◌≡◌, true, false, ◌+◌, ◌≤◌, ◌<◌, length};
ghost use Rattle.std.proofs.lemmas.List.Edits.{sets};
ghost use Rattle.linkea.specs.Link.{decode_link_ea};
ghost use Rattle.linkea.specs.Conditions.{refused_link};
ghost use Rattle.names.specs.Rows.{child_size, link_room, link_length, links_of, decode_child, with_link_ea};
ghost use Rattle.names.specs.Check.{good_link_ea};
ghost use Rattle.names_links.specs.Kept.{kept_by, linked_by};
ghost use Rattle.names_links.specs.Packing.{bytes_if, one_if, PackedIn};

use super::room;
use linkea::{LINK_HEADER, LinkHeader};
use names::rows;
use names::rows::{LINK_ROOM, LINK_ROOM_AT};
use wire::Big;

// The flag of a record that stays.
const STAYS: u8 = 1;

// How many records were kept, and where in the row the next one goes.
#[derive(Clone, Copy, Debug, PartialEq, Eq)]
pub struct Packed {
    pub count: u32,
    pub to: usize,
}

// Puts a record where the next one goes, if its flag says that it stays.
fn keep_one(row: &mut [u8], p: Packed, bytes: &[u8], flag: u8) -> Packed
    requires { (p.to + length bytes.now ≤ length row.old) × (p.count ≤ link_room) }
    ensures { (row.new ≡ sets row.old p.to (bytes_if flag bytes.now)) × (result.to ≡ p.to + length (bytes_if flag bytes.now)) × (result.count ≡ p.count + one_if flag) }
{
    if flag != STAYS {
        return p;
    }
    let to = p.to;
    wire::put_bytes(row, to, bytes);
    Packed {
        count: p.count + 1,
        to: to + bytes.len(),
    }
}

// Puts the records of a linkEA whose flag says that they stay in the row, behind the place of the header.
// A loop: the next place comes from the record read; `successors` gives places, and would read each length twice.
fn keep_all(row: &mut [u8], old: &[u8], flags: &[u8]) -> Packed
    requires { (length row.old ≡ child_size) × (refused_link old.now ≡ false) × (length old.now ≤ link_room) × (length (decode_link_ea old.now).links ≤ length flags.now) }
    ensures { PackedIn row.old row.new result (kept_by flags.now (decode_link_ea old.now).links) }
{
    let mut p = Packed {
        count: 0,
        to: LINK_ROOM_AT + LINK_HEADER,
    };
    let mut at = LINK_HEADER;
    let mut k = 0usize;
    while at < old.len() {
        let end = at + wire::get::<u16, Big>(old, at) as usize;
        p = keep_one(row, p, &old[at..end], flags[k]);
        at = end;
        k += 1;
    }
    p
}

// Leaves the records whose flag says that they stay, in their order; the room past the linkEA is zeroed.
pub fn keep_flagged(row: &mut [u8], flags: &[u8])
    requires { (length row.old ≡ child_size) × (good_link_ea row.old ≡ true) × (0 < link_length row.old) × (length (links_of (decode_child row.old)) ≤ length flags.now) }
    ensures { (decode_child row.new ≡ with_link_ea (decode_child row.old) (linked_by (decode_child row.old) (kept_by flags.now (links_of (decode_child row.old))))) × (good_link_ea row.new ≡ true) }
{
    let h = room::header_of(row);
    let n = rows::link_len(row) as usize;
    let mut old = [0u8; LINK_ROOM];
    wire::put_bytes(&mut old, 0, rows::link_of(row));
    let p = keep_all(row, &old[0..n], flags);
    let g = LinkHeader {
        count: p.count,
        total: (p.to - LINK_ROOM_AT) as u64,
        ..h
    };
    room::close_link(row, g);
}
