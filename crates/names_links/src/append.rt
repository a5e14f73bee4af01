// A record appended to the linkEA of a child, in its row.
ghost use Rattle.std.specs.Prelude.{◌≡◌, true, false, ◌+◌, ◌≤◌, length};
ghost use Rattle.std.proofs.lemmas.List.Edits.{sets};
ghost use Rattle.linkea.specs.Link.{Link, name_at, encode_link};
ghost use Rattle.linkea.specs.Conditions.{some, bad_byte};
ghost use Rattle.names.specs.Rows.{child_size, name_room, decode_child, with_link_ea};
ghost use Rattle.names.specs.Check.{good_link_ea};
ghost use Rattle.names.specs.Sweeps.{grown_link, outgrows};
ghost use Rattle.names_check.specs.Asked.{asked};

use super::room;
use fid::MdtFid;
use linkea::{LinkHeader, NAME_AT, PARENT_AT};
use names::rows::{LINK_ROOM, LINK_ROOM_AT};
use wire::Big;

// Whether a record whose name has n bytes outgrows the room for the linkEA of a child.
pub fn outgrows_room(row: &[u8], n: usize) -> bool
    requires { (length row.now ≡ child_size) × (good_link_ea row.now ≡ true) × (n ≤ name_room) }
    ensures { (x : Link) → length x.name ≡ n → result ≡ outgrows (decode_child row.now) x }
{
    let h = room::header_of(row);
    let total = h.total as usize;
    LINK_ROOM < total + NAME_AT + n
}

// Writes the record of a directory and a name over the bytes at a place.
fn put_record(row: &mut [u8], at: usize, parent: MdtFid, name: &[u8])
    requires { (length name.now ≤ name_room) × (at + (name_at + length name.now) ≤ length row.old) }
    ensures { row.new ≡ sets row.old at (encode_link (asked parent name.now)) }
{
    let f = parent.0;
    let size = NAME_AT + name.len();
    wire::put::<u16, Big>(row, at, size as u16);
    fid::write_in::<Big>(row, at + PARENT_AT, f);
    wire::put_bytes(row, at + NAME_AT, name);
}

// Appends the record of a directory and a name to the linkEA of a child, or gives it one; the room past it is zeroed.
pub fn append_link(row: &mut [u8], parent: MdtFid, name: &[u8])
    requires { (length row.old ≡ child_size) × (good_link_ea row.old ≡ true) × (1 ≤ length name.now) × (length name.now ≤ name_room) × (some bad_byte name.now ≡ false) × (outgrows (decode_child row.old) (asked parent name.now) ≡ false) }
    ensures { (decode_child row.new ≡ with_link_ea (decode_child row.old) (grown_link (decode_child row.old) (asked parent name.now))) × (good_link_ea row.new ≡ true) }
{
    let h = room::header_of(row);
    let total = h.total as usize;
    let grown = total + NAME_AT + name.len();
    put_record(row, LINK_ROOM_AT + total, parent, name);
    let g = LinkHeader {
        count: h.count + 1,
        total: grown as u64,
        ..h
    };
    room::close_link(row, g);
}
