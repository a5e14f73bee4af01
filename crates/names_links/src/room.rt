// The linkEA of a child in its row: its header, and what is written around its records.
ghost use Rattle.std.specs.Prelude.{◌≡◌, true, ◌-◌, ◌≤◌, length, replicate};
ghost use Rattle.std.proofs.lemmas.List.Edits.{sets};
ghost use Rattle.linkea.specs.Link.{header_of};
ghost use Rattle.names.specs.Rows.{child_size, link_room, decode_child};
ghost use Rattle.names.specs.Check.{good_link_ea};
ghost use Rattle.names.specs.Sweeps.{start_of};
ghost use Rattle.names_links.specs.Room.{closed};

use linkea::{LINK_HEADER, LinkHeader};
use names::rows;
use names::rows::{LINK_LENGTH_AT, LINK_ROOM_AT};
use wire::Little;

// The header of the linkEA of a child, or of a new one without records.
pub fn header_of(row: &[u8]) -> LinkHeader
    requires { (length row.now ≡ child_size) × (good_link_ea row.now ≡ true) }
    ensures { (result ≡ header_of (start_of (decode_child row.now).link)) × (result.total ≤ link_room) }
{
    if rows::link_len(row) == 0 {
        return LinkHeader {
            count: 0,
            total: LINK_HEADER as u64,
            time: 0,
            padding: 0,
        };
    }
    linkea::read_header(rows::link_of(row))
}

// Makes the bytes from a place on zero.
fn zero_from(row: &mut [u8], at: usize)
    requires { at ≤ length row.old }
    ensures { row.new ≡ sets row.old at (replicate (length row.old - at) 0) }
{
    row[at..].fill(0);
}

// Writes the length of a linkEA and its header in front of its records, and zeros over the room past it.
pub fn close_link(row: &mut [u8], h: LinkHeader)
    requires { (length row.old ≡ child_size) × (h.total ≤ link_room) }
    ensures { row.new ≡ closed row.old h }
{
    let start = LINK_ROOM_AT;
    let end = start + LINK_HEADER;
    let total = h.total as usize;
    wire::put::<u16, Little>(row, LINK_LENGTH_AT, total as u16);
    linkea_write::write_header(&mut row[start..end], h);
    zero_from(row, start + total);
}
