// Parent rows written in place: own id, slot, growth, and a parent made.
ghost use Rattle.std.specs.Prelude.{◌≡◌, ◌≤◌, ◌<◌, length, set, drop};
ghost use Rattle.std.proofs.lemmas.List.Edits.{sets};
ghost use Rattle.wire.specs.Numbers.{bytes};
ghost use Rattle.fid.specs.Fid.{encode_fid};
ghost use Rattle.layout.specs.Layout.{max_slots, stripe_count};
ghost use Rattle.tables.specs.Bytes.{parent_size, encode_owner, layout_bytes, parse_parent, render_parent, room_at, self_at, owner_at, length_at};
ghost use Rattle.rules.specs.Repairs.{with_own, with_slot, grown, made, own_header};
ghost use Rattle.stores.specs.Made.{made_header};
ghost use Rattle.stores.specs.UsedRow.{UsedRow};

use super::pieces;
use fid::MdtFid;
use layout::{Header, PLAIN_HEADER, SLOT_SIZE, Slot};
use tables::rows::{LENGTH_AT, OWNER_AT, ROOM_AT, SELF_AT};
use tables::{Owner, rows};
use wire::Little;

// The header with the own id and own sequence of its file.
fn own_header(h: Header, f: MdtFid) -> Header
    ensures { result ≡ own_header h f }
{
    Header {
        oid: f.0.oid as u64,
        seq: f.0.seq,
        ..h
    }
}

// Writes own id and own sequence.
pub fn put_own(row: &mut [u8])
    requires { UsedRow row.old }
    ensures { row.new ≡ render_parent (with_own (parse_parent row.old)) }
{
    let f = rows::self_of(row);
    let l = rows::layout_of(row);
    let h = layout::read_header(l);
    let n = layout::stripe_count(l);
    pieces::put_header(row, ROOM_AT, own_header(h, f), n);
}

// Changes slot j: the row's layout is lent to the layout's own change of a slot.
pub fn put_slot(row: &mut [u8], j: usize, s: Slot)
    requires { UsedRow row.old × (j < stripe_count (layout_bytes row.old)) }
    ensures { row.new ≡ render_parent (with_slot (parse_parent row.old) j s) }
{
    let end = ROOM_AT + rows::layout_len(row) as usize;
    layout::change_slot(&mut row[ROOM_AT..end], j, s);
}

// Grows the layout to i + 1 slots, the last of which is s and the others new are holes; its generation goes up by one.
pub fn grow(row: &mut [u8], i: usize, s: Slot)
    requires { UsedRow row.old × (stripe_count (layout_bytes row.old) ≤ i) × (i < max_slots) }
    ensures { row.new ≡ render_parent (grown (parse_parent row.old) i s) }
{
    let l = rows::layout_of(row);
    let h = layout::read_header(l);
    let start = layout::slot_start(l);
    let n = layout::stripe_count(l) as usize;
    let size = start + SLOT_SIZE * (i + 1);
    wire::put::<u16, Little>(row, LENGTH_AT, size as u16);
    pieces::put_header(row, ROOM_AT, layout::raised(h), (i + 1) as u16);
    pieces::put_holes(row, ROOM_AT + start + SLOT_SIZE * n, i + 1 - n);
    pieces::put_slot(row, ROOM_AT + start + SLOT_SIZE * i, s);
}

// The stripe size of a parent that is made.
const MADE_STRIPE: u32 = 1048576;

// Where the slots of a layout of version 1 stand in its row.
const SLOTS_AT: usize = ROOM_AT + PLAIN_HEADER;

// The header of a parent that is made.
fn made_header(f: MdtFid) -> Header
    ensures { result ≡ made_header f }
{
    Header {
        magic: layout::MAGIC_ONE,
        pattern: layout::HOLE_PATTERN,
        oid: f.0.oid as u64,
        seq: f.0.seq,
        stripe: MADE_STRIPE,
        generation: 0,
    }
}

// What stands in front of a layout of this size: the mark, the file and its owner.
fn put_front(row: &mut [u8], f: MdtFid, w: Owner, size: u16)
    requires { room_at ≤ length row.old }
    ensures { row.new ≡ sets (sets (sets (set row.old 0 1) self_at (encode_fid f.0)) owner_at (encode_owner w)) length_at (bytes 2 size) }
{
    pieces::put_byte(row, 0, 1);
    fid::write_fid(row, SELF_AT, f.0);
    pieces::put_owner(row, OWNER_AT, w);
    wire::put::<u16, Little>(row, LENGTH_AT, size);
}

// Makes a parent of i + 1 slots, the last of which is s and the others are holes.
pub fn make(row: &mut [u8], f: MdtFid, i: usize, w: Owner, s: Slot)
    requires { (length row.old ≡ parent_size) × (i < max_slots) }
    ensures { row.new ≡ render_parent (made f i w s (drop 1 row.old)) }
{
    let size = PLAIN_HEADER + SLOT_SIZE * (i + 1);
    put_front(row, f, w, size as u16);
    pieces::put_header(row, ROOM_AT, made_header(f), (i + 1) as u16);
    pieces::put_holes(row, SLOTS_AT, i + 1);
    pieces::put_slot(row, SLOTS_AT + SLOT_SIZE * i, s);
}
