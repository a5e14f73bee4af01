// The rows of the lent tables, each handed on as a part, and what a row says.
ghost use Rattle.std.specs.Prelude.{◌≡◌, ◌+◌, ◌*◌, ◌≤◌, length, take, drop};
ghost use Rattle.fid.specs.Fid.{zero_fid, same_fid};
ghost use Rattle.tables.specs.Bytes.{owner_at, length_at, room_at, self_fid, object_size, parent_size, layout_room, layout_bytes, is_used, decode_owner, claim_from, decode_object, decode_parent, layout_length};

use super::{Object, Owner, Place};
use fid::{FID_SIZE, Fid, MdtFid, OstFid};
use wire::Little;

// Where the self FID stands in both kinds of row: after the mark.
pub const SELF_AT: usize = 1;

// The bytes of uid and gid.
pub const OWNER_SIZE: usize = 8;

// The room for a layout.
pub const LAYOUT_ROOM: usize = layout::MAX_LAYOUT;

// A parent row: mark, self FID, uid and gid, layout length, and the room.
pub const OWNER_AT: usize = SELF_AT + FID_SIZE;

pub const LENGTH_AT: usize = OWNER_AT + OWNER_SIZE;

pub const ROOM_AT: usize = LENGTH_AT + 2;

pub const PARENT_SIZE: usize = ROOM_AT + LAYOUT_ROOM;

// The bytes of a claim.
pub const CLAIM_SIZE: usize = FID_SIZE;

// An object row: mark, self FID, OST index, uid and gid, claim, fresh mark.
pub const OST_AT: usize = SELF_AT + FID_SIZE;

pub const OBJECT_OWNER_AT: usize = OST_AT + 4;

pub const CLAIM_AT: usize = OBJECT_OWNER_AT + OWNER_SIZE;

pub const FRESH_AT: usize = CLAIM_AT + CLAIM_SIZE;

pub const OBJECT_SIZE: usize = FRESH_AT + 1;

// An entry of the reserve.
pub const ENTRY_SIZE: usize = FID_SIZE;

// Row r of a table.
pub fn row_at(table: &[u8], size: usize, r: usize) -> &[u8]
    requires { size * r + size ≤ length table.now }
    ensures { (result.now ≡ take size (drop (size * r) table.now)) × (length result.now ≡ size) }
{
    let a = size * r;
    let e = a + size;
    &table[a..e]
}

// The used mark.
pub fn is_used(row: &[u8]) -> bool
    requires { 1 ≤ length row.now }
    ensures { result ≡ is_used row.now }
{
    row[0] == 1
}

// The self FID, which stands after the mark in both kinds of row.
pub fn self_fid(row: &[u8]) -> Fid
    requires { owner_at ≤ length row.now }
    ensures { result ≡ self_fid row.now }
{
    fid::read_fid(row, SELF_AT)
}

// The uid and gid at a place of the row.
pub fn owner_at(row: &[u8], at: usize) -> Owner
    requires { at + 8 ≤ length row.now }
    ensures { result ≡ decode_owner (drop at row.now) }
{
    Owner {
        uid: wire::get::<u32, Little>(row, at),
        gid: wire::get::<u32, Little>(row, at + 4),
    }
}

// Whether a FID is that of 16 zero bytes.
pub fn is_zero(f: Fid) -> bool
    ensures { result ≡ same_fid f zero_fid }
{
    f == Fid::ZERO
}

// The claim of a FID whose version is the stripe index: 16 zero bytes are no claim.
pub fn claim_from(f: Fid) -> Option<Place>
    ensures { result ≡ claim_from f }
{
    if is_zero(f) {
        return None;
    }
    let file = Fid {
        seq: f.seq,
        oid: f.oid,
        ver: 0,
    };
    let place = Place {
        file: MdtFid(file),
        index: f.ver,
    };
    Some(place)
}

// What an object row says.
pub fn decode_object(row: &[u8]) -> Object
    requires { length row.now ≡ object_size }
    ensures { result ≡ decode_object row.now }
{
    let name = fid::read_fid(row, SELF_AT);
    let ost = wire::get::<u32, Little>(row, OST_AT);
    let owner = owner_at(row, OBJECT_OWNER_AT);
    let claim = claim_from(fid::read_fid(row, CLAIM_AT));
    let fresh = row[FRESH_AT] == 1;
    Object {
        fid: OstFid(name),
        ost,
        owner,
        claim,
        fresh,
    }
}

// The file that a parent row is of.
pub fn self_of(row: &[u8]) -> MdtFid
    requires { owner_at ≤ length row.now }
    ensures { result ≡ (decode_parent row.now).self }
{
    MdtFid(fid::read_fid(row, SELF_AT))
}

// The file's owner.
pub fn owner_of(row: &[u8]) -> Owner
    requires { length_at ≤ length row.now }
    ensures { result ≡ (decode_parent row.now).owner }
{
    owner_at(row, OWNER_AT)
}

// The length of a parent row's layout.
pub fn layout_len(row: &[u8]) -> u16
    requires { room_at ≤ length row.now }
    ensures { result ≡ layout_length row.now }
{
    wire::get::<u16, Little>(row, LENGTH_AT)
}

// A parent row's layout.
pub fn layout_of(row: &[u8]) -> &[u8]
    requires { (length row.now ≡ parent_size) × (layout_length row.now ≤ layout_room) }
    ensures { (result.now ≡ layout_bytes row.now) × (length result.now ≡ layout_length row.now) }
{
    let start = ROOM_AT;
    let end = start + layout_len(row) as usize;
    &row[start..end]
}
