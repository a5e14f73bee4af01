// Entry rows and child rows, each handed on as a part of its table: where the fields stand, and what they say.
ghost use Rattle.std.specs.Prelude.{◌≡◌, ◌≤◌, length};
ghost use Rattle.std.proofs.lemmas.List.Edits.{sets};
ghost use Rattle.fid.specs.Fid.{encode_fid};
ghost use Rattle.names.specs.Rows.{entry_size, child_size, name_room, link_room, child_fid_at, decode_entry, decode_child, is_none, name_length, link_length, link_bytes};

use fid::{FID_SIZE, Fid, MdtFid};
use wire::Little;

// An entry row: parent FID, child's row, child FID, name length, name.
pub const CHILD_ROW_AT: usize = FID_SIZE;

pub const CHILD_FID_AT: usize = CHILD_ROW_AT + 4;

pub const NAME_LENGTH_AT: usize = CHILD_FID_AT + FID_SIZE;

pub const ENTRY_NAME_AT: usize = NAME_LENGTH_AT + 2;

pub const NAME_ROOM: usize = 255;

pub const ENTRY_SIZE: usize = ENTRY_NAME_AT + NAME_ROOM;

// A child row: self FID, `..`, linkEA length, and the room.
pub const UP_AT: usize = FID_SIZE;

pub const LINK_LENGTH_AT: usize = UP_AT + FID_SIZE;

pub const LINK_ROOM_AT: usize = LINK_LENGTH_AT + 2;

pub const LINK_ROOM: usize = 4096;

pub const CHILD_SIZE: usize = LINK_ROOM_AT + LINK_ROOM;

// Whether a FID is none.
pub fn is_none(f: MdtFid) -> bool
    ensures { result ≡ is_none f }
{
    let g = f.0;
    g == Fid::ZERO
}

// The directory of an entry.
pub fn parent_of(row: &[u8]) -> MdtFid
    requires { length row.now ≡ entry_size }
    ensures { result ≡ (decode_entry row.now).parent }
{
    MdtFid(fid::read_fid(row, 0))
}

// The row of its child.
pub fn child_of(row: &[u8]) -> u32
    requires { length row.now ≡ entry_size }
    ensures { result ≡ (decode_entry row.now).child }
{
    wire::get::<u32, Little>(row, CHILD_ROW_AT)
}

// The FID-in-dirent.
pub fn fid_of(row: &[u8]) -> MdtFid
    requires { length row.now ≡ entry_size }
    ensures { result ≡ (decode_entry row.now).fid }
{
    MdtFid(fid::read_fid(row, CHILD_FID_AT))
}

// The length of the name.
pub fn name_len(row: &[u8]) -> u16
    requires { length row.now ≡ entry_size }
    ensures { result ≡ name_length row.now }
{
    wire::get::<u16, Little>(row, NAME_LENGTH_AT)
}

// The name.
pub fn name_of(row: &[u8]) -> &[u8]
    requires { (length row.now ≡ entry_size) × (name_length row.now ≤ name_room) }
    ensures { (result.now ≡ (decode_entry row.now).name) × (length result.now ≡ name_length row.now) }
{
    let start = ENTRY_NAME_AT;
    let end = start + name_len(row) as usize;
    &row[start..end]
}

// Writes the FID-in-dirent.
pub fn put_fid(row: &mut [u8], f: MdtFid)
    requires { length row.old ≡ entry_size }
    ensures { row.new ≡ sets row.old child_fid_at (encode_fid f.0) }
{
    let g = f.0;
    fid::write_fid(row, CHILD_FID_AT, g);
}

// The self FID of a child.
pub fn self_of(row: &[u8]) -> MdtFid
    requires { length row.now ≡ child_size }
    ensures { result ≡ (decode_child row.now).self }
{
    MdtFid(fid::read_fid(row, 0))
}

// Its `..`.
pub fn up_of(row: &[u8]) -> MdtFid
    requires { length row.now ≡ child_size }
    ensures { result ≡ (decode_child row.now).up }
{
    MdtFid(fid::read_fid(row, UP_AT))
}

// The length of its linkEA.
pub fn link_len(row: &[u8]) -> u16
    requires { length row.now ≡ child_size }
    ensures { result ≡ link_length row.now }
{
    wire::get::<u16, Little>(row, LINK_LENGTH_AT)
}

// The bytes of its linkEA.
pub fn link_of(row: &[u8]) -> &[u8]
    requires { (length row.now ≡ child_size) × (link_length row.now ≤ link_room) }
    ensures { (result.now ≡ link_bytes row.now) × (length result.now ≡ link_length row.now) }
{
    let start = LINK_ROOM_AT;
    let end = start + link_len(row) as usize;
    &row[start..end]
}

// Writes the self FID.
pub fn put_self(row: &mut [u8], f: MdtFid)
    requires { length row.old ≡ child_size }
    ensures { row.new ≡ sets row.old 0 (encode_fid f.0) }
{
    let g = f.0;
    fid::write_fid(row, 0, g);
}
