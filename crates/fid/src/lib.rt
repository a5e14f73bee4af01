// FIDs: read, written, compared, and tested by the good-FID rules.
#![tactic(auto)]

ghost use Rattle.std.specs.Prelude.{◌≡◌, ◌+◌, ◌≤◌, length, drop};
ghost use Rattle.std.proofs.lemmas.List.Edits.{sets};
ghost use Rattle.fid.specs.Fid.{fid_size, decode_fid, encode_fid, decode_fid_in, encode_fid_in, good_fid, good_number};

use wire::{ByteOrder, Little};

// Where id and version stand, after the 8 bytes of the sequence.
const ID_AT: usize = 8;

const VERSION_AT: usize = ID_AT + 4;

// The bytes of a FID.
pub const FID_SIZE: usize = VERSION_AT + 4;

// The sequences of good FIDs.
const LEAST_SEQUENCE: u64 = 0x2_0000_0400;

const GREATEST_SEQUENCE: u64 = 0xffff_ffff_ffff_fffe;

// Sequence, object id and version, as they stand on disk.
#[derive(Clone, Copy, Debug, PartialEq, Eq)]
pub struct Fid {
    pub seq: u64,
    pub oid: u32,
    pub ver: u32,
}

// The FID of a file, on an MDT.
#[derive(Clone, Copy, Debug, PartialEq, Eq)]
pub struct MdtFid(pub Fid);

// The FID of an object, on an OST.
#[derive(Clone, Copy, Debug, PartialEq, Eq)]
pub struct OstFid(pub Fid);

impl Fid {
    // The FID of 16 zero bytes.
    pub const ZERO: Fid = Fid {
        seq: 0,
        oid: 0,
        ver: 0,
    };

    // Whether sequence and object id are good, whatever the version.
    #[tactic(auto, unfolding(crate::specs::Fid::good_number, crate::specs::Fid::good_sequence))]
    pub fn is_good_number(self) -> bool
        ensures { result ≡ good_number self }
    {
        LEAST_SEQUENCE <= self.seq && self.seq <= GREATEST_SEQUENCE && 1 <= self.oid
    }

    // The good-FID rule.
    #[tactic(auto, unfolding(crate::specs::Fid::good_fid))]
    pub fn is_good(self) -> bool
        ensures { result ≡ good_fid self }
    {
        self.is_good_number() && self.ver == 0
    }
}

// The FID at a place of the slice, in either byte order.
pub fn read_in<O: ByteOrder>(s: &[u8], at: usize) -> Fid
    requires { at + fid_size ≤ length s.now }
    ensures { result ≡ decode_fid_in O.order (drop at s.now) }
{
    Fid {
        seq: wire::get::<u64, O>(s, at),
        oid: wire::get::<u32, O>(s, at + ID_AT),
        ver: wire::get::<u32, O>(s, at + VERSION_AT),
    }
}

// Writes a FID over the bytes at a place, in either byte order.
pub fn write_in<O: ByteOrder>(s: &mut [u8], at: usize, f: Fid)
    requires { at + fid_size ≤ length s.old }
    ensures { s.new ≡ sets s.old at (encode_fid_in O.order f) }
{
    wire::put::<u64, O>(s, at, f.seq);
    wire::put::<u32, O>(s, at + ID_AT, f.oid);
    wire::put::<u32, O>(s, at + VERSION_AT, f.ver);
}

// The FID at a place of the slice, little-endian as in every table.
pub fn read_fid(s: &[u8], at: usize) -> Fid
    requires { at + fid_size ≤ length s.now }
    ensures { result ≡ decode_fid (drop at s.now) }
{
    read_in::<Little>(s, at)
}

// Writes a FID over the bytes at a place, little-endian as in every table.
pub fn write_fid(s: &mut [u8], at: usize, f: Fid)
    requires { at + fid_size ≤ length s.old }
    ensures { s.new ≡ sets s.old at (encode_fid f) }
{
    write_in::<Little>(s, at, f);
}
