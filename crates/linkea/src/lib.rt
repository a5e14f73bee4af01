// The linkEA read: the whole, record by record, and one record at a place.
#![tactic(auto)]

ghost use Rattle.std.specs.Prelude.{◌≡◌, false, not, ◌&&◌, ◌≤◌, ◌<◌, length, eqb};
ghost use Rattle.linkea.specs.Link.{link_header, decode_link_header, places};
ghost use Rattle.linkea.specs.Conditions.{some, bad_byte, bad_record, refused_link};
ghost use Rattle.linkea.specs.Answers.{read_link, found_at, step_at, read_record};

use fid::{FID_SIZE, MdtFid};
use refusals::Refusal;
use wire::{Big, Little};

pub const LINK_MAGIC: u32 = 0x11ea_f1df;

// Where the fields of the header stand, after the 4 bytes of the magic number.
pub const COUNT_AT: usize = 4;

pub const TOTAL_AT: usize = COUNT_AT + 4;

pub const TIME_AT: usize = TOTAL_AT + 8;

pub const PADDING_AT: usize = TIME_AT + 4;

// The bytes of the header.
pub const LINK_HEADER: usize = PADDING_AT + 4;

// Where parent and name stand in a record, after the 2 bytes of its length.
pub const PARENT_AT: usize = 2;

pub const NAME_AT: usize = PARENT_AT + FID_SIZE;

// The bytes of the shortest record, whose name is one byte.
const SHORTEST_RECORD: usize = NAME_AT + 1;

const SLASH: u8 = 47;

// What a header says, the magic number aside: record count, total length, overflow time, padding.
#[derive(Clone, Copy)]
pub struct LinkHeader {
    pub count: u32,
    pub total: u64,
    pub time: u32,
    pub padding: u32,
}

// A record that was found: its parent, where its name starts, the name's length, and the place after the record.
#[derive(Clone, Copy)]
pub struct Found {
    pub parent: MdtFid,
    pub start: usize,
    pub size: usize,
    pub next: usize,
}

// The header that a linkEA begins with.
pub fn read_header(l: &[u8]) -> LinkHeader
    requires { link_header ≤ length l.now }
    ensures { result ≡ decode_link_header l.now }
{
    LinkHeader {
        count: wire::get::<u32, Little>(l, COUNT_AT),
        total: wire::get::<u64, Little>(l, TOTAL_AT),
        time: wire::get::<u32, Little>(l, TIME_AT),
        padding: wire::get::<u32, Little>(l, PADDING_AT),
    }
}

// Whether a byte may not stand in a name.
fn bad_byte(b: u8) -> bool
    ensures { result ≡ bad_byte b }
{
    b == SLASH || b == 0
}

// Whether a name has a slash or a zero byte.
pub fn bad_bytes(name: &[u8]) -> bool
    ensures { result ≡ some bad_byte name.now }
{
    name.iter().any(|b| bad_byte(*b))
}

// Whether a place before the end is no good record: too short, past the end, or with a bad name.
fn bad_record(l: &[u8], p: usize) -> bool
    requires { p < length l.now }
    ensures { result ≡ bad_record l.now p }
{
    let left = l.len() - p;
    if left < SHORTEST_RECORD {
        return true;
    }
    let n = wire::get::<u16, Big>(l, p) as usize;
    if n < SHORTEST_RECORD || left < n {
        return true;
    }
    bad_bytes(&l[p + NAME_AT..p + n])
}

// The good record at a place.
fn found_at(l: &[u8], p: usize) -> Found
    requires { (p < length l.now) × (bad_record l.now p ≡ false) }
    ensures { result ≡ found_at l.now p }
{
    let n = wire::get::<u16, Big>(l, p) as usize;
    Found {
        parent: MdtFid(fid::read_in::<Big>(l, p + PARENT_AT)),
        start: p + NAME_AT,
        size: n - NAME_AT,
        next: p + n,
    }
}

// The cursor: the record at a place, none at or past the end, or 31 where it is no record.
pub fn step_at(l: &[u8], p: usize) -> Result<Option<Found>, Refusal>
    ensures { result ≡ step_at l.now p }
{
    if p < LINK_HEADER {
        return Err(Refusal::BadLink);
    }
    if l.len() <= p {
        return Ok(None);
    }
    if bad_record(l, p) {
        return Err(Refusal::BadLink);
    }
    Ok(Some(found_at(l, p)))
}

// Whether the records are good, and as many as counted.
fn good_records(l: &[u8], count: usize) -> bool
    ensures { result ≡ (not (some (bad_record l.now) (places l.now)) && eqb count (length (places l.now))) }
{
    // A loop: the next place comes from the record read; `successors` gives places, and would read each length twice.
    let mut at = LINK_HEADER;
    let mut k = 0usize;
    while at < l.len() {
        if bad_record(l, at) {
            return false;
        }
        at = at + wire::get::<u16, Big>(l, at) as usize;
        k = k + 1;
    }
    count == k
}

// Whether one of the conditions of 31 holds.
pub fn refused(l: &[u8]) -> bool
    ensures { result ≡ refused_link l.now }
{
    if l.len() < LINK_HEADER {
        return true;
    }
    if wire::get::<u32, Little>(l, 0) != LINK_MAGIC {
        return true;
    }
    let h = read_header(l);
    if h.total != l.len() as u64 {
        return true;
    }
    !good_records(l, h.count as usize)
}

// Reads a linkEA: its header, or 31.
pub fn read(l: &[u8]) -> Result<LinkHeader, Refusal>
    ensures { result ≡ read_link l.now }
{
    if refused(l) {
        return Err(Refusal::BadLink);
    }
    Ok(read_header(l))
}

// Whether a record begins at a place of a linkEA that is not refused.
fn begins(l: &[u8], p: usize) -> bool
    requires { refused_link l.now ≡ false }
    ensures { result ≡ some (eqb p) (places l.now) }
{
    let end = l.len();
    if end <= p {
        return false;
    }
    // A loop: the next place comes from the record read; `successors` gives places, and would read each length twice.
    let mut at = LINK_HEADER;
    while at < p {
        at = at + wire::get::<u16, Big>(l, at) as usize;
    }
    at == p
}

// Reads the record at a place: 31 for the whole, then 16 where none begins there.
pub fn record_at(l: &[u8], p: usize) -> Result<Found, Refusal>
    ensures { result ≡ read_record l.now p }
{
    if refused(l) {
        return Err(Refusal::BadLink);
    }
    if !begins(l, p) {
        return Err(Refusal::NoPlace);
    }
    Ok(found_at(l, p))
}
