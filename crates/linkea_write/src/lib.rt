// The linkEA writer, whose records are handed in as numbers, with the bytes in which their names lie.
#![tactic(auto)]

ghost use Rattle.std.specs.Prelude.{◌≡◌, false, not, cond, Some, None, map, ◌+◌, ◌≤◌, ◌<◌, ◌^◌, length, sum_by};
ghost use Rattle.std.specs.List.{list_any};
ghost use Rattle.std.proofs.lemmas.List.Edits.{sets};
ghost use Rattle.linkea.specs.Link.{link_header, name_at, encode_link_header, encode_link, encode_links};
ghost use Rattle.linkea_write.specs.Writer.{parent_given, size_given, link_given, wide_parent, bad_given, refused_given, write_link, write_link_bytes};

use fid::{Fid, MdtFid};
use linkea::{
    COUNT_AT, LINK_HEADER, LINK_MAGIC, LinkHeader, NAME_AT, PADDING_AT, PARENT_AT, TIME_AT,
    TOTAL_AT,
};
use refusals::Refusal;
use wire::{Big, Little};

// The numbers of a record that is handed in: sequence, id and version of the parent, where the name starts, its length.
pub const LINK_NUMBERS: usize = 5;

// Where the name's length stands among them.
const SIZE_AT: usize = 4;

// The bytes of the longest record, and of its name.
const LONGEST_RECORD: u64 = 65535;

const LONGEST_NAME: u64 = LONGEST_RECORD - NAME_AT as u64;

// The parent of a record that is handed in, if its id and version fit their fields.
fn parent_given(given: &[u64; LINK_NUMBERS]) -> Option<MdtFid>
    ensures { result ≡ cond (wide_parent given.now 0) None (Some (parent_given given.now 0)) }
{
    let [seq, oid, ver, _, _] = *given;
    Some(MdtFid(Fid {
        seq,
        oid: u32::try_from(oid).ok()?,
        ver: u32::try_from(ver).ok()?,
    }))
}

// Whether the writer refuses it.
fn bad_given(given: &[u64; LINK_NUMBERS], names: &[u8]) -> bool
    ensures { result ≡ bad_given given.now names.now 0 }
{
    if parent_given(given).is_none() {
        return true;
    }
    let [_, _, _, start, size] = *given;
    if size == 0 {
        return true;
    }
    if LONGEST_NAME < size {
        return true;
    }
    let end = names.len() as u64;
    if end < size {
        return true;
    }
    if end - size < start {
        return true;
    }
    let a = start as usize;
    linkea::bad_bytes(&names[a..a + size as usize])
}

// Whether each of the records handed in is one that the writer takes.
fn good_given(records: &[[u64; LINK_NUMBERS]], names: &[u8]) -> bool
    ensures { result ≡ not (list_any (λ given. bad_given given names.now 0) records.now) }
{
    !records.iter().any(|given| bad_given(given, names))
}

// The bytes of the linkEA of the records handed in.
fn total_given(records: &[[u64; LINK_NUMBERS]]) -> u64
    requires { link_header + sum_by (λ given. name_at + size_given given 0) records.now < 2 ^ 64 }
    ensures { result ≡ link_header + sum_by (λ given. name_at + size_given given 0) records.now }
{
    let mut total = LINK_HEADER as u64;
    for given in records {
        total += NAME_AT as u64 + given[SIZE_AT];
    }
    total
}

// Whether the writer refuses what it is handed.
pub fn refused_given(h: LinkHeader, numbers: &[u64], names: &[u8]) -> bool
    ensures { result ≡ refused_given h numbers.now names.now }
{
    if numbers.len() != LINK_NUMBERS * h.count as usize {
        return true;
    }
    let (records, _) = numbers.as_chunks::<LINK_NUMBERS>();
    if !good_given(records, names) {
        return true;
    }
    h.total != total_given(records)
}

// Writes a header over the first bytes.
pub fn write_header(dest: &mut [u8], h: LinkHeader)
    requires { link_header ≤ length dest.old }
    ensures { dest.new ≡ sets dest.old 0 (encode_link_header h) }
{
    wire::put::<u32, Little>(dest, 0, LINK_MAGIC);
    wire::put::<u32, Little>(dest, COUNT_AT, h.count);
    wire::put::<u64, Little>(dest, TOTAL_AT, h.total);
    wire::put::<u32, Little>(dest, TIME_AT, h.time);
    wire::put::<u32, Little>(dest, PADDING_AT, h.padding);
}

// Writes a record over the bytes that it is lent.
fn put_given(part: &mut [u8], given: &[u64; LINK_NUMBERS], names: &[u8])
    requires taken { bad_given given.now names.now 0 ≡ false }
    requires room { length part.old ≡ name_at + size_given given.now 0 }
    ensures { part.new ≡ encode_link (link_given given.now names.now 0) }
{
    let [_, _, _, start, size] = *given;
    let parent = parent_given(given).unwrap();
    let a = start as usize;
    let n = size as usize;
    wire::put::<u16, Big>(part, 0, (NAME_AT + n) as u16);
    fid::write_in::<Big>(part, PARENT_AT, parent.0);
    wire::put_bytes(part, NAME_AT, &names[a..a + n]);
}

// Writes the records one after the other, from the end of the header on.
fn write_records(dest: &mut [u8], records: &[[u64; LINK_NUMBERS]], names: &[u8])
    requires taken { list_any (λ given. bad_given given names.now 0) records.now ≡ false }
    requires room { link_header + sum_by (λ given. name_at + size_given given 0) records.now ≤ length dest.old }
    ensures { dest.new ≡ sets dest.old link_header (encode_links (map (λ given. link_given given names.now 0) records.now)) }
{
    let mut a = LINK_HEADER;
    for given in records {
        let e = a + (NAME_AT + given[SIZE_AT] as usize);
        put_given(&mut dest[a..e], given, names);
        a = e;
    }
}

// Writes a linkEA at the start of the destination and gives the bytes written: 31 for what it is handed, then 17 for the room.
pub fn write(
    h: LinkHeader,
    numbers: &[u64],
    names: &[u8],
    dest: &mut [u8],
) -> Result<usize, Refusal>
    ensures answer { result ≡ write_link h numbers.now names.now dest.old }
    ensures bytes { dest.new ≡ write_link_bytes h numbers.now names.now dest.old }
{
    if refused_given(h, numbers, names) {
        return Err(Refusal::BadLink);
    }
    if (dest.len() as u64) < h.total {
        return Err(Refusal::TooShort);
    }
    write_header(dest, h);
    let (records, _) = numbers.as_chunks::<LINK_NUMBERS>();
    write_records(dest, records, names);
    Ok(h.total as usize)
}
