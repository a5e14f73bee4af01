// LinkEA values as numbers: read, one record of them, and written.
#![tactic(auto)]

ghost use Rattle.std.specs.Prelude.{◌≡◌, ◌≤◌, length};
ghost use Rattle.std.proofs.lemmas.List.Edits.{sets};
ghost use Rattle.refusals.specs.Numbers.{answer};
ghost use Rattle.linkea.specs.Answers.{read_link, reading_number, read_record, record_number};
ghost use Rattle.capi_out.specs.Out.{out_answer, out_numbers};
ghost use Rattle.capi_link.specs.Links.{read_fields, record_numbers, found_fields, record_fields, header_given, given_answer, given_dest, given_out, write_answer, write_dest, write_out};

use linkea::{Found, LinkHeader};
use refusals::Refusal;

// The numbers of a header.
const HEADER_NUMBERS: usize = 4;

// The numbers of a record that is handed out.
const RECORD_NUMBERS: usize = 6;

// Reads a linkEA: 4 numbers into out.
pub fn link_read(link: &[u8], out: &mut [u64]) -> Result<(), Refusal>
    ensures answer { answer result ≡ out_answer (reading_number (read_link link.now)) (read_fields (read_link link.now)) out.old }
    ensures out { out.new ≡ out_numbers (reading_number (read_link link.now)) (read_fields (read_link link.now)) out.old }
{
    let h = linkea::read(link)?;
    if out.len() < HEADER_NUMBERS {
        return Err(Refusal::TooShort);
    }
    out[..HEADER_NUMBERS].copy_from_slice(&[
        h.count as u64,
        h.total,
        h.time as u64,
        h.padding as u64,
    ]);
    Ok(())
}

// Stores the six numbers of a record.
fn put_found(out: &mut [u64], x: Found)
    requires { record_numbers ≤ length out.old }
    ensures { out.new ≡ sets out.old 0 (found_fields x) }
{
    let parent = x.parent.0;
    out[..RECORD_NUMBERS].copy_from_slice(&[
        parent.seq,
        parent.oid as u64,
        parent.ver as u64,
        x.start as u64,
        x.size as u64,
        x.next as u64,
    ]);
}

// Reads the record at a place: 6 numbers into out.
pub fn link_record(link: &[u8], place: u64, out: &mut [u64]) -> Result<(), Refusal>
    ensures answer { answer result ≡ out_answer (record_number (read_record link.now place)) (record_fields (read_record link.now place)) out.old }
    ensures out { out.new ≡ out_numbers (record_number (read_record link.now place)) (record_fields (read_record link.now place)) out.old }
{
    let x = linkea::record_at(link, place as usize)?;
    if out.len() < RECORD_NUMBERS {
        return Err(Refusal::TooShort);
    }
    put_found(out, x);
    Ok(())
}

// The header of the numbers handed in, if there are four and each fits its field.
fn given_header(fields: &[u64]) -> Option<LinkHeader>
    ensures { result ≡ header_given fields.now }
{
    let &[count, total, time, padding] = fields else {
        return None;
    };
    Some(LinkHeader {
        count: u32::try_from(count).ok()?,
        total,
        time: u32::try_from(time).ok()?,
        padding: u32::try_from(padding).ok()?,
    })
}

// Writes the linkEA of a header that was given; the bytes written into out.
fn write_given(
    h: LinkHeader,
    records: &[u64],
    names: &[u8],
    dest: &mut [u8],
    out: &mut [u64],
) -> Result<(), Refusal>
    ensures answer { answer result ≡ given_answer h records.now names.now dest.old out.old }
    ensures dest { dest.new ≡ given_dest h records.now names.now dest.old out.old }
    ensures out { out.new ≡ given_out h records.now names.now dest.old out.old }
{
    if out.is_empty() {
        if linkea_write::refused_given(h, records, names) {
            return Err(Refusal::BadLink);
        }
        return Err(Refusal::TooShort);
    }
    let n = linkea_write::write(h, records, names, dest)?;
    out[0] = n as u64;
    Ok(())
}

// Writes a linkEA of 4 fields and records of 5 numbers each; the bytes written into out.
pub fn link_write(
    fields: &[u64],
    records: &[u64],
    names: &[u8],
    dest: &mut [u8],
    out: &mut [u64],
) -> Result<(), Refusal>
    ensures answer { answer result ≡ write_answer fields.now records.now names.now dest.old out.old }
    ensures dest { dest.new ≡ write_dest fields.now records.now names.now dest.old out.old }
    ensures out { out.new ≡ write_out fields.now records.now names.now dest.old out.old }
{
    let h = given_header(fields).ok_or(Refusal::BadLink)?;
    write_given(h, records, names, dest, out)
}
