// A layout written from numbers.
#![tactic(auto)]

ghost use Rattle.std.specs.Prelude.{◌≡◌, cond, Some, None};
ghost use Rattle.refusals.specs.Numbers.{answer};
ghost use Rattle.capi_out.specs.Out.{out_numbers};
ghost use Rattle.capi_write.specs.Write.{magic_of, is_version, header_given, header_answer, header_dest, header_out, write_number, write_values, write_answer, write_dest};

use layout::Header;
use refusals::Refusal;

// The magic number of a version, if it is one.
fn magic_of(version: u64) -> Option<u32>
    ensures { result ≡ cond (is_version version) (Some (magic_of version)) None }
{
    match version {
        1 => Some(layout::MAGIC_ONE),
        3 => Some(layout::MAGIC_THREE),
        _ => None,
    }
}

// The header of the numbers handed in, if they are one.
fn given_header(fields: &[u64]) -> Option<Header>
    ensures { result ≡ header_given fields.now }
{
    let [version, pattern, oid, seq, stripe, _, generation] = *fields else {
        return None;
    };
    Some(Header {
        magic: magic_of(version)?,
        pattern: u32::try_from(pattern).ok()?,
        oid,
        seq,
        stripe: u32::try_from(stripe).ok()?,
        generation: u16::try_from(generation).ok()?,
    })
}

// Writes the layout of a header that was given; the bytes written into out.
fn write_given(
    h: Header,
    count: usize,
    pool: &[u8],
    slots: &[u64],
    dest: &mut [u8],
    out: &mut [u64],
) -> Result<(), Refusal>
    ensures answer { answer result ≡ header_answer h count pool.now slots.now dest.old out.old }
    ensures dest { dest.new ≡ header_dest h count pool.now slots.now dest.old out.old }
    ensures out { out.new ≡ header_out h count pool.now slots.now dest.old out.old }
{
    if !layout_write::may_write(h, count, pool, slots) {
        return Err(Refusal::BadLayout);
    }
    if out.len() < 1 {
        return Err(Refusal::TooShort);
    }
    let n = layout_write::write(h, count, pool, slots, dest)?;
    capi_out::put(out, 0, n as u64);
    Ok(())
}

// Writes a layout of 7 fields, a pool name and slots of 5 numbers each; the bytes written into out.
pub fn layout_write(
    fields: &[u64],
    pool: &[u8],
    slots: &[u64],
    dest: &mut [u8],
    out: &mut [u64],
) -> Result<(), Refusal>
    ensures answer { answer result ≡ write_answer fields.now pool.now slots.now dest.old out.old }
    ensures dest { dest.new ≡ write_dest fields.now pool.now slots.now dest.old out.old }
    ensures out { out.new ≡ out_numbers (write_number fields.now pool.now slots.now dest.old) (write_values fields.now) out.old }
{
    let h = given_header(fields).ok_or(Refusal::BadLayout)?;
    write_given(h, fields[5] as usize, pool, slots, dest, out)
}
