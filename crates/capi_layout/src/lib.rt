// Layouts as numbers: read, and one slot rewritten.
#![tactic(auto)]

ghost use Rattle.std.specs.Prelude.{◌≡◌, ◌≤◌, length};
ghost use Rattle.std.proofs.lemmas.List.Edits.{sets};
ghost use Rattle.refusals.specs.Numbers.{answer};
ghost use Rattle.layout.specs.Answers.{read_layout, read_number, read_slot, slot_read_number};
ghost use Rattle.layout_write.specs.Writer.{slot_numbers, slot_fields, slot_read_fields};
ghost use Rattle.capi_out.specs.Out.{out_answer, out_numbers};
ghost use Rattle.capi_layout.specs.Layouts.{header_numbers, version_of, header_fields, read_fields, rewrite_number, rewrite_left};

use layout::{Header, POOL_HEADER, Slot};
use layout_write::SLOT_NUMBERS;
use refusals::Refusal;

// The numbers of a header that is handed out.
const HEADER_NUMBERS: usize = 8;

fn version_of(magic: u32) -> u64
    ensures { result ≡ version_of magic }
{
    if layout::header_size(magic) == POOL_HEADER {
        3
    } else {
        1
    }
}

// Stores the fields of a header with its stripe count.
fn put_header(fields: &mut [u64], h: Header, count: u16)
    requires { header_numbers ≤ length fields.old }
    ensures { fields.new ≡ sets fields.old 0 (header_fields h count) }
{
    let start = layout::header_size(h.magic) as u64;
    capi_out::put_four(
        fields,
        0,
        version_of(h.magic),
        h.pattern as u64,
        h.oid,
        h.seq,
    );
    capi_out::put_four(
        fields,
        4,
        h.stripe as u64,
        count as u64,
        h.generation as u64,
        start,
    );
}

// Reads a layout: 8 numbers into fields.
pub fn layout_read(layout: &[u8], fields: &mut [u64]) -> Result<(), Refusal>
    ensures answer { answer result ≡ out_answer (read_number (read_layout layout.now)) (read_fields (read_layout layout.now)) fields.old }
    ensures fields { fields.new ≡ out_numbers (read_number (read_layout layout.now)) (read_fields (read_layout layout.now)) fields.old }
{
    let (h, count) = layout::read(layout)?;
    if fields.len() < HEADER_NUMBERS {
        return Err(Refusal::TooShort);
    }
    put_header(fields, h, count);
    Ok(())
}

// Stores the five numbers of a slot.
fn put_slot(out: &mut [u64], s: Slot)
    requires { slot_numbers ≤ length out.old }
    ensures { out.new ≡ sets out.old 0 (slot_fields s) }
{
    match s {
        Slot::Hole => {
            capi_out::put_four(out, 0, 0, 0, 0, 0);
            capi_out::put(out, 4, 0);
        }
        Slot::Names(f, g, i) => {
            let named = f.0;
            capi_out::put_four(out, 0, 1, named.seq, named.oid as u64, g as u64);
            capi_out::put(out, 4, i as u64);
        }
    }
}

// Reads slot `index` of a layout: 5 numbers into out.
pub fn layout_slot(layout: &[u8], index: u64, out: &mut [u64]) -> Result<(), Refusal>
    ensures answer { answer result ≡ out_answer (slot_read_number (read_slot layout.now index)) (slot_read_fields (read_slot layout.now index)) out.old }
    ensures out { out.new ≡ out_numbers (slot_read_number (read_slot layout.now index)) (slot_read_fields (read_slot layout.now index)) out.old }
{
    let s = layout::read_slot(layout, index as usize)?;
    if out.len() < SLOT_NUMBERS {
        return Err(Refusal::TooShort);
    }
    put_slot(out, s);
    Ok(())
}

// Rewrites slot `index` of a layout in place, the slot as 5 numbers.
pub fn slot_rewrite(layout: &mut [u8], index: u64, slot: &[u64]) -> Result<(), Refusal>
    ensures answer { answer result ≡ rewrite_number layout.old index slot.now }
    ensures layout { layout.new ≡ rewrite_left layout.old index slot.now }
{
    let [k, s, o, g, i] = *slot else {
        return Err(Refusal::BadLayout);
    };
    let given = layout_write::given_from(k, s, o, g, i).ok_or(Refusal::BadLayout)?;
    layout::rewrite(layout, index as usize, given)
}
