// The layout writer, whose slots are handed in as numbers.
#![tactic(auto)]

ghost use Rattle.std.specs.Prelude.{◌≡◌, ◌&&◌, ◌+◌, ◌*◌, ◌/◌, ◌≤◌, length};
ghost use Rattle.std.proofs.lemmas.List.Edits.{sets};
ghost use Rattle.layout.specs.Slot.{slot_size, encode_slot, encode_slots, allowed_slot, allowed_slots};
ghost use Rattle.layout_write.specs.Writer.{slot_numbers, zero_given, given_from, given_at, is_slot, slot_given, given_slots, all_given, writable, write_layout, write_bytes};

use fid::{Fid, OstFid};
use layout::{Header, MAX_SLOTS, PLAIN_HEADER, SLOT_SIZE, Slot};
use refusals::Refusal;

// The numbers of a slot that is handed in.
pub const SLOT_NUMBERS: usize = 5;

// Whether five numbers are all zero.
fn is_zero_given(k: u64, s: u64, o: u64, g: u64, i: u64) -> bool
    ensures { result ≡ zero_given k s o g i }
{
    k == 0 && s == 0 && o == 0 && g == 0 && i == 0
}

// The slot of five numbers, if they are one.
pub fn given_from(k: u64, s: u64, o: u64, g: u64, i: u64) -> Option<Slot>
    ensures { result ≡ given_from k s o g i }
{
    if is_zero_given(k, s, o, g, i) {
        return Some(Slot::Hole);
    }
    if k != 1 {
        return None;
    }
    let f = Fid {
        seq: s,
        oid: u32::try_from(o).ok()?,
        ver: 0,
    };
    let generation = u32::try_from(g).ok()?;
    let index = u32::try_from(i).ok()?;
    Some(Slot::Names(OstFid(f), generation, index))
}

// The j-th slot of a list of numbers, five to a slot.
fn given_at(numbers: &[u64], j: usize) -> Option<Slot>
    requires { slot_numbers * j + slot_numbers ≤ length numbers.now }
    ensures { result ≡ given_at numbers.now j }
{
    let a = SLOT_NUMBERS * j;
    given_from(
        numbers[a],
        numbers[a + 1],
        numbers[a + 2],
        numbers[a + 3],
        numbers[a + 4],
    )
}

// Whether a slot is given, and allowed.
fn allowed_given(holes: bool, g: Option<Slot>) -> bool
    ensures { result ≡ (is_slot g && allowed_slot holes (slot_given g)) }
{
    g.is_some_and(|s| layout::allowed_slot(holes, s))
}

// Whether each of the slots handed in is one, and allowed.
fn allowed_numbers(numbers: &[u64], holes: bool) -> bool
    ensures { result ≡ (all_given numbers.now (length numbers.now / slot_numbers) 0 && allowed_slots holes (given_slots numbers.now (length numbers.now / slot_numbers) 0)) }
{
    numbers
        .chunks_exact(SLOT_NUMBERS)
        .all(|five| allowed_given(holes, given_at(five, 0)))
}

// Whether the writer takes these fields, this pool name and these slots.
pub fn may_write(h: Header, count: usize, pool: &[u8], numbers: &[u64]) -> bool
    ensures { result ≡ writable h count pool.now numbers.now }
{
    count <= MAX_SLOTS
        && numbers.len() == SLOT_NUMBERS * count
        && pool.len() == layout::header_size(h.magic) - PLAIN_HEADER
        && layout::good_header(h)
        && allowed_numbers(numbers, layout::with_holes(h))
}

// Writes the j-th of the slots handed in over the 24 bytes that it is lent.
fn put_given(part: &mut [u8], numbers: &[u64], j: usize)
    requires { (length part.old ≡ slot_size) × (slot_numbers * j + slot_numbers ≤ length numbers.now) }
    ensures { part.new ≡ encode_slot (slot_given (given_at numbers.now j)) }
{
    layout::put_slot(part, given_at(numbers, j).unwrap_or(Slot::Hole));
}

// Writes the slots handed in, from a place on.
fn write_slots(dest: &mut [u8], start: usize, numbers: &[u64], count: usize)
    requires { (start + slot_size * count ≤ length dest.old) × (length numbers.now ≡ slot_numbers * count) }
    ensures { dest.new ≡ sets dest.old start (encode_slots (given_slots numbers.now count 0)) }
{
    // A loop: of parts lent by chunks_exact_mut a proof knows the length, and not what was written.
    for j in 0..count {
        let a = start + SLOT_SIZE * j;
        let e = a + SLOT_SIZE;
        put_given(&mut dest[a..e], numbers, j);
    }
}

// Writes a layout at the start of the destination: 13 for what it is handed, then 17 for the room.
pub fn write(
    h: Header,
    count: usize,
    pool: &[u8],
    numbers: &[u64],
    dest: &mut [u8],
) -> Result<usize, Refusal>
    ensures answer { result ≡ write_layout h count pool.now numbers.now dest.old }
    ensures bytes { dest.new ≡ write_bytes h count pool.now numbers.now dest.old }
{
    if !may_write(h, count, pool, numbers) {
        return Err(Refusal::BadLayout);
    }
    let start = layout::header_size(h.magic);
    let size = start + SLOT_SIZE * count;
    if dest.len() < size {
        return Err(Refusal::TooShort);
    }
    layout::write_header(dest, h, count as u16);
    wire::put_bytes(dest, PLAIN_HEADER, pool);
    write_slots(dest, start, numbers, count);
    Ok(size)
}
