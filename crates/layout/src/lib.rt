// Striping layouts, version 1 and 3: reader, slot reader and slot rewrite, and the pieces that the writer is made of.
#![tactic(auto)]

ghost use Rattle.std.specs.Prelude.{◌≡◌, true, ◌&&◌, ◌+◌, ◌*◌, ◌/◌, ◌≤◌, ◌<◌, length, drop};
ghost use Rattle.std.proofs.lemmas.List.Edits.{sets};
ghost use Rattle.refusals.specs.Numbers.{answer};
ghost use Rattle.layout.specs.Slot.{slot_size, zero_slot, slot_of, encode_slot, decode_slots, allowed_slot, allowed_slots, slot_names, same_slot};
ghost use Rattle.layout.specs.Layout.{plain_header, stripe_count_at, header_size, decode_header, encode_header, decode_layout, encode_layout, next_generation, raised, changed, stripe_count, slot_start, known_version, known_pattern, possible_stripe, good_header, with_holes, exact_length, accepted_layout};
ghost use Rattle.layout.specs.Answers.{read_layout, read_slot, rewrite_answer, rewrite_bytes};

use fid::{FID_SIZE, Fid, OstFid};
use refusals::Refusal;
use wire::Little;

// The greatest number of slots.
pub const MAX_SLOTS: usize = 2000;

// The greatest OST index.
pub const MAX_INDEX: u32 = 65535;

pub const MAGIC_ONE: u32 = 0x0bd1_0bd0;

pub const MAGIC_THREE: u32 = 0x0bd3_0bd0;

// Where generation and OST index stand in a slot, after its FID.
const SLOT_GENERATION_AT: usize = FID_SIZE;

const SLOT_INDEX_AT: usize = SLOT_GENERATION_AT + 4;

// The bytes of a slot.
pub const SLOT_SIZE: usize = SLOT_INDEX_AT + 4;

// Where the fields of a header stand, after the 4 bytes of the magic number.
const PATTERN_AT: usize = 4;

const OWN_ID_AT: usize = PATTERN_AT + 4;

const OWN_SEQUENCE_AT: usize = OWN_ID_AT + 8;

const STRIPE_SIZE_AT: usize = OWN_SEQUENCE_AT + 8;

const STRIPE_COUNT_AT: usize = STRIPE_SIZE_AT + 4;

const GENERATION_AT: usize = STRIPE_COUNT_AT + 2;

// The bytes of a header, without and with a pool name.
pub const PLAIN_HEADER: usize = GENERATION_AT + 2;

const POOL_SIZE: usize = 16;

pub const POOL_HEADER: usize = PLAIN_HEADER + POOL_SIZE;

// The bytes of the longest layout.
pub const MAX_LAYOUT: usize = POOL_HEADER + SLOT_SIZE * MAX_SLOTS;

const PLAIN_PATTERN: u32 = 1;

pub const HOLE_PATTERN: u32 = 0x4000_0001;

// Of what a stripe size is a multiple.
const STRIPE_UNIT: u32 = 65536;

// One stripe: a hole, or an object's FID, the generation and the OST index.
// No Option: document 01 speaks of slots that are holes, and an Option here says that there is no such slot.
#[derive(Clone, Copy, Debug, PartialEq, Eq)]
pub enum Slot {
    Hole,
    Names(OstFid, u32, u32),
}

// What a header says, the stripe count aside: magic, pattern, own id and own sequence, stripe size, generation.
#[derive(Clone, Copy, Debug, PartialEq, Eq)]
pub struct Header {
    pub magic: u32,
    pub pattern: u32,
    pub oid: u64,
    pub seq: u64,
    pub stripe: u32,
    pub generation: u16,
}

// Whether the five numbers of a slot are all zero.
fn is_zero_slot(f: Fid, g: u32, i: u32) -> bool
    ensures { result ≡ zero_slot f g i }
{
    f.seq == 0 && f.oid == 0 && f.ver == 0 && g == 0 && i == 0
}

// Slot j of the slot area, the part of a layout after its header.
pub fn slot_at(area: &[u8], j: usize) -> Slot
    requires { slot_size * j + slot_size ≤ length area.now }
    ensures { result ≡ slot_of area.now j }
{
    let at = SLOT_SIZE * j;
    let f = fid::read_fid(area, at);
    let g = wire::get::<u32, Little>(area, at + SLOT_GENERATION_AT);
    let i = wire::get::<u32, Little>(area, at + SLOT_INDEX_AT);
    if is_zero_slot(f, g, i) {
        Slot::Hole
    } else {
        Slot::Names(OstFid(f), g, i)
    }
}

// Whether a slot names an object.
pub fn names(s: Slot, f: OstFid) -> bool
    ensures { result ≡ slot_names f s }
{
    match s {
        Slot::Hole => false,
        Slot::Names(g, _, _) => g == f,
    }
}

// Whether slot j of a slot area names an object. The FID is compared first, in which most slots differ: whether a slot is a hole
// is asked of the others alone.
#[tactic(auto, using(crate::proofs::SlotLaws::other_fid))]
pub fn names_at(area: &[u8], j: usize, f: OstFid) -> bool
    requires { slot_size * j + slot_size ≤ length area.now }
    ensures { result ≡ slot_names f (slot_of area.now j) }
{
    OstFid(fid::read_fid(area, SLOT_SIZE * j)) == f && names(slot_at(area, j), f)
}

// Whether a slot may stand in a layout, with or without the hole pattern.
pub fn allowed_slot(holes: bool, s: Slot) -> bool
    ensures { result ≡ allowed_slot holes s }
{
    match s {
        Slot::Hole => holes,
        Slot::Names(f, _, i) => f.0.is_good() && i <= MAX_INDEX,
    }
}

// Whether each slot of a slot area is allowed.
fn allowed_slots(area: &[u8], holes: bool) -> bool
    ensures { result ≡ allowed_slots holes (decode_slots (length area.now / slot_size) area.now) }
{
    area.chunks_exact(SLOT_SIZE)
        .all(|part| allowed_slot(holes, slot_at(part, 0)))
}

// Writes a slot over the 24 bytes that it is lent.
pub fn put_slot(part: &mut [u8], s: Slot)
    requires { length part.old ≡ slot_size }
    ensures { part.new ≡ encode_slot s }
{
    match s {
        Slot::Hole => {
            wire::put::<u64, Little>(part, 0, 0);
            wire::put::<u64, Little>(part, 8, 0);
            wire::put::<u64, Little>(part, 16, 0);
        }
        Slot::Names(f, g, i) => {
            let named = f.0;
            fid::write_fid(part, 0, named);
            wire::put::<u32, Little>(part, SLOT_GENERATION_AT, g);
            wire::put::<u32, Little>(part, SLOT_INDEX_AT, i);
        }
    }
}

// The header's length by the magic number.
pub fn header_size(magic: u32) -> usize
    ensures { result ≡ header_size magic }
{
    if magic == MAGIC_THREE {
        POOL_HEADER
    } else {
        PLAIN_HEADER
    }
}

// Where the slots start.
pub fn slot_start(layout: &[u8]) -> usize
    requires { 4 ≤ length layout.now }
    ensures { result ≡ slot_start layout.now }
{
    header_size(wire::get::<u32, Little>(layout, 0))
}

// The stripe count of a header.
pub fn stripe_count(layout: &[u8]) -> u16
    requires { stripe_count_at + 2 ≤ length layout.now }
    ensures { result ≡ stripe_count layout.now }
{
    wire::get::<u16, Little>(layout, STRIPE_COUNT_AT)
}

// The header that a layout begins with.
pub fn read_header(layout: &[u8]) -> Header
    requires { plain_header ≤ length layout.now }
    ensures { result ≡ decode_header layout.now }
{
    Header {
        magic: wire::get::<u32, Little>(layout, 0),
        pattern: wire::get::<u32, Little>(layout, PATTERN_AT),
        oid: wire::get::<u64, Little>(layout, OWN_ID_AT),
        seq: wire::get::<u64, Little>(layout, OWN_SEQUENCE_AT),
        stripe: wire::get::<u32, Little>(layout, STRIPE_SIZE_AT),
        generation: wire::get::<u16, Little>(layout, GENERATION_AT),
    }
}

// Whether the magic number is that of version 1 or 3.
fn known_version(h: Header) -> bool
    ensures { result ≡ known_version h }
{
    h.magic == MAGIC_ONE || h.magic == MAGIC_THREE
}

// Whether the pattern is known.
fn known_pattern(h: Header) -> bool
    ensures { result ≡ known_pattern h }
{
    h.pattern == PLAIN_PATTERN || h.pattern == HOLE_PATTERN
}

// Whether a stripe size is possible: above 0, and a multiple of 65,536.
fn possible_stripe(size: u32) -> bool
    ensures { result ≡ possible_stripe size }
{
    0 < size && size % STRIPE_UNIT == 0
}

// Whether a header meets the rules on it: magic and pattern are known, and the stripe size is possible.
pub fn good_header(h: Header) -> bool
    ensures { result ≡ good_header h }
{
    known_version(h) && known_pattern(h) && possible_stripe(h.stripe)
}

// Whether the pattern allows holes.
pub fn with_holes(h: Header) -> bool
    ensures { result ≡ with_holes h }
{
    h.pattern == HOLE_PATTERN
}

// Whether the length is header plus 24 times count.
fn exact_length(layout: &[u8]) -> bool
    ensures { result ≡ exact_length layout.now }
{
    if layout.len() < PLAIN_HEADER {
        return false;
    }
    let h = slot_start(layout);
    let n = stripe_count(layout) as usize;
    layout.len() == h + SLOT_SIZE * n
}

// The generation after this one: after the last, 0.
fn next_generation(g: u16) -> u16
    ensures { result ≡ next_generation g }
{
    g.wrapping_add(1)
}

// The header of a layout whose slots have changed.
pub fn raised(h: Header) -> Header
    ensures { result ≡ raised h }
{
    Header {
        generation: next_generation(h.generation),
        ..h
    }
}

// Changes slot j of a layout of exact length in place, and raises the generation, unless the slot is this one already.
pub fn change_slot(layout: &mut [u8], j: usize, s: Slot)
    requires { (exact_length layout.old ≡ true) × (j < stripe_count layout.old) }
    ensures { layout.new ≡ encode_layout (changed (decode_layout layout.old) j s) }
{
    let start = slot_start(layout);
    if slot_at(&layout[start..], j) == s {
        return;
    }
    let g = wire::get::<u16, Little>(layout, GENERATION_AT);
    let a = start + SLOT_SIZE * j;
    let e = a + SLOT_SIZE;
    put_slot(&mut layout[a..e], s);
    wire::put::<u16, Little>(layout, GENERATION_AT, next_generation(g));
}

// Whether a layout meets every rule.
pub fn accepted(layout: &[u8]) -> bool
    ensures { result ≡ accepted_layout layout.now }
{
    if !exact_length(layout) {
        return false;
    }
    let h = read_header(layout);
    let n = stripe_count(layout) as usize;
    let start = slot_start(layout);
    good_header(h) && n <= MAX_SLOTS && allowed_slots(&layout[start..], with_holes(h))
}

// Reads a layout: its header and stripe count, or 13.
pub fn read(layout: &[u8]) -> Result<(Header, u16), Refusal>
    ensures { result ≡ read_layout layout.now }
{
    if !accepted(layout) {
        return Err(Refusal::BadLayout);
    }
    Ok((read_header(layout), stripe_count(layout)))
}

// Reads slot j of a layout: 13 for the layout, then 16 for the index.
pub fn read_slot(layout: &[u8], j: usize) -> Result<Slot, Refusal>
    ensures { result ≡ read_slot layout.now j }
{
    let (_, count) = read(layout)?;
    if count as usize <= j {
        return Err(Refusal::NoPlace);
    }
    let start = slot_start(layout);
    Ok(slot_at(&layout[start..], j))
}

// Rewrites slot j of a layout in place: 13, then 16, and with both nothing is written.
pub fn rewrite(layout: &mut [u8], j: usize, s: Slot) -> Result<(), Refusal>
    ensures answer { answer result ≡ rewrite_answer layout.old j s }
    ensures bytes { layout.new ≡ rewrite_bytes layout.old j s }
{
    let (h, count) = read(layout)?;
    if !allowed_slot(with_holes(h), s) {
        return Err(Refusal::BadLayout);
    }
    if count as usize <= j {
        return Err(Refusal::NoPlace);
    }
    change_slot(layout, j, s);
    Ok(())
}

// Writes a header with a stripe count over the first bytes.
pub fn write_header(dest: &mut [u8], h: Header, count: u16)
    requires { plain_header ≤ length dest.old }
    ensures { dest.new ≡ sets dest.old 0 (encode_header h count) }
{
    wire::put::<u32, Little>(dest, 0, h.magic);
    wire::put::<u32, Little>(dest, PATTERN_AT, h.pattern);
    wire::put::<u64, Little>(dest, OWN_ID_AT, h.oid);
    wire::put::<u64, Little>(dest, OWN_SEQUENCE_AT, h.seq);
    wire::put::<u32, Little>(dest, STRIPE_SIZE_AT, h.stripe);
    wire::put::<u16, Little>(dest, STRIPE_COUNT_AT, count);
    wire::put::<u16, Little>(dest, GENERATION_AT, h.generation);
}
