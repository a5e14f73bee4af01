// The step of a header or a slot, decided.
#![tactic(auto)]

ghost use Rattle.std.specs.Prelude.{◌≡◌, cond, ◌/◌, ◌<◌, length};
ghost use Rattle.tables.specs.Bytes.{parent_size, parse_reserve, parse_parents};
ghost use Rattle.tables.specs.Check.{Sound};
ghost use Rattle.tables.specs.Positions.{row_at};
ghost use Rattle.rules.specs.Rows.{object_row, free_object, slot_at};
ghost use Rattle.rules.specs.Classes.{header_class, slot_class};
ghost use Rattle.rules.specs.Repairs.{repair_header, new_object, mended, mend_write, index_write, mend_at, usable, redirect, redirect_to, reusable, redirect_by, make_object, repair_slot};
ghost use Rattle.rules.specs.Steps.{slot_step};
ghost use Rattle.rules.specs.declared.Step.TheVariants.{Rests};
ghost use Rattle.stores.specs.UsedRow.{UsedAt};
ghost use Rattle.writes.specs.Plan.{Decides};
ghost use Rattle.writes.specs.Ready.{SlotReady};
ghost use Rattle.rules.specs.Settings.{settings_of, creates};

use classify_places::{headers, places};
use fid::OstFid;
use layout::Slot;
use refusals::Refusal;
use rules::{HeaderClass, Repair, SlotClass, Step, Write};
use tables::rows::{OBJECT_SIZE, PARENT_SIZE};
use tables::{Object, Place, rows};

// A slot that names an object: where it stands, and what stands in it.
#[derive(Clone, Copy)]
struct NamedSlot {
    row: usize,
    index: u32,
    fid: OstFid,
    generation: u32,
    ost: u32,
}

// The header of parent row r: SELF is mended.
pub fn header(parents: &[u8], objects: &[u8], r: usize) -> Step
    requires { Sound parents.now objects.now × (r < length parents.now / parent_size) }
    ensures { Decides parents.now objects.now result (λ T. repair_header T r (header_class (row_at T.parents r))) }
{
    match headers::header_class(parents, r) {
        HeaderClass::UNUSED | HeaderClass::CLEAN => Step::Rests,
        HeaderClass::SELF => {
            Step::Repairs(
                Repair::OfSelf,
                Write::Own(r),
                Write::Nothing,
                Write::Nothing,
            )
        }
    }
}

// A new object: it claims the slot, has that parent's owner and is fresh.
fn new_object(parents: &[u8], at: NamedSlot, f: OstFid) -> Object
    requires { UsedAt parents.now at.row }
    ensures { result ≡ new_object (parse_parents parents.now) f at.row at.index at.ost }
{
    let row = rows::row_at(parents, PARENT_SIZE, at.row);
    let owner = rows::owner_of(row);
    let file = rows::self_of(row);
    Object {
        fid: f,
        ost: at.ost,
        owner,
        claim: Some(Place {
            file,
            index: at.index,
        }),
        fresh: true,
    }
}

// MULTIPLE, with a FID of the reserve: a new object in the first unused row, then the slot, which takes its FID.
fn redirect_to(parents: &[u8], objects: &[u8], at: NamedSlot, f: OstFid) -> Step
    requires { SlotReady parents.now objects.now at.row at.index }
    ensures { Decides parents.now objects.now result (λ T. redirect_to T.parents at.row at.index at.ost f (free_object T.objects)) }
{
    let Some(o) = search::objects::free_object(objects) else {
        return Step::Stops(Refusal::NoObjectRow);
    };
    let x = new_object(parents, at, f);
    let s = Slot::Names(f, 0, at.ost);
    Step::Repairs(
        Repair::OfMultiple,
        Write::Object(o, x),
        Write::Slot(at.row, at.index as usize, s),
        Write::Nothing,
    )
}

// MULTIPLE: the first usable FID of the reserve, then a row for the object.
fn redirect(parents: &[u8], objects: &[u8], reserve: &[u8], at: NamedSlot) -> Step
    requires { SlotReady parents.now objects.now at.row at.index }
    ensures { Decides parents.now objects.now result (λ T. redirect T at.row at.index at.ost (usable T (parse_reserve reserve.now))) }
{
    match search::reserve::usable(parents, objects, reserve) {
        None => Step::Stops(Refusal::NoReserve),
        Some(f) => redirect_to(parents, objects, at, f),
    }
}

// MULTIPLE, with create: the object that is there for this very slot, and only without one the reserve.
fn multiple(parents: &[u8], objects: &[u8], reserve: &[u8], policy: u64, at: NamedSlot) -> Step
    requires { SlotReady parents.now objects.now at.row at.index }
    ensures { Decides parents.now objects.now result (λ T. cond (creates policy) (redirect_by (settings_of policy reserve.now) T at.row at.index at.ost (reusable T at.row at.index)) Rests) }
{
    if !creates(policy) {
        return Step::Rests;
    }
    let row = rows::row_at(parents, PARENT_SIZE, at.row);
    let place = Place {
        file: rows::self_of(row),
        index: at.index,
    };
    match taking::reusable(parents, objects, place) {
        None => redirect(parents, objects, reserve, at),
        Some(o) => taking::reuse(parents, objects, at.row, at.index, o),
    }
}

// DANGLING: a new object in the first unused row, under the slot's FID and index.
fn make_object(parents: &[u8], objects: &[u8], at: NamedSlot) -> Step
    requires { SlotReady parents.now objects.now at.row at.index }
    ensures { Decides parents.now objects.now result (λ T. make_object (new_object T.parents at.fid at.row at.index at.ost) (free_object T.objects)) }
{
    let Some(o) = search::objects::free_object(objects) else {
        return Step::Stops(Refusal::NoObjectRow);
    };
    let x = new_object(parents, at, at.fid);
    let object = Write::Object(o, x);
    Step::Repairs(Repair::OfDangling, object, Write::Nothing, Write::Nothing)
}

// The keeper's object with the claim of slot j of row r and that parent's owner.
fn mended(parents: &[u8], r: usize, j: u32, x: Object) -> Object
    requires { UsedAt parents.now r }
    ensures { result ≡ mended (parse_parents parents.now) r j x }
{
    let row = rows::row_at(parents, PARENT_SIZE, r);
    let owner = rows::owner_of(row);
    let file = rows::self_of(row);
    Object {
        owner,
        claim: Some(Place { file, index: j }),
        ..x
    }
}

// The keeper's object in row o, mended: no write where its claim and its owner are right already.
fn mend_write(parents: &[u8], r: usize, j: u32, o: usize, x: Object) -> Write
    requires { UsedAt parents.now r }
    ensures { result ≡ mend_write (parse_parents parents.now) r j o x }
{
    let row = rows::row_at(parents, PARENT_SIZE, r);
    if places::claim_is(x.claim, rows::self_of(row), j as usize) && x.owner == rows::owner_of(row) {
        return Write::Nothing;
    }
    Write::Object(o, mended(parents, r, j, x))
}

// The slot with the object's index: no write where it has that index already.
fn index_write(at: NamedSlot, index: u32) -> Write
    ensures { result ≡ index_write at.row at.index at.fid at.generation at.ost index }
{
    if index == at.ost {
        return Write::Nothing;
    }
    let s = Slot::Names(at.fid, at.generation, index);
    Write::Slot(at.row, at.index as usize, s)
}

// BLANK, UNMATCHED, WRONG-OST and OWNER: claim and owner are written in the object's row, then its index in the slot.
fn mend(parents: &[u8], objects: &[u8], class: Repair, at: NamedSlot) -> Step
    requires { SlotReady parents.now objects.now at.row at.index }
    ensures { Decides parents.now objects.now result (λ T. mend_at T class at.row at.index at.fid at.generation at.ost (object_row T.objects at.fid)) }
{
    let Some(o) = search::objects::object_row(objects, at.fid) else {
        return Step::Rests;
    };
    let x = rows::decode_object(rows::row_at(objects, OBJECT_SIZE, o));
    let object = mend_write(parents, at.row, at.index, o, x);
    let layout = index_write(at, x.ost);
    Step::Repairs(class, object, layout, Write::Nothing)
}

// Whether a policy creates: bit 0.
fn creates(policy: u64) -> bool
    ensures { result ≡ creates policy }
{
    policy % 2 == 1
}

// A slot that names an object, by its class.
fn named_slot(parents: &[u8], objects: &[u8], reserve: &[u8], policy: u64, at: NamedSlot) -> Step
    requires { SlotReady parents.now objects.now at.row at.index }
    ensures { Decides parents.now objects.now result (λ T. repair_slot (settings_of policy reserve.now) T at.row at.index at.fid at.generation at.ost (slot_class T at.row at.index)) }
{
    match classify_slots::slot_class(parents, objects, at.row, at.index as usize) {
        SlotClass::HOLE | SlotClass::CLEAN => Step::Rests,
        SlotClass::MULTIPLE => multiple(parents, objects, reserve, policy, at),
        SlotClass::DANGLING => {
            if !creates(policy) {
                return Step::Rests;
            }
            make_object(parents, objects, at)
        }
        SlotClass::BLANK => mend(parents, objects, Repair::OfBlank, at),
        SlotClass::UNMATCHED(_, _i) => mend(parents, objects, Repair::OfUnmatched, at),
        SlotClass::WRONGOST => mend(parents, objects, Repair::OfWrongOst, at),
        SlotClass::OWNER => mend(parents, objects, Repair::OfOwner, at),
    }
}

// Slot j of parent row r: a hole rests.
pub fn slot(parents: &[u8], objects: &[u8], reserve: &[u8], policy: u64, r: usize, j: usize) -> Step
    requires { Sound parents.now objects.now × (r < length parents.now / parent_size) }
    ensures { Decides parents.now objects.now result (λ T. slot_step (settings_of policy reserve.now) T r j (slot_at T.parents r j)) }
{
    match search::slots::slot_of(parents, r, j) {
        Slot::Hole => Step::Rests,
        Slot::Names(fid, generation, ost) => {
            let at = NamedSlot {
                row: r,
                index: j as u32,
                fid,
                generation,
                ost,
            };
            named_slot(parents, objects, reserve, policy, at)
        }
    }
}
