// An object that is there takes a slot: what is written of it, and which one a redirect uses again.
#![tactic(auto)]

ghost use Rattle.std.specs.Prelude.{◌≡◌, true, ◌*◌, ◌/◌, ◌<◌, length, take, drop};
ghost use Rattle.tables.specs.Bytes.{object_size, is_used, parse_parents, parse_object, parse_objects};
ghost use Rattle.tables.specs.Check.{good_layouts};
ghost use Rattle.rules.specs.Rows.{first_row, object_at};
ghost use Rattle.rules.specs.Repairs.{slot_for, owner_write, is_reusable, reuse};
ghost use Rattle.writes.specs.Plan.{Decides};
ghost use Rattle.writes.specs.Ready.{SlotReady};

use classify_places::places;
use layout::Slot;
use rules::{Repair, Step, Write};
use tables::rows::{OBJECT_SIZE, PARENT_SIZE};
use tables::{Object, Owner, Place, rows};

// The slot that an object gets: its FID, generation 0 and its OST index.
pub fn slot_for(x: Object) -> Slot
    ensures { result ≡ slot_for x }
{
    Slot::Names(x.fid, 0, x.ost)
}

// The owner of object x, of row k, where it differs.
pub fn owner_write(k: usize, x: Object, w: Owner) -> Write
    ensures { result ≡ owner_write k x w }
{
    if x.owner == w {
        return Write::Nothing;
    }
    Write::Object(k, Object { owner: w, ..x })
}

// Whether a row has an object that is fresh, claims this very place and is named by no slot.
fn is_reusable(parents: &[u8], place: Place, row: &[u8]) -> bool
    requires { (good_layouts parents.now ≡ true) × (length row.now ≡ object_size) }
    ensures { result ≡ is_reusable (parse_parents parents.now) place (parse_object row.now) }
{
    if !rows::is_used(row) {
        return false;
    }
    let x = rows::decode_object(row);
    x.fresh
        && places::claim_is(x.claim, place.file, place.index as usize)
        && !search::naming::named(parents, x.fid)
}

// The first row with such an object.
pub fn reusable(parents: &[u8], objects: &[u8], place: Place) -> Option<usize>
    requires { good_layouts parents.now ≡ true }
    ensures { result ≡ first_row (parse_objects objects.now) (is_reusable (parse_parents parents.now) place) }
{
    objects
        .chunks_exact(OBJECT_SIZE)
        .position(|row| is_reusable(parents, place, row))
}

// MULTIPLE, with the object of row o: its owner, where it differs, then the slot, which takes its FID.
pub fn reuse(parents: &[u8], objects: &[u8], r: usize, j: u32, o: usize) -> Step
    requires { SlotReady parents.now objects.now r j × (o < length objects.now / object_size) × (is_used (take object_size (drop (object_size * o) objects.now)) ≡ true) }
    ensures { Decides parents.now objects.now result (λ T. reuse T.parents r j o (object_at T.objects o)) }
{
    let x = rows::decode_object(rows::row_at(objects, OBJECT_SIZE, o));
    let w = rows::owner_of(rows::row_at(parents, PARENT_SIZE, r));
    let object = owner_write(o, x, w);
    let layout = Write::Slot(r, j as usize, slot_for(x));
    Step::Repairs(Repair::OfMultiple, object, layout, Write::Nothing)
}
