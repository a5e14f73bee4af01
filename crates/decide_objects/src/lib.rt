// The step of an object row, decided: EMPTY is destroyed, ORPHAN is put in its claimed place.
#![tactic(auto)]

ghost use Rattle.std.specs.Prelude.{◌≡◌, ◌/◌, ◌<◌, length};
ghost use Rattle.layout.specs.Layout.{max_slots};
ghost use Rattle.tables.specs.Bytes.{object_size, parse_parent, parse_objects};
ghost use Rattle.tables.specs.Check.{Sound};
ghost use Rattle.rules.specs.Rows.{owner_of, free_parent, object_at};
ghost use Rattle.rules.specs.Places.{way};
ghost use Rattle.rules.specs.Repairs.{slot_for, owner_write, destroy_named, make_parent, adopt_by, adopt};
ghost use Rattle.rules.specs.Steps.{object_step};
ghost use Rattle.stores.specs.UsedRow.{row_bytes, UsedAt};
ghost use Rattle.writes.specs.Plan.{Decides};
ghost use Rattle.decide_objects.specs.Parts.{row_object};
ghost use Rattle.rules.specs.Settings.{settings_of, adopts};

use classify_places::places;
use layout::Slot;
use refusals::Refusal;
use rules::{ObjectClass, Repair, Step, Way, Write};
use search::slots;
use tables::rows::{OBJECT_SIZE, PARENT_SIZE};
use tables::{Object, Owner, Place, rows};

// Whether the policy adopts.
fn may_adopt(policy: u64) -> bool
    ensures { result ≡ adopts policy }
{
    policy / 2 % 2 == 1
}

// The owner of the file of row r.
fn file_owner(parents: &[u8], r: usize) -> Owner
    requires { UsedAt parents.now r }
    ensures { result ≡ owner_of (parse_parent (row_bytes parents.now r)) }
{
    rows::owner_of(rows::row_at(parents, PARENT_SIZE, r))
}

// The object that a slot names is destroyed.
fn drop_named(objects: &[u8], s: Slot) -> Write
    ensures { result ≡ destroy_named (parse_objects objects.now) s }
{
    match s {
        Slot::Hole => Write::Nothing,
        Slot::Names(g, _, _) => match search::objects::object_row(objects, g) {
            None => Write::Nothing,
            Some(o) => Write::Destroy(o),
        },
    }
}

// A parent is made in the first unused row, for a place of a file that is absent.
fn adopt_new(parents: &[u8], objects: &[u8], x: Object, place: Place) -> Step
    requires { Sound parents.now objects.now × (place.index < max_slots) }
    ensures { Decides parents.now objects.now result (λ T. make_parent x place (free_parent T.parents)) }
{
    let Some(r) = search::parents::free_parent(parents) else {
        return Step::Stops(Refusal::NoParentRow);
    };
    let s = taking::slot_for(x);
    Step::Repairs(
        Repair::OfOrphan,
        Write::Make(r, place.file, x.owner, place.index as usize, s),
        Write::Nothing,
        Write::Nothing,
    )
}

// ORPHAN: object x of row k is put in a place, by the way in which it can be had.
fn adopt_by(parents: &[u8], objects: &[u8], k: usize, x: Object, place: Place) -> Step
    requires { Sound parents.now objects.now × (k < length objects.now / object_size) }
    ensures { Decides parents.now objects.now result (λ T. adopt_by T k x place (way T place)) }
{
    let j = place.index as usize;
    match places::way(parents, objects, place) {
        Way::NoWay => Step::Rests,
        Way::NewParent => adopt_new(parents, objects, x, place),
        Way::Fill(r) => {
            let s = taking::slot_for(x);
            let a = taking::owner_write(k, x, file_owner(parents, r));
            Step::Repairs(Repair::OfOrphan, Write::Slot(r, j, s), a, Write::Nothing)
        }
        Way::Grow(r) => {
            let s = taking::slot_for(x);
            let a = taking::owner_write(k, x, file_owner(parents, r));
            Step::Repairs(Repair::OfOrphan, Write::Grow(r, j, s), a, Write::Nothing)
        }
        Way::Take(r) => {
            let s = taking::slot_for(x);
            let a = taking::owner_write(k, x, file_owner(parents, r));
            let b = drop_named(objects, slots::slot_of(parents, r, j));
            Step::Repairs(Repair::OfOrphan, Write::Slot(r, j, s), a, b)
        }
    }
}

// ORPHAN: the object of row k is put in its claimed place.
fn adopt(parents: &[u8], objects: &[u8], k: usize) -> Step
    requires { Sound parents.now objects.now × (k < length objects.now / object_size) }
    ensures { Decides parents.now objects.now result (λ T. adopt T k (row_object objects.now k) (row_object objects.now k).claim) }
{
    let x = rows::decode_object(rows::row_at(objects, OBJECT_SIZE, k));
    match x.claim {
        None => Step::Rests,
        Some(place) => adopt_by(parents, objects, k, x, place),
    }
}

// Object row k.
pub fn object(parents: &[u8], objects: &[u8], reserve: &[u8], policy: u64, k: usize) -> Step
    requires { Sound parents.now objects.now × (k < length objects.now / object_size) }
    ensures { Decides parents.now objects.now result (λ T. object_step (settings_of policy reserve.now) T k (object_at T.objects k)) }
{
    if !may_adopt(policy) {
        return Step::Rests;
    }
    match classify_objects::object_class(parents, objects, k) {
        ObjectClass::UNUSED | ObjectClass::KEPT | ObjectClass::SPARE | ObjectClass::CONFLICT =>
            Step::Rests,
        ObjectClass::EMPTY => {
            Step::Repairs(
                Repair::OfEmpty,
                Write::Destroy(k),
                Write::Nothing,
                Write::Nothing,
            )
        }
        ObjectClass::ORPHAN => adopt(parents, objects, k),
    }
}
