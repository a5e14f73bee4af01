// The class of a slot.
#![tactic(auto)]

ghost use Rattle.std.specs.Prelude.{◌≡◌, ◌/◌, ◌<◌, length};
ghost use Rattle.tables.specs.Bytes.{parent_size, parse};
ghost use Rattle.tables.specs.Check.{Sound};
ghost use Rattle.rules.specs.Classes.{claimed_class, claim_class, keeper_class, slot_class};
ghost use Rattle.rules.specs.Places.{place_at};

use classify_places::places;
use fid::MdtFid;
use layout::Slot;
use rules::SlotClass;
use search::{keeper, objects};
use tables::rows::PARENT_SIZE;
use tables::{Object, Owner, Place, rows};

// The class of a keeper whose object claims it, by whether the object is on the slot's OST and has the file's owner: WRONG-OST,
// then OWNER, then CLEAN.
fn claimed_class(there: bool, owned: bool) -> SlotClass
    ensures { result ≡ claimed_class there owned }
{
    if !there {
        return SlotClass::WRONGOST;
    }
    if !owned {
        return SlotClass::OWNER;
    }
    SlotClass::CLEAN
}

// The class of slot j of this file, the keeper of an object with this claim: BLANK, then UNMATCHED, then as `claimed_class` says.
fn claim_class(file: MdtFid, j: usize, there: bool, owned: bool, claim: Option<Place>) -> SlotClass
    ensures { result ≡ claim_class (place_at file j) there owned claim }
{
    match claim {
        None => SlotClass::BLANK,
        Some(place) => {
            if !places::claim_is(claim, file, j) {
                return SlotClass::UNMATCHED(place.file, place.index);
            }
            claimed_class(there, owned)
        }
    }
}

// The class of slot j of this file, with this owner, the keeper of what was found, which it names on this OST: DANGLING where
// it is absent.
fn keeper_class(file: MdtFid, owner: Owner, j: usize, ost: u32, found: Option<Object>) -> SlotClass
    ensures { result ≡ keeper_class (place_at file j) ost owner found }
{
    match found {
        None => SlotClass::DANGLING,
        Some(x) => claim_class(file, j, x.ost == ost, x.owner == owner, x.claim),
    }
}

// The class of slot j of parent row r: HOLE, then MULTIPLE, then what the keeper is.
pub fn slot_class(parents: &[u8], objects: &[u8], r: usize, j: usize) -> SlotClass
    requires { Sound parents.now objects.now × (r < length parents.now / parent_size) }
    ensures { result ≡ slot_class (parse parents.now objects.now) r j }
{
    match search::slots::slot_of(parents, r, j) {
        Slot::Hole => SlotClass::HOLE,
        Slot::Names(f, _, ost) => {
            let found = objects::lookup(objects, f);
            let keeper = keeper::keeper_by(parents, f, keeper::claim_in(found));
            if keeper != Some((r, j)) {
                return SlotClass::MULTIPLE;
            }
            let row = rows::row_at(parents, PARENT_SIZE, r);
            keeper_class(rows::self_of(row), rows::owner_of(row), j, ost, found)
        }
    }
}
