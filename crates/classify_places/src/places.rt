// How a claimed place can be had.
ghost use Rattle.std.specs.Prelude.{◌≡◌, true, ◌/◌, ◌<◌, length};
ghost use Rattle.tables.specs.Bytes.{parent_size, parse, parse_parents, parse_objects};
ghost use Rattle.tables.specs.Check.{good_layouts};
ghost use Rattle.rules.specs.Rows.{object_of};
ghost use Rattle.rules.specs.Places.{place_at, claims, takeable, slot_way, row_way, way, is_way};

use super::headers;
use fid::{MdtFid, OstFid};
use layout::{MAX_SLOTS, Slot};
use rules::Way;
use search::naming;
use tables::Place;

// Whether a claim is this very slot.
pub fn claim_is(claim: Option<Place>, f: MdtFid, i: usize) -> bool
    ensures { result ≡ claims claim (place_at f i) }
{
    match claim {
        None => false,
        Some(place) => place.file == f && place.index as usize == i,
    }
}

// Whether object g, named by slot j of row r, is present and fresh, claims this very place and is named by no other slot.
fn takeable(parents: &[u8], objects: &[u8], place: Place, g: OstFid, r: usize, j: usize) -> bool
    requires { good_layouts parents.now ≡ true }
    ensures { result ≡ takeable (parse_parents parents.now) place g r j (object_of (parse_objects objects.now) g) }
{
    let Some(x) = search::objects::lookup(objects, g) else {
        return false;
    };
    x.fresh
        && claim_is(x.claim, place.file, place.index as usize)
        && !naming::named_else(parents, g, r, j)
}

// How slot j of row r, which is s and the place, can be had: a hole is filled, a fresh object's slot taken.
fn slot_way(parents: &[u8], objects: &[u8], place: Place, r: usize, j: usize, s: Slot) -> Way
    requires { good_layouts parents.now ≡ true }
    ensures { result ≡ slot_way (parse parents.now objects.now) place r j s }
{
    match s {
        Slot::Hole => Way::Fill(r),
        Slot::Names(g, _, _) => {
            if takeable(parents, objects, place, g, r, j) {
                Way::Take(r)
            } else {
                Way::NoWay
            }
        }
    }
}

// How a place in row r can be had: past the count only a layout with the hole pattern grows.
fn row_way(parents: &[u8], objects: &[u8], place: Place, r: usize) -> Way
    requires { (good_layouts parents.now ≡ true) × (r < length parents.now / parent_size) }
    ensures { result ≡ row_way (parse parents.now objects.now) place (Some r) }
{
    let j = place.index as usize;
    if j < positions::width(parents, r) as usize {
        let s = search::slots::slot_of(parents, r, j);
        return slot_way(parents, objects, place, r, j, s);
    }
    if headers::holes_in(parents, r) {
        Way::Grow(r)
    } else {
        Way::NoWay // growing would move the file's data
    }
}

// How a place can be had.
pub fn way(parents: &[u8], objects: &[u8], place: Place) -> Way
    requires { good_layouts parents.now ≡ true }
    ensures { result ≡ way (parse parents.now objects.now) place }
{
    if MAX_SLOTS <= place.index as usize {
        return Way::NoWay;
    }
    match search::parents::parent_row(parents, place.file) {
        None => Way::NewParent,
        Some(r) => row_way(parents, objects, place, r),
    }
}

// Whether a place can be had.
pub fn is_way(w: Way) -> bool
    ensures { result ≡ is_way w }
{
    !matches!(w, Way::NoWay)
}
