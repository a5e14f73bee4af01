// The keeper of an object: one slot that names it.
ghost use Rattle.std.specs.Prelude.{◌≡◌, true, cond, [], ◌∷◌, ◌+◌, ◌/◌, ◌^◌, ◌<◌, length, take, drop};
ghost use Rattle.tables.specs.Bytes.{parent_size, parent_rows, parse_parents};
ghost use Rattle.tables.specs.Positions.{slots_of, row_at, width};
ghost use Rattle.tables.specs.Check.{good_layouts, none_twice};
ghost use Rattle.rules.specs.Search.{slot_from, or_else};
ghost use Rattle.rules.specs.Rows.{names_at, scan};
ghost use Rattle.rules.specs.Keeper.{claim_in, keeper_by};
ghost use Rattle.rules.specs.Compared.{in_turn, all_slots, compared_by};

use super::{naming, parents, slots};
use fid::OstFid;
use rules::Search;
use tables::{Object, Place};

// What an object claims: nothing where it is absent.
pub fn claim_in(found: Option<Object>) -> Option<Place>
    ensures { result ≡ claim_in found }
{
    found?.claim
}

// One case after another that found nothing: the slots of both are counted.
fn after(missed: usize, next: Search) -> Search
    requires { missed + next.compared < 2 ^ 64 }
    ensures place { result.place ≡ next.place }
    ensures compared { result.compared ≡ missed + next.compared }
{
    Search {
        compared: missed + next.compared,
        ..next
    }
}

// The first slot of row r that names an object, else the first in scan order.
fn search_in(parents: &[u8], f: OstFid, r: usize) -> Search
    requires { (good_layouts parents.now ≡ true) × (r < length parents.now / parent_size) }
    ensures place { result.place ≡ or_else (slot_from r (width (parse_parents parents.now) r) 0 (names_at (parse_parents parents.now) f)) (scan (parse_parents parents.now) (names_at (parse_parents parents.now) f)) }
    ensures compared { result.compared ≡ in_turn f (slots_of (row_at (parse_parents parents.now) r) ∷ all_slots (parse_parents parents.now) ∷ []) }
{
    let near = slots::first_in(parents, f, r);
    if near.place.is_some() {
        return near;
    }
    after(near.compared, naming::first_naming(parents, f))
}

// The claimed slot, slot j of row r, if that one names the object; else as above.
fn search_from(parents: &[u8], f: OstFid, r: usize, j: usize) -> Search
    requires { (good_layouts parents.now ≡ true) × (r < length parents.now / parent_size) }
    ensures place { result.place ≡ or_else (cond (names_at (parse_parents parents.now) f r j) (Some (r, j)) None) (or_else (slot_from r (width (parse_parents parents.now) r) 0 (names_at (parse_parents parents.now) f)) (scan (parse_parents parents.now) (names_at (parse_parents parents.now) f))) }
    ensures compared { result.compared ≡ in_turn f (take 1 (drop j (slots_of (row_at (parse_parents parents.now) r))) ∷ slots_of (row_at (parse_parents parents.now) r) ∷ all_slots (parse_parents parents.now) ∷ []) }
{
    let claimed = slots::claimed_at(parents, f, r, j);
    if claimed.place.is_some() {
        return claimed;
    }
    after(claimed.compared, search_in(parents, f, r))
}

// The search of an object that claims a place: the claimed slot if that one names it; else the first slot naming it in the
// claimed parent; else the first in scan order.
fn search_at(parents: &[u8], f: OstFid, place: Place) -> Search
    requires { (good_layouts parents.now ≡ true) × (none_twice (parent_rows parents.now) ≡ true) }
    ensures place { result.place ≡ keeper_by (parse_parents parents.now) f (Some place) }
    ensures compared { result.compared ≡ compared_by (parse_parents parents.now) f (Some place) }
{
    match parents::parent_row(parents, place.file) {
        None => naming::first_naming(parents, f),
        Some(r) => search_from(parents, f, r, place.index as usize),
    }
}

// The search for the keeper of an object with this claim.
pub fn search(parents: &[u8], f: OstFid, claim: Option<Place>) -> Search
    requires { (good_layouts parents.now ≡ true) × (none_twice (parent_rows parents.now) ≡ true) }
    ensures place { result.place ≡ keeper_by (parse_parents parents.now) f claim }
    ensures compared { result.compared ≡ compared_by (parse_parents parents.now) f claim }
{
    match claim {
        None => naming::first_naming(parents, f),
        Some(place) => search_at(parents, f, place),
    }
}

// The keeper of an object with this claim.
pub fn keeper_by(parents: &[u8], f: OstFid, claim: Option<Place>) -> Option<(usize, usize)>
    requires { (good_layouts parents.now ≡ true) × (none_twice (parent_rows parents.now) ≡ true) }
    ensures { result ≡ keeper_by (parse_parents parents.now) f claim }
{
    search(parents, f, claim).place
}
