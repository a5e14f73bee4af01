// The slots of one parent row.
ghost use Rattle.std.specs.Prelude.{◌≡◌, true, cond, ◌*◌, ◌/◌, ◌<◌, length, take, drop};
ghost use Rattle.layout.specs.Slot.{decode_slots};
ghost use Rattle.tables.specs.Bytes.{parent_size, parse_parent, parse_parents};
ghost use Rattle.tables.specs.Positions.{slots_of, row_at, width};
ghost use Rattle.tables.specs.Check.{when_used, good_layout, good_layouts};
ghost use Rattle.rules.specs.Search.{slot_from};
ghost use Rattle.rules.specs.Rows.{slot_at, names_at};
ghost use Rattle.rules.specs.Compared.{up_to};

use fid::OstFid;
use layout::{SLOT_SIZE, Slot};
use rules::Search;
use tables::rows;
use tables::rows::PARENT_SIZE;

// The slot area of a parent row, the part of its layout after the header: no bytes where the row is unused.
pub fn slot_area(row: &[u8]) -> &[u8]
    requires { (length row.now ≡ parent_size) × (when_used good_layout row.now ≡ true) }
    ensures { (slots_of (parse_parent row.now) ≡ decode_slots (length result.now / 24) result.now) × (24 * (length result.now / 24) ≡ length result.now) }
{
    if !rows::is_used(row) {
        return &row[..0];
    }
    let layout = rows::layout_of(row);
    let start = layout::slot_start(layout);
    &layout[start..]
}

// Slot j of parent row r: a hole where there is none.
pub fn slot_of(parents: &[u8], r: usize, j: usize) -> Slot
    requires { (good_layouts parents.now ≡ true) × (r < length parents.now / parent_size) }
    ensures { result ≡ slot_at (parse_parents parents.now) r j }
{
    let area = slot_area(rows::row_at(parents, PARENT_SIZE, r));
    if area.len() / SLOT_SIZE <= j {
        return Slot::Hole;
    }
    layout::slot_at(area, j)
}

// The claimed slot, slot j of parent row r: one slot is compared where the row has it, a hole too.
pub fn claimed_at(parents: &[u8], f: OstFid, r: usize, j: usize) -> Search
    requires { (good_layouts parents.now ≡ true) × (r < length parents.now / parent_size) }
    ensures place { result.place ≡ cond (names_at (parse_parents parents.now) f r j) (Some (r, j)) None }
    ensures compared { result.compared ≡ up_to f (take 1 (drop j (slots_of (row_at (parse_parents parents.now) r)))) }
{
    let area = slot_area(rows::row_at(parents, PARENT_SIZE, r));
    if area.len() / SLOT_SIZE <= j {
        return Search {
            place: None,
            compared: 0,
        };
    }
    if layout::names_at(area, j, f) {
        return Search {
            place: Some((r, j)),
            compared: 1,
        };
    }
    Search {
        place: None,
        compared: 1,
    }
}

// The first slot of parent row r that names an object, and the slots compared up to it.
pub fn first_in(parents: &[u8], f: OstFid, r: usize) -> Search
    requires { (good_layouts parents.now ≡ true) × (r < length parents.now / parent_size) }
    ensures place { result.place ≡ slot_from r (width (parse_parents parents.now) r) 0 (names_at (parse_parents parents.now) f) }
    ensures compared { result.compared ≡ up_to f (slots_of (row_at (parse_parents parents.now) r)) }
{
    let area = slot_area(rows::row_at(parents, PARENT_SIZE, r));
    let found = area
        .chunks_exact(SLOT_SIZE)
        .position(|slot| layout::names_at(slot, 0, f));
    match found {
        Some(j) => Search {
            place: Some((r, j)),
            compared: j + 1,
        },
        None => Search {
            place: None,
            compared: area.len() / SLOT_SIZE,
        },
    }
}
