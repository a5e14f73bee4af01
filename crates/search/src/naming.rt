// The slots that name an object, in scan order: parent row, then slot.
ghost use Rattle.std.specs.Prelude.{◌≡◌, true, not, ◌&&◌, eqb, ◌+◌, ◌*◌, ◌/◌, ◌≤◌, ◌<◌, length};
ghost use Rattle.layout.specs.Slot.{slot_size, slot_of, slot_names};
ghost use Rattle.tables.specs.Bytes.{parent_size, parse_parents};
ghost use Rattle.tables.specs.Positions.{width};
ghost use Rattle.tables.specs.Check.{good_layouts};
ghost use Rattle.rules.specs.Search.{slot_from, is_somewhere};
ghost use Rattle.rules.specs.Rows.{names_at, scan, named, names_else, named_else};
ghost use Rattle.rules.specs.Compared.{up_to, all_slots};

use super::slots;
use fid::OstFid;
use layout::SLOT_SIZE;
use rules::Search;
use tables::rows;
use tables::rows::PARENT_SIZE;

// Whether slot i of row k, whose slot area is lent, names an object and is not slot j of row r.
fn names_else(area: &[u8], f: OstFid, k: usize, i: usize, r: usize, j: usize) -> bool
    requires { slot_size * i + slot_size ≤ length area.now }
    ensures { result ≡ (slot_names f (slot_of area.now i) && not (eqb k r && eqb i j)) }
{
    layout::names_at(area, i, f) && (k != r || i != j)
}

// The first slot in scan order that names an object, and the slots compared up to it. The search stops at the first parent and
// slot that name it.
pub fn first_naming(parents: &[u8], f: OstFid) -> Search
    requires { good_layouts parents.now ≡ true }
    ensures place { result.place ≡ scan (parse_parents parents.now) (names_at (parse_parents parents.now) f) }
    ensures compared { result.compared ≡ up_to f (all_slots (parse_parents parents.now)) }
{
    let n = parents.len() / PARENT_SIZE;
    let mut place = None;
    let mut compared = 0;
    // Loops: the scan is nested loops left by a label, a form that document 01 names.
    'rows: for r in 0..n {
        let area = slots::slot_area(rows::row_at(parents, PARENT_SIZE, r));
        let count = area.len() / SLOT_SIZE;
        for j in 0..count {
            compared += 1;
            if layout::names_at(area, j, f) {
                place = Some((r, j));
                break 'rows;
            }
        }
    }
    Search { place, compared }
}

// Whether a slot of row k, other than slot j of row r, names an object.
fn named_in(parents: &[u8], f: OstFid, k: usize, r: usize, j: usize) -> bool
    requires { (good_layouts parents.now ≡ true) × (k < length parents.now / parent_size) }
    ensures { result ≡ is_somewhere (slot_from k (width (parse_parents parents.now) k) 0 (names_else (parse_parents parents.now) f r j)) }
{
    let area = slots::slot_area(rows::row_at(parents, PARENT_SIZE, k));
    (0..area.len() / SLOT_SIZE).any(|i| names_else(area, f, k, i, r, j))
}

// Whether a slot names an object.
pub fn named(parents: &[u8], f: OstFid) -> bool
    requires { good_layouts parents.now ≡ true }
    ensures { result ≡ named (parse_parents parents.now) f }
{
    first_naming(parents, f).place.is_some()
}

// Whether a slot other than slot j of row r names an object.
pub fn named_else(parents: &[u8], f: OstFid, r: usize, j: usize) -> bool
    requires { good_layouts parents.now ≡ true }
    ensures { result ≡ named_else (parse_parents parents.now) f r j }
{
    (0..parents.len() / PARENT_SIZE).any(|k| named_in(parents, f, k, r, j))
}
