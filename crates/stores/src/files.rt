// Parent rows of the table, written in place: the row is lent as a part.
ghost use Rattle.std.specs.Prelude.{◌≡◌, ◌+◌, ◌*◌, ◌≤◌, ◌<◌, length, drop};
ghost use Rattle.std.proofs.lemmas.List.Edits.{sets};
ghost use Rattle.layout.specs.Layout.{max_slots, stripe_count};
ghost use Rattle.tables.specs.Bytes.{parent_size, layout_bytes, parse_parent, render_parent};
ghost use Rattle.rules.specs.Repairs.{with_own, with_slot, grown, made};
ghost use Rattle.stores.specs.UsedRow.{row_bytes, UsedAt};

use super::parents;
use fid::MdtFid;
use layout::Slot;
use tables::Owner;
use tables::rows::PARENT_SIZE;

// Writes own id and own sequence in row r.
pub fn put_own(parents: &mut [u8], r: usize)
    requires { UsedAt parents.old r }
    ensures { parents.new ≡ sets parents.old (parent_size * r) (render_parent (with_own (parse_parent (row_bytes parents.old r)))) }
{
    let a = PARENT_SIZE * r;
    let e = a + PARENT_SIZE;
    parents::put_own(&mut parents[a..e]);
}

// Writes slot j of row r.
pub fn put_slot(parents: &mut [u8], r: usize, j: usize, s: Slot)
    requires { UsedAt parents.old r × (j < stripe_count (layout_bytes (row_bytes parents.old r))) }
    ensures { parents.new ≡ sets parents.old (parent_size * r) (render_parent (with_slot (parse_parent (row_bytes parents.old r)) j s)) }
{
    let a = PARENT_SIZE * r;
    let e = a + PARENT_SIZE;
    parents::put_slot(&mut parents[a..e], j, s);
}

// Grows the layout of row r to i + 1 slots, the last of which is s.
pub fn grow(parents: &mut [u8], r: usize, i: usize, s: Slot)
    requires { UsedAt parents.old r × (stripe_count (layout_bytes (row_bytes parents.old r)) ≤ i) × (i < max_slots) }
    ensures { parents.new ≡ sets parents.old (parent_size * r) (render_parent (grown (parse_parent (row_bytes parents.old r)) i s)) }
{
    let a = PARENT_SIZE * r;
    let e = a + PARENT_SIZE;
    parents::grow(&mut parents[a..e], i, s);
}

// Makes a parent of i + 1 slots in row r, the last of which is s.
pub fn make(parents: &mut [u8], r: usize, f: MdtFid, i: usize, w: Owner, s: Slot)
    requires { (parent_size * r + parent_size ≤ length parents.old) × (i < max_slots) }
    ensures { parents.new ≡ sets parents.old (parent_size * r) (render_parent (made f i w s (drop 1 (row_bytes parents.old r)))) }
{
    let a = PARENT_SIZE * r;
    let e = a + PARENT_SIZE;
    parents::make(&mut parents[a..e], f, i, w, s);
}
