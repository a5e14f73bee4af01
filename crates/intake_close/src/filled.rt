// The row that an entry fills, from what is kept of the entry in the lent bytes.
ghost use Rattle.std.specs.Prelude.{◌≡◌, ◌+◌, ◌*◌, ◌≤◌, length, take, drop};
ghost use Rattle.std.proofs.lemmas.List.Edits.{sets};
ghost use Rattle.tables.specs.Bytes.{parent_size, object_size, layout_room};
ghost use Rattle.intake.specs.Reading.{parent_from, object_from};
ghost use Rattle.intake_bytes.specs.Lent.{layout_at};
ghost use Rattle.intake_close.specs.Closing.{self_in, claim_in, layout_in};

use intake_bytes::{FID_AT, LAYOUT_AT, LMA_AT, LMA_SELF_AT, LMA_SIZE};
use stores::pieces;
use tables::Owner;
use tables::rows::{
    CLAIM_AT, FRESH_AT, LENGTH_AT, OBJECT_OWNER_AT, OBJECT_SIZE, OST_AT, OWNER_AT, PARENT_SIZE,
    ROOM_AT, SELF_AT,
};
use wire::Little;

// Where the self FID stands in the lent bytes, and where it ends.
const SELF_FROM: usize = LMA_AT + LMA_SELF_AT;

const SELF_END: usize = LMA_AT + LMA_SIZE;

// Writes a parent row; the room past the layout stays.
pub fn put_parent(row: &mut [u8], buf: &[u8], size: usize, w: Owner)
    requires { (length row.old ≡ parent_size) × (size ≤ layout_room) × (layout_at + size ≤ length buf.now) }
    ensures { row.new ≡ parent_from (self_in buf.now) (layout_in buf.now size) w.uid w.gid row.old }
{
    let end = LAYOUT_AT + size;
    pieces::put_byte(row, 0, 1);
    wire::put_bytes(row, SELF_AT, &buf[SELF_FROM..SELF_END]);
    pieces::put_owner(row, OWNER_AT, w);
    wire::put::<u16, Little>(row, LENGTH_AT, size as u16);
    wire::put_bytes(row, ROOM_AT, &buf[LAYOUT_AT..end]);
}

// Writes an object row whole, which is not fresh.
pub fn put_object(row: &mut [u8], buf: &[u8], index: u32, w: Owner)
    requires { (length row.old ≡ object_size) × (layout_at ≤ length buf.now) }
    ensures { row.new ≡ object_from (self_in buf.now) (claim_in buf.now) w.uid w.gid index }
{
    pieces::put_byte(row, 0, 1);
    wire::put_bytes(row, SELF_AT, &buf[SELF_FROM..SELF_END]);
    wire::put::<u32, Little>(row, OST_AT, index);
    pieces::put_owner(row, OBJECT_OWNER_AT, w);
    wire::put_bytes(row, CLAIM_AT, &buf[FID_AT..LMA_AT]);
    pieces::put_byte(row, FRESH_AT, 0);
}

// Fills row r of the parent table.
pub fn fill_parent(parents: &mut [u8], r: usize, buf: &[u8], size: usize, w: Owner)
    requires { (parent_size * r + parent_size ≤ length parents.old) × (size ≤ layout_room) × (layout_at + size ≤ length buf.now) }
    ensures { parents.new ≡ sets parents.old (parent_size * r) (parent_from (self_in buf.now) (layout_in buf.now size) w.uid w.gid (take parent_size (drop (parent_size * r) parents.old))) }
{
    let a = PARENT_SIZE * r;
    let e = a + PARENT_SIZE;
    put_parent(&mut parents[a..e], buf, size, w);
}

// Fills row r of the object table.
pub fn fill_object(objects: &mut [u8], r: usize, buf: &[u8], index: u32, w: Owner)
    requires { (object_size * r + object_size ≤ length objects.old) × (layout_at ≤ length buf.now) }
    ensures { objects.new ≡ sets objects.old (object_size * r) (object_from (self_in buf.now) (claim_in buf.now) w.uid w.gid index) }
{
    let a = OBJECT_SIZE * r;
    let e = a + OBJECT_SIZE;
    put_object(&mut objects[a..e], buf, index, w);
}
