// Object rows written whole.
ghost use Rattle.std.specs.Prelude.{◌≡◌, ◌+◌, ◌*◌, ◌≤◌, length};
ghost use Rattle.std.proofs.lemmas.List.Edits.{sets};
ghost use Rattle.tables.specs.Records.{used};
ghost use Rattle.tables.specs.Bytes.{object_size, claim_fid, mark, render_object};
ghost use Rattle.rules.specs.Repairs.{destroyed};

use super::pieces;
use fid::Fid;
use tables::rows::{CLAIM_AT, FRESH_AT, OBJECT_OWNER_AT, OBJECT_SIZE, OST_AT, SELF_AT};
use tables::{Object, Place};
use wire::Little;

// A claim as a FID whose version is the stripe index.
pub fn claim_fid(claim: Option<Place>) -> Fid
    ensures { result ≡ claim_fid claim }
{
    match claim {
        None => Fid {
            seq: 0,
            oid: 0,
            ver: 0,
        },
        Some(place) => Fid {
            ver: place.index,
            ..place.file.0
        },
    }
}

// The fresh mark.
pub fn mark_of(fresh: bool) -> u8
    ensures { result ≡ mark fresh }
{
    u8::from(fresh)
}

// Writes a used row.
pub fn put_row(row: &mut [u8], x: Object)
    requires { length row.old ≡ object_size }
    ensures { row.new ≡ render_object (used x) }
{
    pieces::put_byte(row, 0, 1);
    fid::write_fid(row, SELF_AT, x.fid.0);
    wire::put::<u32, Little>(row, OST_AT, x.ost);
    pieces::put_owner(row, OBJECT_OWNER_AT, x.owner);
    fid::write_fid(row, CLAIM_AT, claim_fid(x.claim));
    pieces::put_byte(row, FRESH_AT, mark_of(x.fresh));
}

// Makes a row zero throughout.
pub fn zero_row(row: &mut [u8])
    requires { length row.old ≡ object_size }
    ensures { row.new ≡ render_object destroyed }
{
    row.fill(0);
}

// Writes object row o of the table.
pub fn put_object(objects: &mut [u8], o: usize, x: Object)
    requires { object_size * o + object_size ≤ length objects.old }
    ensures { objects.new ≡ sets objects.old (object_size * o) (render_object (used x)) }
{
    let a = OBJECT_SIZE * o;
    let e = a + OBJECT_SIZE;
    put_row(&mut objects[a..e], x);
}

// Destroys object row o of the table.
pub fn destroy(objects: &mut [u8], o: usize)
    requires { object_size * o + object_size ≤ length objects.old }
    ensures { objects.new ≡ sets objects.old (object_size * o) (render_object destroyed) }
{
    let a = OBJECT_SIZE * o;
    let e = a + OBJECT_SIZE;
    zero_row(&mut objects[a..e]);
}
