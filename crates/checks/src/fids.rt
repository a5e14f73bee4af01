// 14: "bad FID, object index or claim, or fresh without claim".
ghost use Rattle.std.specs.Prelude.{◌≡◌, ◌&&◌, length, ◌≤◌};
ghost use Rattle.tables.specs.Bytes.{object_size, entry_size, parent_rows, object_rows, reserve_entries, owner_at};
ghost use Rattle.tables.specs.Check.{all, when_used, good_parent, good_claim, fresh_claims, good_object, good_entry};

use layout::MAX_INDEX;
use tables::rows;
use tables::rows::{CLAIM_AT, ENTRY_SIZE, FRESH_AT, OBJECT_SIZE, OST_AT, PARENT_SIZE};
use wire::Little;

// Whether the self FID of a parent row is good, where it is examined.
pub fn good_parent(row: &[u8]) -> bool
    requires { owner_at ≤ length row.now }
    ensures { result ≡ when_used good_parent row.now }
{
    !rows::is_used(row) || rows::self_fid(row).is_good()
}

pub fn good_parents(parents: &[u8]) -> bool
    ensures { result ≡ all (when_used good_parent) (parent_rows parents.now) }
{
    parents.chunks_exact(PARENT_SIZE).all(good_parent)
}

// No claim, or one of a good sequence and id, at any index.
pub fn good_claim(row: &[u8]) -> bool
    requires { length row.now ≡ object_size }
    ensures { result ≡ good_claim row.now }
{
    let f = fid::read_fid(row, CLAIM_AT);
    rows::is_zero(f) || f.is_good_number()
}

// A fresh object has a claim.
pub fn fresh_claims(row: &[u8]) -> bool
    requires { length row.now ≡ object_size }
    ensures { result ≡ fresh_claims row.now }
{
    row[FRESH_AT] != 1 || !rows::is_zero(fid::read_fid(row, CLAIM_AT))
}

// Whether an object row's self FID, index and claim are good, where they are examined.
pub fn good_object(row: &[u8]) -> bool
    requires { length row.now ≡ object_size }
    ensures { result ≡ when_used good_object row.now }
{
    if !rows::is_used(row) {
        return true;
    }
    rows::self_fid(row).is_good()
        && wire::get::<u32, Little>(row, OST_AT) <= MAX_INDEX
        && good_claim(row)
        && fresh_claims(row)
}

pub fn good_objects(objects: &[u8]) -> bool
    ensures { result ≡ all (when_used good_object) (object_rows objects.now) }
{
    objects.chunks_exact(OBJECT_SIZE).all(good_object)
}

// Whether an entry of the reserve is a good FID.
fn good_entry(entry: &[u8]) -> bool
    requires { length entry.now ≡ entry_size }
    ensures { result ≡ good_entry entry.now }
{
    fid::read_fid(entry, 0).is_good()
}

// Whether every entry of the reserve is.
pub fn good_reserve(reserve: &[u8]) -> bool
    ensures { result ≡ all good_entry (reserve_entries reserve.now) }
{
    reserve.chunks_exact(ENTRY_SIZE).all(good_entry)
}

// Whether the rows of both tables are good.
pub fn good_rows(parents: &[u8], objects: &[u8]) -> bool
    ensures { result ≡ (all (when_used good_parent) (parent_rows parents.now) && all (when_used good_object) (object_rows objects.now)) }
{
    good_parents(parents) && good_objects(objects)
}
