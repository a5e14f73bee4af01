// The class of an object row.
#![tactic(auto)]

ghost use Rattle.std.specs.Prelude.{◌≡◌, true, ◌/◌, ◌<◌, length};
ghost use Rattle.tables.specs.Bytes.{object_size, parse};
ghost use Rattle.tables.specs.Check.{good_layouts, Sound};
ghost use Rattle.rules.specs.Classes.{unnamed_class, object_class};

use classify_places::places;
use rules::ObjectClass;
use search::keeper;
use tables::rows::OBJECT_SIZE;
use tables::{Place, rows};

// The class of an object that no slot names: SPARE, EMPTY, ORPHAN, CONFLICT.
fn unnamed_class(parents: &[u8], objects: &[u8], fresh: bool, claim: Option<Place>) -> ObjectClass
    requires { good_layouts parents.now ≡ true }
    ensures { result ≡ unnamed_class (parse parents.now objects.now) fresh claim }
{
    match claim {
        None => ObjectClass::SPARE,
        Some(place) => {
            if fresh {
                return ObjectClass::EMPTY;
            }
            if places::is_way(places::way(parents, objects, place)) {
                ObjectClass::ORPHAN
            } else {
                ObjectClass::CONFLICT
            }
        }
    }
}

// The class of object row o: UNUSED, then KEPT where a slot names it. An object that is named has a keeper, which is
// looked for at the claimed place first.
pub fn object_class(parents: &[u8], objects: &[u8], o: usize) -> ObjectClass
    requires { Sound parents.now objects.now × (o < length objects.now / object_size) }
    ensures { result ≡ object_class (parse parents.now objects.now) o }
{
    let row = rows::row_at(objects, OBJECT_SIZE, o);
    if !rows::is_used(row) {
        return ObjectClass::UNUSED;
    }
    let x = rows::decode_object(row);
    if keeper::keeper_by(parents, x.fid, x.claim).is_some() {
        return ObjectClass::KEPT;
    }
    unnamed_class(parents, objects, x.fresh, x.claim)
}
