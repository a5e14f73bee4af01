// The classes of document 01 over the lent tables: of a header, a slot, an object, and at a position.
#![tactic(auto)]

ghost use Rattle.std.specs.Prelude.{◌≡◌, true, false};
ghost use Rattle.tables.specs.Bytes.{parse};
ghost use Rattle.tables.specs.Positions.{is_position, is_end};
ghost use Rattle.tables.specs.Check.{Sound};
ghost use Rattle.rules.specs.Steps.{class_at};
ghost use Rattle.classify.specs.Answer.{class_answer};

use refusals::Refusal;
use rules::Class;
use tables::Position;

// The class at a position of stage one or two.
pub fn class_of(parents: &[u8], objects: &[u8], at: Position) -> Class
    requires { Sound parents.now objects.now × (is_position (parse parents.now objects.now) at ≡ true) × (is_end at ≡ false) }
    ensures { result ≡ class_at (parse parents.now objects.now) at }
{
    let row = at.row as usize;
    if at.stage != 1 {
        return Class::Object(classify_objects::object_class(parents, objects, row));
    }
    if at.part == 0 {
        return Class::Header(classify_places::headers::header_class(parents, row));
    }
    let j = (at.part - 1) as usize;
    Class::Slot(classify_slots::slot_class(parents, objects, row, j))
}

// The class at a position, for any bytes and any position: the tables are refused first, then the position.
pub fn class_at(parents: &[u8], objects: &[u8], at: Position) -> Result<Class, Refusal>
    ensures { result ≡ class_answer parents.now objects.now at }
{
    checks::check_tables(parents, objects)?;
    if !positions::is_position(parents, objects, at) || positions::is_end(at) {
        return Err(Refusal::NoPlace);
    }
    Ok(class_of(parents, objects, at))
}
