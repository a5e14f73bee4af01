// The class at a position, as numbers.
#![tactic(auto)]

ghost use Rattle.std.specs.Prelude.{◌≡◌, ◌+◌, ◌≤◌, length};
ghost use Rattle.std.proofs.lemmas.List.Edits.{sets};
ghost use Rattle.refusals.specs.Numbers.{answer};
ghost use Rattle.tables.specs.Positions.{place};
ghost use Rattle.rules.specs.Classes.{only, header_numbers, slot_numbers, object_numbers, class_numbers};
ghost use Rattle.classify.specs.Answer.{class_answer, class_number};
ghost use Rattle.capi_out.specs.Out.{out_answer, out_numbers};
ghost use Rattle.capi_class.specs.Classes.{told_numbers};

use refusals::Refusal;
use rules::{Class, HeaderClass, ObjectClass, SlotClass};
use tables::Position;

// The numbers that a class is told by.
pub const CLASS_SIZE: usize = 4;

// A class that carries nothing.
fn bare(class: u64) -> [u64; CLASS_SIZE]
    ensures { result ≡ only class }
{
    [class, 0, 0, 0]
}

fn header_numbers(c: HeaderClass) -> [u64; CLASS_SIZE]
    ensures { result ≡ header_numbers c }
{
    match c {
        HeaderClass::CLEAN => bare(0),
        HeaderClass::SELF => bare(1),
        HeaderClass::UNUSED => bare(13),
    }
}

fn slot_numbers(c: SlotClass) -> [u64; CLASS_SIZE]
    ensures { result ≡ slot_numbers c }
{
    match c {
        SlotClass::CLEAN => bare(0),
        SlotClass::HOLE => bare(2),
        SlotClass::MULTIPLE => bare(3),
        SlotClass::DANGLING => bare(4),
        SlotClass::BLANK => bare(5),
        SlotClass::UNMATCHED(f, i) => {
            let claimed = f.0;
            [6, claimed.seq, claimed.oid as u64, i as u64]
        }
        SlotClass::OWNER => bare(7),
        SlotClass::WRONGOST => bare(14),
    }
}

fn object_numbers(c: ObjectClass) -> [u64; CLASS_SIZE]
    ensures { result ≡ object_numbers c }
{
    match c {
        ObjectClass::SPARE => bare(8),
        ObjectClass::EMPTY => bare(9),
        ObjectClass::ORPHAN => bare(10),
        ObjectClass::CONFLICT => bare(11),
        ObjectClass::KEPT => bare(12),
        ObjectClass::UNUSED => bare(13),
    }
}

// The numbers of a class: its own, and the sequence, id and index that were claimed.
fn class_numbers(c: Class) -> [u64; CLASS_SIZE]
    ensures { result ≡ class_numbers c }
{
    match c {
        Class::Header(h) => header_numbers(h),
        Class::Slot(s) => slot_numbers(s),
        Class::Object(o) => object_numbers(o),
    }
}

// Stores the four numbers of a class, from a place on.
pub fn put_class(out: &mut [u64], at: usize, c: Class)
    requires { at + 4 ≤ length out.old }
    ensures { out.new ≡ sets out.old at (class_numbers c) }
{
    capi_out::put_all(out, at, &class_numbers(c));
}

// The class at a position: 4 numbers into out.
pub fn class_at(
    parents: &[u8],
    objects: &[u8],
    stage: u64,
    row: u64,
    part: u64,
    out: &mut [u64],
) -> Result<(), Refusal>
    ensures answer { answer result ≡ out_answer (class_number (class_answer parents.now objects.now (place stage row part))) (told_numbers (class_answer parents.now objects.now (place stage row part))) out.old }
    ensures out { out.new ≡ out_numbers (class_number (class_answer parents.now objects.now (place stage row part))) (told_numbers (class_answer parents.now objects.now (place stage row part))) out.old }
{
    let class = classify::class_at(parents, objects, Position { stage, row, part })?;
    if out.len() < CLASS_SIZE {
        return Err(Refusal::TooShort);
    }
    put_class(out, 0, class);
    Ok(())
}
