// Every class in one call: one check, then the classes from a position on.
#![tactic(auto)]

ghost use Rattle.std.specs.Prelude.{◌≡◌, true, length};
ghost use Rattle.std.proofs.lemmas.List.Edits.{sets};
ghost use Rattle.refusals.specs.Numbers.{answer};
ghost use Rattle.tables.specs.Bytes.{parse};
ghost use Rattle.tables.specs.Positions.{is_position};
ghost use Rattle.tables.specs.Check.{Sound};
ghost use Rattle.listing.specs.Listing.{told_positions, onward, classes_at, listing_number, listing};

use refusals::Refusal;
use tables::Position;

// How many positions were told, and the first that was not.
#[derive(Clone, Copy)]
struct Told {
    done: u64,
    position: Position,
}

// The classes from a position on, as many as out has whole places for.
// A loop: each turn writes a place of out, and the position after the last one told is part of the answer.
fn tell(parents: &[u8], objects: &[u8], at: Position, out: &mut [u64]) -> Told
    requires { Sound parents.now objects.now × (is_position (parse parents.now objects.now) at ≡ true) }
    ensures done { result.done ≡ length (told_positions (parse parents.now objects.now) at out.old) }
    ensures position { result.position ≡ onward (length (told_positions (parse parents.now objects.now) at out.old)) (parse parents.now objects.now) at }
    ensures out { out.new ≡ sets out.old 0 (classes_at (parse parents.now objects.now) (told_positions (parse parents.now objects.now) at out.old)) }
{
    let most = out.len() / capi_class::CLASS_SIZE;
    let mut position = at;
    let mut done: usize = 0;
    while done < most {
        if positions::is_end(position) {
            return Told {
                done: done as u64,
                position,
            };
        }
        let class = classify::class_of(parents, objects, position);
        capi_class::put_class(out, capi_class::CLASS_SIZE * done, class);
        position = positions::next_position(parents, objects, position);
        done += 1;
    }
    Told {
        done: done as u64,
        position,
    }
}

// What refuses a listing: the tables first, then the position.
fn check(parents: &[u8], objects: &[u8], at: Position) -> Result<(), Refusal>
    ensures { answer result ≡ listing_number parents.now objects.now at }
{
    checks::check_tables(parents, objects)?;
    if !positions::is_position(parents, objects, at) {
        return Err(Refusal::NoPlace);
    }
    Ok(())
}

// The classes from a position on: the position in and out, 4 numbers a position into out, how many positions were told into done.
pub fn classes(
    parents: &[u8],
    objects: &[u8],
    position: &mut [u64],
    out: &mut [u64],
    done: &mut [u64],
) -> Result<(), Refusal>
    ensures answer { answer result ≡ (listing parents.now objects.now position.old out.old done.old).answer }
    ensures position { position.new ≡ (listing parents.now objects.now position.old out.old done.old).position }
    ensures out { out.new ≡ (listing parents.now objects.now position.old out.old done.old).out }
    ensures done { done.new ≡ (listing parents.now objects.now position.old out.old done.old).done }
{
    let at = capi_tables::position_given(position);
    check(parents, objects, at)?;
    if done.len() < 1 {
        return Err(Refusal::TooShort);
    }
    let told = tell(parents, objects, at, out);
    capi_tables::put_position(position, told.position);
    capi_out::put(done, 0, told.done);
    Ok(())
}
