// The writes of a step, as numbers.
#![tactic(auto)]

ghost use Rattle.std.specs.Prelude.{◌≡◌, [], ◌∷◌, ◌++◌, ◌+◌, ◌*◌, ◌≤◌, ◌<◌, length};
ghost use Rattle.std.proofs.lemmas.List.Edits.{sets};
ghost use Rattle.refusals.specs.Numbers.{answer};
ghost use Rattle.tables.specs.Positions.{place};
ghost use Rattle.rules.specs.Cuts.{target};
ghost use Rattle.capi_writes.specs.Writes.{most_writes, writes_size, row_numbers, writes_numbers, step_number, told, writes_answer, writes_out};

use refusals::Refusal;
use rules::{Step, Write};
use tables::Position;

// The most writes of a step.
pub const MOST_WRITES: usize = 3;

// The numbers that they are told by: how many, then table and row of each.
pub const WRITES_SIZE: usize = 1 + 2 * MOST_WRITES;

const PARENTS: u64 = 0;

const OBJECTS: u64 = 1;

// Stores table and row of write n, counted from 0, and says which comes next.
fn put_row(out: &mut [u64], n: usize, table: u64, row: usize) -> usize
    requires { (n < most_writes) × (writes_size ≤ length out.old) }
    ensures next { result ≡ n + 1 }
    ensures out { out.new ≡ sets out.old (1 + 2 * n) (table ∷ row ∷ []) }
{
    capi_out::put_all(out, 1 + 2 * n, &[table, row as u64]);
    n + 1
}

// The same of a write, which may be left out.
fn put_write(out: &mut [u64], n: usize, w: Write) -> usize
    requires { (n < most_writes) × (writes_size ≤ length out.old) }
    ensures next { result ≡ n + length (target w) }
    ensures out { out.new ≡ sets out.old (1 + 2 * n) (row_numbers (target w)) }
{
    match w {
        Write::Nothing => n,
        Write::Object(o, _) => put_row(out, n, OBJECTS, o),
        Write::Destroy(o) => put_row(out, n, OBJECTS, o),
        Write::Own(r) => put_row(out, n, PARENTS, r),
        Write::Slot(r, _, _) => put_row(out, n, PARENTS, r),
        Write::Grow(r, _, _) => put_row(out, n, PARENTS, r),
        Write::Make(r, _, _, _, _) => put_row(out, n, PARENTS, r),
    }
}

// No writes.
fn put_none(out: &mut [u64])
    requires { writes_size ≤ length out.old }
    ensures { out.new ≡ sets out.old 0 (writes_numbers []) }
{
    capi_out::put_all(out, 0, &[0; WRITES_SIZE]);
}

// The writes of a repair, those that are left out aside.
fn put_writes(out: &mut [u64], x: Write, y: Write, z: Write)
    requires { writes_size ≤ length out.old }
    ensures { out.new ≡ sets out.old 0 (writes_numbers (target x ++ target y ++ target z)) }
{
    put_none(out);
    let second = put_write(out, 0, x);
    let third = put_write(out, second, y);
    let n = put_write(out, third, z);
    capi_out::put(out, 0, n as u64);
}

// The writes of a step, or the number of a stop.
fn tell(out: &mut [u64], d: Step) -> Result<(), Refusal>
    requires { writes_size ≤ length out.old }
    ensures answer { answer result ≡ step_number d }
    ensures out { out.new ≡ told d out.old }
{
    match d {
        Step::Rests => {
            put_none(out);
            Ok(())
        }
        Step::Repairs(_, x, y, z) => {
            put_writes(out, x, y, z);
            Ok(())
        }
        Step::Stops(stop) => Err(stop),
    }
}

// The writes of the step at a position: 7 numbers into out.
pub fn step_writes(
    parents: &[u8],
    objects: &[u8],
    reserve: &[u8],
    policy: u64,
    stage: u64,
    row: u64,
    part: u64,
    out: &mut [u64],
) -> Result<(), Refusal>
    ensures answer { answer result ≡ writes_answer parents.now objects.now reserve.now policy (place stage row part) out.old }
    ensures out { out.new ≡ writes_out parents.now objects.now reserve.now policy (place stage row part) out.old }
{
    let at = Position { stage, row, part };
    checks::check(parents, objects, reserve, policy, at)?;
    if positions::is_end(at) {
        return Err(Refusal::NoPlace);
    }
    if out.len() < WRITES_SIZE {
        return Err(Refusal::TooShort);
    }
    tell(out, decide::decide(parents, objects, reserve, policy, at))
}
