// The check of the tables, positions, where a run starts and how many steps it takes, as numbers.
#![tactic(auto)]

ghost use Rattle.std.specs.Prelude.{◌≡◌, ◌≤◌, length};
ghost use Rattle.std.proofs.lemmas.List.Edits.{sets};
ghost use Rattle.refusals.specs.Numbers.{answer};
ghost use Rattle.tables.specs.Positions.{place};
ghost use Rattle.tables.specs.Check.{check_number};
ghost use Rattle.tables.specs.Answers.{start_answer, start_number, steps_answer, steps_number};
ghost use Rattle.capi_out.specs.Out.{out_answer, out_numbers};
ghost use Rattle.capi_tables.specs.Tables.{position_numbers, position_given, start_numbers, steps_numbers};

use refusals::Refusal;
use tables::Position;

// Checks the whole input: tables, policy and position.
pub fn check(
    parents: &[u8],
    objects: &[u8],
    reserve: &[u8],
    policy: u64,
    stage: u64,
    row: u64,
    part: u64,
) -> Result<(), Refusal>
    ensures { answer result ≡ check_number parents.now objects.now reserve.now policy (place stage row part) }
{
    checks::check(
        parents,
        objects,
        reserve,
        policy,
        Position { stage, row, part },
    )
}

// The position that is handed in; another amount than three numbers is none.
pub fn position_given(position: &[u64]) -> Position
    ensures { result ≡ position_given position.now }
{
    if position.len() != 3 {
        return Position {
            stage: 0,
            row: 0,
            part: 0,
        };
    }
    Position {
        stage: position[0],
        row: position[1],
        part: position[2],
    }
}

// Stores the three numbers of a position.
pub fn put_position(out: &mut [u64], at: Position)
    requires { 3 ≤ length out.old }
    ensures { out.new ≡ sets out.old 0 (position_numbers at) }
{
    capi_out::put_all(out, 0, &[at.stage, at.row, at.part]);
}

// Where a run starts: 3 numbers into position.
pub fn start(parents: &[u8], objects: &[u8], position: &mut [u64]) -> Result<(), Refusal>
    ensures answer { answer result ≡ out_answer (start_number (start_answer parents.now objects.now)) (start_numbers (start_answer parents.now objects.now)) position.old }
    ensures position { position.new ≡ out_numbers (start_number (start_answer parents.now objects.now)) (start_numbers (start_answer parents.now objects.now)) position.old }
{
    let at = checks::start(parents, objects)?;
    if position.len() < 3 {
        return Err(Refusal::TooShort);
    }
    put_position(position, at);
    Ok(())
}

// How many steps an uncut run takes: 1 number into out.
pub fn steps(parents: &[u8], objects: &[u8], out: &mut [u64]) -> Result<(), Refusal>
    ensures answer { answer result ≡ out_answer (steps_number (steps_answer parents.now objects.now)) (steps_numbers (steps_answer parents.now objects.now)) out.old }
    ensures out { out.new ≡ out_numbers (steps_number (steps_answer parents.now objects.now)) (steps_numbers (steps_answer parents.now objects.now)) out.old }
{
    let count = checks::steps(parents, objects)?;
    if out.len() < 1 {
        return Err(Refusal::TooShort);
    }
    capi_out::put(out, 0, count);
    Ok(())
}
