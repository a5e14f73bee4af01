// The check of the tables, where a run starts and how many steps it takes.
ghost use Rattle.std.specs.Prelude.{◌≡◌};
ghost use Rattle.tables.specs.Positions.{place};
ghost use Rattle.tables.specs.Check.{check_number};
ghost use Rattle.tables.specs.Answers.{start_answer, start_number, steps_answer, steps_number};
ghost use Rattle.capi_out.specs.Out.{out_answer, out_numbers};
ghost use Rattle.capi_tables.specs.Tables.{start_numbers, steps_numbers};

// Checks the whole input: tables, policy and position.
pub fn lfsck_check(
    parents: &[u8],
    objects: &[u8],
    reserve: &[u8],
    policy: u64,
    stage: u64,
    row: u64,
    part: u64,
) -> u32
    ensures { result ≡ check_number parents.now objects.now reserve.now policy (place stage row part) }
{
    refusals::answer(capi_tables::check(parents, objects, reserve, policy, stage, row, part))
}

// Where a run starts: 3 numbers into position.
pub fn lfsck_start(parents: &[u8], objects: &[u8], position: &mut [u64]) -> u32
    ensures answer { result ≡ out_answer (start_number (start_answer parents.now objects.now)) (start_numbers (start_answer parents.now objects.now)) position.old }
    ensures position { position.new ≡ out_numbers (start_number (start_answer parents.now objects.now)) (start_numbers (start_answer parents.now objects.now)) position.old }
{
    refusals::answer(capi_tables::start(parents, objects, position))
}

// How many steps an uncut run takes: 1 number into out.
pub fn lfsck_steps(parents: &[u8], objects: &[u8], out: &mut [u64]) -> u32
    ensures answer { result ≡ out_answer (steps_number (steps_answer parents.now objects.now)) (steps_numbers (steps_answer parents.now objects.now)) out.old }
    ensures out { out.new ≡ out_numbers (steps_number (steps_answer parents.now objects.now)) (steps_numbers (steps_answer parents.now objects.now)) out.old }
{
    refusals::answer(capi_tables::steps(parents, objects, out))
}
