// The writes of the step at a position.
ghost use Rattle.std.specs.Prelude.{◌≡◌};
ghost use Rattle.tables.specs.Positions.{place};
ghost use Rattle.capi_writes.specs.Writes.{writes_answer, writes_out};

// The writes of the step at a position: 7 numbers into out.
pub fn lfsck_step_writes(
    parents: &[u8],
    objects: &[u8],
    reserve: &[u8],
    policy: u64,
    stage: u64,
    row: u64,
    part: u64,
    out: &mut [u64],
) -> u32
    ensures answer { result ≡ writes_answer parents.now objects.now reserve.now policy (place stage row part) out.old }
    ensures out { out.new ≡ writes_out parents.now objects.now reserve.now policy (place stage row part) out.old }
{
    refusals::answer(capi_writes::step_writes(
        parents, objects, reserve, policy, stage, row, part, out,
    ))
}
