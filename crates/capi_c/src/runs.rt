// Runs over the lent tables.
ghost use Rattle.std.specs.Prelude.{◌≡◌};
ghost use Rattle.capi_run.specs.Runs.{called};

// A run of at most so many steps: the position in and out, 10 numbers into report.
#[unsafe(no_mangle)]
pub extern "C" fn lfsck_run(
    parents: &mut [u8],
    objects: &mut [u8],
    reserve: &[u8],
    policy: u64,
    most: u64,
    position: &mut [u64],
    report: &mut [u64],
) -> u32
    ensures answer { result ≡ (called parents.old objects.old reserve.now policy most position.old report.old).answer }
    ensures parents { parents.new ≡ (called parents.old objects.old reserve.now policy most position.old report.old).parents }
    ensures objects { objects.new ≡ (called parents.old objects.old reserve.now policy most position.old report.old).objects }
    ensures position { position.new ≡ (called parents.old objects.old reserve.now policy most position.old report.old).position }
    ensures report { report.new ≡ (called parents.old objects.old reserve.now policy most position.old report.old).report }
{
    capi::runs::lfsck_run(parents, objects, reserve, policy, most, position, report)
}
