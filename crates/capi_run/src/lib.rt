// Runs over the lent tables, as numbers.
#![tactic(auto)]

ghost use Rattle.std.specs.Prelude.{◌≡◌, ◌≤◌, length};
ghost use Rattle.std.proofs.lemmas.List.Edits.{sets};
ghost use Rattle.capi_run.specs.Runs.{report_size, report_numbers, called};

use refusals::Refusal;
use rules::{REPAIRS, Report};

// The numbers of a report: the steps, and the repairs of each class.
pub const REPORT_SIZE: usize = 1 + REPAIRS;

// Stores the numbers of a report.
fn put_report(out: &mut [u64], r: Report)
    requires { report_size ≤ length out.old }
    ensures { out.new ≡ sets out.old 0 (report_numbers r) }
{
    capi_out::put(out, 0, r.steps);
    capi_out::put_all(out, 1, &r.counts.of);
}

// A run of at most so many steps: the position in and out, 10 numbers into report.
// Its answer is a number: 1, with steps left, is no refusal.
pub fn run(
    parents: &mut [u8],
    objects: &mut [u8],
    reserve: &[u8],
    policy: u64,
    most: u64,
    position: &mut [u64],
    report: &mut [u64],
) -> u32
    ensures answer { result ≡ (called parents.old objects.old reserve.now policy most position.old report.old).answer }
    ensures parents { parents.new ≡ (called parents.old objects.old reserve.now policy most position.old report.old).parents }
    ensures objects { objects.new ≡ (called parents.old objects.old reserve.now policy most position.old report.old).objects }
    ensures position { position.new ≡ (called parents.old objects.old reserve.now policy most position.old report.old).position }
    ensures report { report.new ≡ (called parents.old objects.old reserve.now policy most position.old report.old).report }
{
    let at = capi_tables::position_given(position);
    if let Err(refusal) = checks::check(parents, objects, reserve, policy, at) {
        return refusal.number();
    }
    if report.len() < REPORT_SIZE {
        return Refusal::TooShort.number();
    }
    let ran = steps::steps(parents, objects, reserve, policy, most, at);
    put_report(report, ran);
    capi_tables::put_position(position, ran.position);
    ran.answer
}
