// The mending under marks that are handed in, and the pass: refusals first.
ghost use Rattle.std.specs.Prelude.{◌≡◌, true, List, ℕ, ◌+◌, ◌*◌, ◌/◌, ◌≤◌, length};
ghost use Rattle.std.proofs.lemmas.List.Edits.{sets};
ghost use Rattle.refusals.specs.Numbers.{answer};
ghost use Rattle.tables.specs.Check.{first_failing};
ghost use Rattle.index.specs.Entries.{place_size};
ghost use Rattle.names.specs.Rows.{entry_size, child_size, parse_children};
ghost use Rattle.names.specs.Check.{SoundNames};
ghost use Rattle.names.specs.Visible.{seen_by, good_marks};
ghost use Rattle.names.specs.Calls.{report_size, report_numbers, left, mended_bytes, mend_tests, mend_call, pass_call};
ghost use Rattle.names_mend.specs.Mending.{report_by};
ghost use Rattle.names_mend.specs.Refusals.{places_tests};

use super::{Mending, sweeps};
use names::rows::CHILD_SIZE;
use names_check::check;
use names_judge::{calls, judge};
use names_marks::fit;
use refusals::Refusal;

// The numbers of a report.
pub const REPORT_SIZE: usize = 5;

// Writes the report of a mending.
fn put_report(report: &mut [u64], x: Mending)
    requires { report_size ≤ length report.old }
    ensures { report.new ≡ sets report.old 0 (report_numbers (report_by x)) }
{
    report[0] = x.taken as u64;
    report[1] = x.written as u64;
    report[2] = x.appended as u64;
    report[3] = x.removed as u64;
    report[4] = x.reached as u64;
}

// Mends tables that pass the check under marks that fit them, with a report.
fn mend_told(
    entries: &mut [u8],
    children: &mut [u8],
    marks: &[u64],
    index: &mut [u8],
    room: &mut [u8],
    report: &mut [u64],
) -> Result<(), Refusal>
    requires { SoundNames entries.old children.old × (good_marks marks.now (parse_children children.old) ≡ true)
        × (place_size * (length entries.old / entry_size + length children.old / child_size) ≤ length index.old)
        × (place_size * (length entries.old / entry_size + length children.old / child_size) ≤ length room.old)
        × (report_size ≤ length report.old) }
    ensures { (ms : List ℕ) → left (answer result) entries.new children.new ms report.new
        ≡ mended_bytes (seen_by marks.now (parse_children children.old)) entries.old children.old ms report.old }
{
    let x = sweeps::mend(entries, children, marks, index, room);
    put_report(report, x);
    x.done()
}

// Why a mending is refused: 11, 16, 31, then 17 for index, room and report.
fn mend_check(
    entries: &[u8],
    children: &[u8],
    index: &[u8],
    room: &[u8],
    marks: &[u64],
    report: &[u64],
) -> Result<(), Refusal>
    ensures { answer result ≡ first_failing (mend_tests entries.now children.now index.now room.now marks.now report.now) }
{
    if !fit::good_marks(children, marks) {
        return Err(Refusal::BadTable);
    }
    check::check(entries, children)?;
    if !calls::has_rooms(entries, children, index, room) {
        return Err(Refusal::TooShort);
    }
    if report.len() < REPORT_SIZE {
        return Err(Refusal::TooShort);
    }
    Ok(())
}

// Mends under the marks: 11, 16, 31, 17, then 38, with which tables and report are written too. Index and room are lent to work in.
pub fn mend(
    entries: &mut [u8],
    children: &mut [u8],
    index: &mut [u8],
    room: &mut [u8],
    marks: &[u64],
    report: &mut [u64],
) -> Result<(), Refusal>
    ensures { left (answer result) entries.new children.new marks.now report.new
        ≡ mend_call entries.old children.old index.old room.old marks.now report.old }
{
    mend_check(entries, children, index, room, marks, report)?;
    mend_told(entries, children, marks, index, room, report)
}

// Why a pass is refused before it judges: 11, 16, 31, then 17 for index, room, marks and report.
fn pass_check(
    entries: &[u8],
    children: &[u8],
    index: &[u8],
    room: &[u8],
    marks: &[u64],
    report: &[u64],
) -> Result<(), Refusal>
    ensures { answer result ≡ first_failing (places_tests entries.now children.now index.now room.now marks.now report.now) }
{
    check::check(entries, children)?;
    if !calls::has_rooms(entries, children, index, room) {
        return Err(Refusal::TooShort);
    }
    if marks.len() < children.len() / CHILD_SIZE {
        return Err(Refusal::TooShort);
    }
    if report.len() < REPORT_SIZE {
        return Err(Refusal::TooShort);
    }
    Ok(())
}

// The pass, judging and then mending under its marks: 11, 16, 31, 17, 39, then 38, with which tables, marks and report are written too.
// Index and room are lent to work in.
pub fn pass(
    entries: &mut [u8],
    children: &mut [u8],
    index: &mut [u8],
    room: &mut [u8],
    marks: &mut [u64],
    report: &mut [u64],
) -> Result<(), Refusal>
    ensures { left (answer result) entries.new children.new marks.new report.new
        ≡ pass_call entries.old children.old index.old room.old marks.old report.old }
{
    pass_check(entries, children, index, room, marks, report)?;
    judge::judge_rows(children, index, room, marks)?;
    let count = children.len() / CHILD_SIZE;
    mend_told(entries, children, &marks[..count], index, room, report)
}
