// Names against objects. Index and room are lent to work in, and nothing is said of what they hold after.
ghost use Rattle.std.specs.Prelude.{◌≡◌};
ghost use Rattle.names.specs.Calls.{find_number, find_out, judge_number, judge_marks, left, mend_call, pass_call};

// The findings of every entry: 2 numbers each into out.
pub fn lfsck_names_find(entries: &[u8], children: &[u8], out: &mut [u64]) -> u32
    ensures answer { result ≡ find_number entries.now children.now out.old }
    ensures numbers { out.new ≡ find_out entries.now children.now out.old }
{
    refusals::answer(names_check::calls::find(entries, children, out))
}

// Which directories are visible: a mark for each child row.
pub fn lfsck_names_judge(
    entries: &[u8],
    children: &[u8],
    index: &mut [u8],
    room: &mut [u8],
    marks: &mut [u64],
) -> u32
    ensures answer { result ≡ judge_number entries.now children.now index.old room.old marks.old }
    ensures marked { marks.new ≡ judge_marks entries.now children.now index.old room.old marks.old }
{
    refusals::answer(names_judge::calls::judge(entries, children, index, room, marks))
}

// Mends under the marks: 5 numbers into report.
pub fn lfsck_names_mend(
    entries: &mut [u8],
    children: &mut [u8],
    index: &mut [u8],
    room: &mut [u8],
    marks: &[u64],
    report: &mut [u64],
) -> u32
    ensures { left result entries.new children.new marks.now report.new
        ≡ mend_call entries.old children.old index.old room.old marks.now report.old }
{
    refusals::answer(names_mend::calls::mend(entries, children, index, room, marks, report))
}

// Judges, then mends under the marks that it wrote.
pub fn lfsck_names_pass(
    entries: &mut [u8],
    children: &mut [u8],
    index: &mut [u8],
    room: &mut [u8],
    marks: &mut [u64],
    report: &mut [u64],
) -> u32
    ensures { left result entries.new children.new marks.new report.new
        ≡ pass_call entries.old children.old index.old room.old marks.old report.old }
{
    refusals::answer(names_mend::calls::pass(entries, children, index, room, marks, report))
}
