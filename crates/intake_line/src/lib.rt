// What a line of a dump says where it ends, and what it does to the open entry.
#![tactic(auto)]

ghost use Rattle.std.specs.Prelude.{◌≡◌, ◌+◌, ◌≤◌, ◌<◌, length};
ghost use Rattle.intake.specs.Says.{head_size, good_size};
ghost use Rattle.intake_bytes.specs.Lent.{layout_at, max_count, mark_of};
ghost use Rattle.intake_line.specs.Ending.{HeadSaid, LineSaid};
ghost use Rattle.intake_line.specs.Entry.{no_marks, marks_with, EntryStep, ReaderHeld, TurnTaken};

use intake::Kind;
use intake_bytes::{HEAD_AT, HEAD_SIZE, Half, LMA_SIZE, MARK_AT, Marks, OLDER_SIZE, Unfinished};
use refusals::Refusal;

// What a line says; the length and the bytes of a taken value stand beside it.
#[derive(Clone, Copy)]
pub enum Said {
    Opens,
    Closes,
    Skipped,
    Bad,
    Takes(Kind),
}

// The entry that is open (its first line, or 0, and what it has), the lines read and the unfinished one.
#[derive(Clone, Copy)]
pub struct Reader {
    pub from: usize,
    pub marks: Marks,
    pub count: usize,
    pub line: Unfinished,
}

// Whether a length is good for its kind.
pub fn good_size(k: Kind, n: usize) -> bool
    ensures { result ≡ good_size k n }
{
    match k {
        Kind::Lov => true,
        Kind::Fid => n == fid::FID_SIZE || n == OLDER_SIZE,
        Kind::Lma => n == LMA_SIZE,
        Kind::Other => false,
    }
}

// What a line with this head says, where its value's digits come to so many bytes.
pub fn head_says(h: &[u8], half: Half, size: usize) -> Said
    ensures { HeadSaid h.now half size result }
{
    if h.len() == 0 {
        return Said::Closes;
    }
    if intake_bytes::starts(b"# file:", h) {
        return Said::Opens;
    }
    if !intake_bytes::starts(b"trusted.", h) {
        return Said::Bad;
    }
    let k = intake_bytes::kind_of(h);
    if k == Kind::Other {
        return Said::Skipped;
    }
    if h.len() < HEAD_SIZE {
        return Said::Bad;
    }
    if !intake_bytes::starts(b"=0x", &h[MARK_AT..]) {
        return Said::Bad;
    }
    let Half::Even = half else {
        return Said::Bad;
    };
    if good_size(k, size) {
        return Said::Takes(k);
    }
    Said::Bad
}

// What the line says that ends here.
pub fn line_says(buf: &[u8], x: Unfinished) -> Said
    requires { (layout_at ≤ length buf.now) × (x.seen ≤ head_size) }
    ensures { LineSaid buf.now x result }
{
    let end = HEAD_AT + x.seen;
    head_says(&buf[HEAD_AT..end], x.half, x.size)
}

// The marks with one more attribute.
fn marks_with(k: Kind, mark: usize, m: Marks) -> Marks
    ensures { result ≡ marks_with k mark m }
{
    match k {
        Kind::Lov => Marks { lov: mark, ..m },
        Kind::Fid => Marks { fid: mark, ..m },
        Kind::Lma => Marks { lma: mark, ..m },
        Kind::Other => m,
    }
}

fn mark_of(k: Kind, m: Marks) -> usize
    ensures { result ≡ mark_of m k }
{
    match k {
        Kind::Lov => m.lov,
        Kind::Fid => m.fid,
        Kind::Lma => m.lma,
        Kind::Other => 0,
    }
}

// The marks of an entry that has nothing.
pub fn no_marks() -> Marks
    ensures { result ≡ no_marks }
{
    Marks {
        lov: 0,
        fid: 0,
        lma: 0,
    }
}

// What the reader's line leaves, which says this: an open entry (its first line and what it has), or none where the entry closes.
pub fn entry_line(r: Reader, s: Said) -> Result<Option<(usize, Marks)>, Refusal>
    requires { (r.count < max_count) × (r.line.size < max_count) }
    ensures { EntryStep r.from r.marks s r.line.size (r.count + 1) result }
{
    match s {
        Said::Opens if r.from == 0 => Ok(Some((r.count + 1, no_marks()))),
        Said::Closes if r.from != 0 => Ok(None),
        Said::Skipped if r.from != 0 => Ok(Some((r.from, r.marks))),
        Said::Takes(k) if r.from != 0 => {
            if mark_of(k, r.marks) != 0 {
                return Err(Refusal::AttributeTwice);
            }
            Ok(Some((r.from, marks_with(k, r.line.size + 1, r.marks))))
        }
        _ => Err(Refusal::BadDump),
    }
}

// The end of the reader's line: the reader at the next one, or none where the entry closes.
pub fn line_end(buf: &[u8], r: Reader) -> Result<Option<Reader>, Refusal>
    requires { ReaderHeld buf.now r }
    ensures { TurnTaken buf.now r result }
{
    let said = line_says(buf, r.line);
    let Some((from, marks)) = entry_line(r, said)? else {
        return Ok(None);
    };
    Ok(Some(Reader {
        from,
        marks,
        count: r.count + 1,
        line: intake_bytes::new_line(),
    }))
}
