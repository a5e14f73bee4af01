// The state's own test.
ghost use Rattle.std.specs.Prelude.{◌≡◌};
ghost use Rattle.intake_line.specs.Entry.{good_mark};
ghost use Rattle.intake_state.specs.State.{good_stop, bare_marks, good_open, good_half, is_even, good_line, good_kept, good_state};

use super::{Kept, state};
use intake::Kind;
use intake_bytes::{HEAD_SIZE, Half, LAYOUT_AT, Marks, Unfinished};
use refusals::Refusal;
use tables::rows::LAYOUT_ROOM;

// The bytes of a state.
const STATE_SIZE: usize = LAYOUT_AT + LAYOUT_ROOM;

// Lines and bytes of a value are counted up to this.
const MAX_READ: usize = 0x8000_0000_0000_0000;

// No answer, or one of 33 to 37.
fn good_stop(answer: usize) -> bool
    ensures { result ≡ good_stop answer }
{
    let least = Refusal::BadDump.number() as usize;
    let most = Refusal::NoFit.number() as usize;
    answer == 0 || (least <= answer && answer <= most)
}

// A mark is 0, or that of a good length.
fn good_mark(k: Kind, mark: usize) -> bool
    ensures { result ≡ good_mark k mark }
{
    if mark == 0 {
        return true;
    }
    intake_line::good_size(k, mark - 1)
}

fn bare(m: Marks) -> bool
    ensures { result ≡ bare_marks m }
{
    if m.lov != 0 {
        return false;
    }
    if m.fid != 0 {
        return false;
    }
    m.lma == 0
}

// Marks are of good lengths, and outside an entry there are none.
fn good_open(from: usize, m: Marks) -> bool
    ensures { result ≡ good_open from m }
{
    if !good_mark(Kind::Fid, m.fid) {
        return false;
    }
    if !good_mark(Kind::Lma, m.lma) {
        return false;
    }
    if from != 0 {
        return true;
    }
    bare(m)
}

// A first digit is one.
fn good_half(half: Half) -> bool
    ensures { result ≡ good_half half }
{
    match half {
        Half::Odd(h) => h < 16,
        _ => true,
    }
}

fn is_even(half: Half) -> bool
    ensures { result ≡ is_even half }
{
    matches!(half, Half::Even)
}

// A line has digits only after its head.
fn good_line(x: Unfinished) -> bool
    ensures { result ≡ good_line x }
{
    if HEAD_SIZE < x.seen {
        return false;
    }
    if !good_half(x.half) {
        return false;
    }
    if MAX_READ < x.size {
        return false;
    }
    HEAD_SIZE == x.seen || (is_even(x.half) && x.size == 0)
}

fn good_kept(k: Kept) -> bool
    ensures { result ≡ good_kept k }
{
    let x = k.reader;
    let m = x.marks;
    let line = x.line;
    if !good_stop(k.answer) {
        return false;
    }
    if !good_open(x.from, m) {
        return false;
    }
    if !good_line(line) {
        return false;
    }
    x.count <= MAX_READ
}

// Whether a state passes.
pub fn good_state(s: &[u8]) -> bool
    ensures { result ≡ good_state s.now }
{
    if s.len() != STATE_SIZE {
        return false;
    }
    good_kept(state::load(s))
}
