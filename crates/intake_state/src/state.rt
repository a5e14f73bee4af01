// The state's numbers in its first bytes.
ghost use Rattle.std.specs.Prelude.{◌≡◌, [], ◌∷◌, ◌+◌, ◌≤◌, length};
ghost use Rattle.std.proofs.lemmas.List.Edits.{sets};
ghost use Rattle.intake_bytes.specs.Lent.{layout_at};
ghost use Rattle.intake_state.specs.State.{number_at, eights, half_of, half_number, line_in, marks_in, reader_in, kept_of, Stored};

use super::Kept;
use intake_bytes::{FID_AT, HEAD_AT, HEAD_END, HEAD_SIZE, Half, Marks, Unfinished};
use intake_line::Reader;
use wire::Little;

// Where the numbers stand, 8 bytes each: the stop, the entry and its marks, the unfinished line.
const ANSWER_AT: usize = 0;

const NAMED_AT: usize = ANSWER_AT + 8;

const TAKEN_AT: usize = NAMED_AT + 8;

const FROM_AT: usize = TAKEN_AT + 8;

const COUNT_AT: usize = FROM_AT + 8;

const LOV_MARK_AT: usize = COUNT_AT + 8;

const FID_MARK_AT: usize = LOV_MARK_AT + 8;

const LMA_MARK_AT: usize = FID_MARK_AT + 8;

const SEEN_AT: usize = LMA_MARK_AT + 8;

const HALF_AT: usize = SEEN_AT + 8;

const SIZE_AT: usize = HALF_AT + 8;

// The number of digits that aren't hex.
const BROKEN: usize = 17;

fn number_at(state: &[u8], at: usize) -> usize
    requires { at + 8 ≤ length state.now }
    ensures { result ≡ number_at state.now at }
{
    wire::get::<u64, Little>(state, at) as usize
}

// Half a byte from its number: 0 where there is none, a digit and 1, or 17.
fn half_of(n: usize) -> Half
    ensures { result ≡ half_of n }
{
    match n {
        0 => Half::Even,
        BROKEN => Half::Broken,
        _ => Half::Odd(n - 1),
    }
}

fn half_number(half: Half) -> usize
    ensures { result ≡ half_number half }
{
    match half {
        Half::Even => 0,
        Half::Odd(h) => h.wrapping_add(1),
        Half::Broken => BROKEN,
    }
}

// The unfinished line of these numbers: its head tells where its value goes.
fn line_in(state: &[u8], m: Marks, seen: usize, half: Half, size: usize) -> Unfinished
    requires { layout_at ≤ length state.now }
    ensures { result ≡ line_in state.now m seen half size }
{
    if seen < HEAD_SIZE {
        return Unfinished {
            seen,
            base: FID_AT,
            most: 0,
            half,
            size,
        };
    }
    let k = intake_bytes::kind_of(&state[HEAD_AT..HEAD_END]);
    Unfinished {
        seen,
        base: intake_bytes::base_of(k),
        most: intake_bytes::most_of(k, m, state.len()),
        half,
        size,
    }
}

fn marks_in(state: &[u8]) -> Marks
    requires { layout_at ≤ length state.now }
    ensures { result ≡ marks_in state.now }
{
    Marks {
        lov: number_at(state, LOV_MARK_AT),
        fid: number_at(state, FID_MARK_AT),
        lma: number_at(state, LMA_MARK_AT),
    }
}

fn reader_in(state: &[u8]) -> Reader
    requires { layout_at ≤ length state.now }
    ensures { result ≡ reader_in state.now }
{
    let m = marks_in(state);
    let seen = number_at(state, SEEN_AT);
    let half = half_of(number_at(state, HALF_AT));
    let size = number_at(state, SIZE_AT);
    let line = line_in(state, m, seen, half, size);
    Reader {
        from: number_at(state, FROM_AT),
        marks: m,
        count: number_at(state, COUNT_AT),
        line,
    }
}

// The state's numbers.
pub fn load(state: &[u8]) -> Kept
    requires { layout_at ≤ length state.now }
    ensures { result ≡ kept_of state.now }
{
    let reader = reader_in(state);
    Kept {
        answer: number_at(state, ANSWER_AT),
        named: number_at(state, NAMED_AT),
        taken: number_at(state, TAKEN_AT),
        reader,
    }
}

// Three numbers, one after another.
fn put_three(state: &mut [u8], at: usize, a: usize, b: usize, c: usize)
    requires { at + 24 ≤ length state.old }
    ensures { state.new ≡ sets state.old at (eights (a ∷ b ∷ c ∷ [])) }
{
    wire::put::<u64, Little>(state, at, a as u64);
    wire::put::<u64, Little>(state, at + 8, b as u64);
    wire::put::<u64, Little>(state, at + 16, c as u64);
}

// Stores the numbers; the last place is spare.
pub fn store(state: &mut [u8], k: Kept)
    requires { layout_at ≤ length state.old }
    ensures { Stored state.old k state.new }
{
    let x = k.reader;
    let m = x.marks;
    let line = x.line;
    put_three(state, ANSWER_AT, k.answer, k.named, k.taken);
    put_three(state, FROM_AT, x.from, x.count, m.lov);
    put_three(state, FID_MARK_AT, m.fid, m.lma, line.seen);
    put_three(state, HALF_AT, half_number(line.half), line.size, 0);
}
