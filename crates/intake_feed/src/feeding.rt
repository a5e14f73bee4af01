// A piece taken in, and the end of a dump.
ghost use Rattle.std.specs.Prelude.{◌≡◌, ◌≤◌, ◌<◌, length, leb};
ghost use Rattle.refusals.specs.Numbers.{answer};
ghost use Rattle.intake.specs.Reading.{bad_dump, no_fit};
ghost use Rattle.intake_bytes.specs.Lent.{layout_at, max_count};
ghost use Rattle.intake_state.specs.State.{kept_of, state_stands};
ghost use Rattle.intake_feed.specs.Feed.{feed_refusal, out_line, PieceFed};
ghost use Rattle.intake_feed.specs.End.{unclosed_at, EndTold, DumpEnded};

use super::lines;
use checks::whole;
use intake_state::{Kept, state, tests};
use refusals::Refusal;

// The most bytes of a piece.
const MAX_PIECE: usize = 65536;

// Whether so much of the owners file can have been taken.
fn owners_reach(s: &[u8], file: &[u8]) -> bool
    requires { layout_at ≤ length s.now }
    ensures { result ≡ leb (kept_of s.now).taken (length file.now) }
{
    let k = state::load(s);
    k.taken <= file.len()
}

// 16: the state's length, its test, and the owners file.
fn state_stands(s: &[u8], file: &[u8]) -> bool
    ensures { result ≡ state_stands s.now file.now }
{
    tests::good_state(s) && owners_reach(s, file)
}

// 11, 16 and 17, in this order.
fn refusal(
    s: &[u8],
    piece: &[u8],
    file: &[u8],
    parents: &[u8],
    objects: &[u8],
    places: usize,
) -> Result<(), Refusal>
    ensures { answer result ≡ feed_refusal s.now piece.now file.now parents.now objects.now places }
{
    if MAX_PIECE < piece.len() {
        return Err(Refusal::BadTable);
    }
    if !whole::both_whole(parents, objects) {
        return Err(Refusal::BadTable);
    }
    if !state_stands(s, file) {
        return Err(Refusal::NoPlace);
    }
    if places < 1 {
        return Err(Refusal::TooShort);
    }
    Ok(())
}

// The answer of a state, and the line that it names.
fn told(out: &mut [u64], k: Kept) -> Result<(), Refusal>
    requires { (1 ≤ length out.old) × (k.answer ≤ no_fit) × ((k.answer ≡ 0 → ⊥) → bad_dump ≤ k.answer) }
    ensures { (answer result ≡ k.answer) × (out.new ≡ out_line k.answer k.named out.old) }
{
    if k.answer != 0 {
        out[0] = k.named as u64;
    }
    k.told()
}

// Takes a piece in.
pub fn feed(
    s: &mut [u8],
    piece: &[u8],
    file: &[u8],
    parents: &mut [u8],
    objects: &mut [u8],
    out: &mut [u64],
) -> Result<(), Refusal>
    ensures { PieceFed s.old piece.now file.now parents.old objects.old out.old s.new parents.new objects.new out.new (answer result) }
{
    refusal(s, piece, file, parents, objects, out.len())?;
    let k = state::load(s);
    if k.answer != 0 {
        return told(out, k);
    }
    let after = lines::read_piece(s, k, piece, file, parents, objects);
    state::store(s, after);
    told(out, after)
}

// The same state stopped with 33 at a line.
fn unclosed(k: Kept, line: usize) -> Kept
    ensures { result ≡ unclosed_at k line }
{
    Kept {
        answer: Refusal::BadDump.number() as usize,
        named: line,
        ..k
    }
}

// What the end finds: an open entry, or an unfinished line.
fn at_end(k: Kept) -> Kept
    requires { (k.answer ≤ no_fit) × ((k.answer ≡ 0 → ⊥) → bad_dump ≤ k.answer) × (k.reader.count < max_count) }
    ensures { EndTold k result }
{
    if k.answer != 0 {
        return k;
    }
    let x = k.reader;
    if x.from != 0 {
        return unclosed(k, x.from);
    }
    if x.line.seen != 0 {
        return unclosed(k, x.count + 1);
    }
    k
}

// The end of a dump.
pub fn end(s: &[u8], out: &mut [u64]) -> Result<(), Refusal>
    ensures { DumpEnded s.now out.old out.new (answer result) }
{
    if !tests::good_state(s) {
        return Err(Refusal::NoPlace);
    }
    if out.len() < 1 {
        return Err(Refusal::TooShort);
    }
    told(out, at_end(state::load(s)))
}
