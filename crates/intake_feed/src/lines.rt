// The lines of a piece, one after another, with the state's numbers in local values.
ghost use Rattle.std.specs.Prelude.{◌≡◌, ◌+◌, ◌≤◌, ◌<◌, length};
ghost use Rattle.refusals.specs.Numbers.{number};
ghost use Rattle.intake_bytes.specs.Lent.{max_count};
ghost use Rattle.intake_feed.specs.Piece.{stopped_at, closed_at, with_line, Going, LineClosed, LineEnded, PieceRead};

use intake_bytes::Unfinished;
use intake_close::{closing, owners};
use intake_line::Reader;
use intake_state::Kept;
use refusals::Refusal;

// The state after a line that stops the reading.
fn stopped(k: Kept, q: Refusal) -> Kept
    requires { k.reader.count < max_count }
    ensures { result ≡ stopped_at k (number q) }
{
    let count = k.reader.count + 1;
    let line = intake_bytes::new_line();
    Kept {
        answer: q.number() as usize,
        named: count,
        reader: Reader {
            count,
            line,
            ..k.reader
        },
        ..k
    }
}

// The state after a line that closes an entry.
fn closed(k: Kept, taken: usize) -> Kept
    requires { k.reader.count < max_count }
    ensures { result ≡ closed_at k taken }
{
    Kept {
        answer: 0,
        named: 0,
        taken,
        reader: Reader {
            from: 0,
            marks: intake_line::no_marks(),
            count: k.reader.count + 1,
            line: intake_bytes::new_line(),
        },
    }
}

// The same state within a line.
fn with_line(k: Kept, line: Unfinished) -> Kept
    ensures { result ≡ with_line k line }
{
    Kept {
        reader: Reader { line, ..k.reader },
        ..k
    }
}

// The line that closes an entry.
// State, file and tables stay arguments of their own: a struct that holds a table as &mut needs a clause on it in every function that passes it on.
fn close_line(state: &[u8], k: Kept, file: &[u8], parents: &mut [u8], objects: &mut [u8]) -> Kept
    requires { Going state.now file.now k }
    ensures { LineClosed state.now file.now k parents.old objects.old parents.new objects.new result }
{
    match closing::close(state, k.reader.marks, file, k.taken, parents, objects) {
        Ok(()) => closed(k, owners::next_line(file, k.taken)),
        Err(q) => stopped(k, q),
    }
}

// The byte that ends a line.
fn end_line(state: &[u8], k: Kept, file: &[u8], parents: &mut [u8], objects: &mut [u8]) -> Kept
    requires { Going state.now file.now k }
    ensures { LineEnded state.now file.now k parents.old objects.old parents.new objects.new result }
{
    match intake_line::line_end(state, k.reader) {
        Ok(Some(reader)) => Kept {
            answer: 0,
            named: 0,
            reader,
            ..k
        },
        Ok(None) => close_line(state, k, file, parents, objects),
        Err(q) => stopped(k, q),
    }
}

// The bytes of a piece.
pub fn read_piece(
    state: &mut [u8],
    first: Kept,
    piece: &[u8],
    file: &[u8],
    parents: &mut [u8],
    objects: &mut [u8],
) -> Kept
    requires { Going state.old file.now first × (first.reader.count + length piece.now < max_count) × (first.reader.line.size + length piece.now + length piece.now < max_count) }
    ensures { PieceRead state.old first piece.now file.now parents.old objects.old state.new parents.new objects.new result }
{
    let mut k = first;
    let mut at = 0;
    // A loop: where the next line begins is told by the line that was read.
    while at < piece.len() {
        let fed = intake_bytes::feed_line(state, k.reader.marks, k.reader.line, piece, at);
        let end = fed.at;
        k = with_line(k, fed.line);
        if piece.len() <= end {
            return k;
        }
        k = end_line(state, k, file, parents, objects);
        if k.answer != 0 {
            return k;
        }
        at = end + 1;
    }
    k
}
