// The second file: a line `uid gid index` for each entry.
ghost use Rattle.std.specs.Prelude.{◌≡◌, ◌≤◌, length};
ghost use Rattle.wire.specs.Numbers.{max_word};
ghost use Rattle.intake_close.specs.OwnerLine.{told_at, NumberTold, SpaceTold, OwnerTold, LineStops, LineAfter};

use intake_bytes::NEWLINE;
use wire::MAX_WORD;

// The number whose digits stand between two places, and where it ends.
fn told(n: u64, from: usize, at: usize) -> Option<(u32, usize)>
    requires { (n ≤ max_word) × (from ≤ at) }
    ensures { result ≡ told_at n from at }
{
    if at == from {
        return None;
    }
    Some((n as u32, at))
}

// The number at a place, and where it ends: digits up to the first other byte.
pub fn number(line: &[u8], from: usize) -> Option<(u32, usize)>
    requires { from ≤ length line.now }
    ensures { NumberTold line.now from result }
{
    let mut n: u64 = 0;
    // A loop: the place where the digits end is part of the answer.
    for at in from..line.len() {
        let b = line[at];
        if !b.is_ascii_digit() {
            return told(n, from, at);
        }
        n = 10 * n + (b - 48) as u64;
        if MAX_WORD < n {
            return None;
        }
    }
    told(n, from, line.len())
}

// The number after one space.
fn spaced(line: &[u8], at: usize) -> Option<(u32, usize)>
    requires { at ≤ length line.now }
    ensures { SpaceTold line.now at result }
{
    if line.len() <= at || line[at] != 32 {
        return None;
    }
    number(line, at + 1)
}

// The uid, gid and index that a line gives.
pub fn owner_line(line: &[u8]) -> Option<(u32, u32, u32)>
    ensures { OwnerTold line.now result }
{
    let (uid, at) = number(line, 0)?;
    let (gid, at) = spaced(line, at)?;
    let (index, at) = spaced(line, at)?;
    if at < line.len() {
        return None;
    }
    Some((uid, gid, index))
}

// Where the line ends that begins at a place.
pub fn line_stop(s: &[u8], from: usize) -> usize
    requires { from ≤ length s.now }
    ensures { LineStops s.now from result }
{
    match s[from..].iter().position(|b| *b == NEWLINE) {
        Some(n) => from + n,
        None => s.len(),
    }
}

// Where the line after it begins, or the file's end.
pub fn next_line(s: &[u8], from: usize) -> usize
    requires { from ≤ length s.now }
    ensures { LineAfter s.now from result }
{
    let end = line_stop(s, from);
    if end < s.len() {
        return end + 1;
    }
    end
}
