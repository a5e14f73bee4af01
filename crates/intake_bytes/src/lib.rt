// An unfinished line of a dump, byte by byte: what is known of it stands in numbers and in lent bytes.
#![tactic(auto)]

ghost use Rattle.std.specs.Prelude.{◌≡◌, cond, ◌≤◌, ◌<◌, eqb, length};
ghost use Rattle.intake.specs.Says.{starts, named, head_size, kind_of};
ghost use Rattle.intake_bytes.specs.declared.Half.TheVariants.{Even};
ghost use Rattle.intake_bytes.specs.Lent.{layout_at, base_of, want_of, new_line, digit_of, Room, DigitStep, ByteStep, Held, LineStep, Feeds, PastHead, DigitsFed, LineFed, ValueFed};

use intake::Kind;

// Where things stand in the lent bytes: the head of the unfinished line, and the attributes of the open entry.
pub const HEAD_AT: usize = 128;

pub const FID_AT: usize = HEAD_AT + 16;

pub const LMA_AT: usize = FID_AT + fid::FID_SIZE;

pub const LAYOUT_AT: usize = LMA_AT + 48;

// Where a name stands in its line, `=0x` after it, and the digits.
const NAME_AT: usize = 8;

pub const MARK_AT: usize = NAME_AT + 3;

pub const HEAD_SIZE: usize = MARK_AT + 3;

const HEAD_LAST: usize = HEAD_SIZE - 1;

// The end of the head in the lent bytes.
pub const HEAD_END: usize = HEAD_AT + HEAD_SIZE;

// Where the self FID stands in `trusted.lma`, and the lengths of values.
pub const LMA_SELF_AT: usize = 8;

pub const LMA_SIZE: usize = LMA_SELF_AT + fid::FID_SIZE;

pub const OLDER_SIZE: usize = 32;

// The byte that ends a line.
pub const NEWLINE: u8 = 10;

// The digits of the byte that comes next: none yet, its first one, or digits that aren't hex.
#[derive(Clone, Copy, Debug, PartialEq, Eq)]
pub enum Half {
    Even,
    Odd(usize),
    Broken,
}

// Of each attribute of the open entry its length and 1, or 0 where it has none.
// Numbers as the state holds them: `state_holds` and `reload` read back each mark of a state that passes, the largest too, which no length has.
#[derive(Clone, Copy)]
pub struct Marks {
    pub lov: usize,
    pub fid: usize,
    pub lma: usize,
}

// The unfinished line: the bytes of its head so far, where its value goes and how much of it is kept, half a byte and the value's length so far.
#[derive(Clone, Copy)]
pub struct Unfinished {
    pub seen: usize,
    pub base: usize,
    pub most: usize,
    pub half: Half,
    pub size: usize,
}

// Where in a piece the reading stands, and the line there.
#[derive(Clone, Copy)]
pub struct Reached {
    pub at: usize,
    pub line: Unfinished,
}

// A hex digit of either case.
pub fn digit(b: u8) -> Option<u8>
    ensures { result ≡ digit_of b }
{
    match b {
        b'0'..=b'9' => Some(b - b'0'),
        b'a'..=b'f' => Some(b - b'a' + 10),
        b'A'..=b'F' => Some(b - b'A' + 10),
        _ => None,
    }
}

// Whether the slice begins with the word.
pub fn starts(w: &[u8], s: &[u8]) -> bool
    ensures { result ≡ starts w.now s.now }
{
    s.starts_with(w)
}

// One more whole byte of a value: past what is wanted it is counted alone.
fn put_byte(buf: &mut [u8], x: Unfinished, v: u8) -> Unfinished
    requires { Room (length buf.old) x }
    ensures { ByteStep buf.old x v buf.new result }
{
    if x.size < x.most {
        buf[x.base + x.size] = v;
    }
    Unfinished {
        half: Half::Even,
        size: x.size + 1,
        ..x
    }
}

// One more digit of a value.
pub fn digit_byte(buf: &mut [u8], x: Unfinished, b: u8) -> Unfinished
    requires { Room (length buf.old) x }
    ensures { DigitStep buf.old x b buf.new result }
{
    // Asked first: most digits of a skipped attribute come after its value is broken.
    if let Half::Broken = x.half {
        return x;
    }
    let Some(d) = digit(b) else {
        return Unfinished {
            half: Half::Broken,
            ..x
        };
    };
    match x.half {
        Half::Broken => x,
        Half::Even => Unfinished {
            half: Half::Odd(d as usize),
            ..x
        },
        Half::Odd(h) => put_byte(buf, x, (16 * h) as u8 + d),
    }
}

// Whether the name that the slice begins with, to `=` or the end, is the word.
pub fn named(w: &[u8], s: &[u8]) -> bool
    ensures { result ≡ named w.now s.now }
{
    if !starts(w, s) {
        return false;
    }
    let n = w.len();
    s.len() <= n || s[n] == b'='
}

// Which of the three a line names.
pub fn kind_of(s: &[u8]) -> Kind
    ensures { result ≡ kind_of s.now }
{
    if !starts(b"trusted.", s) {
        return Kind::Other;
    }
    if named(b"lov", &s[NAME_AT..]) {
        return Kind::Lov;
    }
    if named(b"fid", &s[NAME_AT..]) {
        return Kind::Fid;
    }
    if named(b"lma", &s[NAME_AT..]) {
        return Kind::Lma;
    }
    Kind::Other
}

// Where a value goes.
pub fn base_of(k: Kind) -> usize
    ensures { result ≡ base_of k }
{
    match k {
        Kind::Lov => LAYOUT_AT,
        Kind::Fid => FID_AT,
        Kind::Lma => LMA_AT,
        Kind::Other => FID_AT,
    }
}

fn unless(mark: usize, n: usize) -> usize
    ensures { result ≡ cond (eqb mark 0) n 0 }
{
    if mark == 0 {
        return n;
    }
    0
}

// How much of a value is kept, in so many lent bytes: nothing of an attribute that the entry has.
pub fn most_of(k: Kind, m: Marks, size: usize) -> usize
    requires { layout_at ≤ size }
    ensures { result ≡ want_of m size k }
{
    match k {
        Kind::Lov => unless(m.lov, size - LAYOUT_AT),
        Kind::Fid => unless(m.fid, fid::FID_SIZE),
        Kind::Lma => unless(m.lma, LMA_SIZE),
        Kind::Other => 0,
    }
}

// One more byte of the line's head; the last one tells where the value goes.
pub fn head_byte(buf: &mut [u8], m: Marks, x: Unfinished, b: u8) -> Unfinished
    requires { (layout_at ≤ length buf.old) × Held (want_of m (length buf.old)) buf.old x × (x.seen < head_size) }
    ensures { LineStep (want_of m (length buf.old)) buf.old x b buf.new result }
{
    buf[HEAD_AT + x.seen] = b;
    if x.seen < HEAD_LAST {
        return Unfinished {
            seen: x.seen + 1,
            half: Half::Even,
            size: 0,
            ..x
        };
    }
    let k = kind_of(&buf[HEAD_AT..HEAD_END]);
    let base = base_of(k);
    let most = most_of(k, m, buf.len());
    Unfinished {
        seen: HEAD_SIZE,
        base,
        most,
        half: Half::Even,
        size: 0,
    }
}

// Whole bytes of a value: two digits at a time, as long as they are digits.
fn feed_pairs(buf: &mut [u8], line: Unfinished, piece: &[u8], from: usize) -> Reached
    requires { PastHead (length buf.old) line (length piece.now) from × (line.half ≡ Even) }
    ensures { DigitsFed buf.old line piece.now from buf.new result.line result.at }
{
    // Written out, so that no half byte is carried through the loop.
    let mut x = Unfinished {
        half: Half::Even,
        ..line
    };
    let mut at = from;
    // A loop: the place where the digits end is part of the answer.
    while 2 <= piece.len() - at {
        let Some(high) = digit(piece[at]) else {
            return Reached { at, line: x };
        };
        let Some(low) = digit(piece[at + 1]) else {
            return Reached { at, line: x };
        };
        x = put_byte(buf, x, 16 * high + low);
        at += 2;
    }
    Reached { at, line: x }
}

// The digits of a value one by one, up to the line's end.
fn feed_digits(buf: &mut [u8], line: Unfinished, piece: &[u8], from: usize) -> Reached
    requires { PastHead (length buf.old) line (length piece.now) from }
    ensures { ValueFed buf.old line piece.now from buf.new result }
{
    let mut x = line;
    // A loop: the place where the line ends is part of the answer.
    for at in from..piece.len() {
        let b = piece[at];
        if b == NEWLINE {
            return Reached { at, line: x };
        }
        x = digit_byte(buf, x, b);
    }
    Reached {
        at: piece.len(),
        line: x,
    }
}

// The second digit of a byte whose first is known, if it is the next of a piece: after it come whole bytes.
fn feed_second(buf: &mut [u8], line: Unfinished, piece: &[u8], from: usize) -> Reached
    requires { PastHead (length buf.old) line (length piece.now) from }
    ensures { DigitsFed buf.old line piece.now from buf.new result.line result.at }
{
    if line.half == Half::Even || piece.len() <= from || piece[from] == NEWLINE {
        return Reached { at: from, line };
    }
    let x = digit_byte(buf, line, piece[from]);
    Reached {
        at: from + 1,
        line: x,
    }
}

// The digits of a value up to the line's end: whole bytes as long as there are any, and then one by one.
fn feed_whole(buf: &mut [u8], line: Unfinished, piece: &[u8], from: usize) -> Reached
    requires { PastHead (length buf.old) line (length piece.now) from }
    ensures { ValueFed buf.old line piece.now from buf.new result }
{
    let Half::Even = line.half else {
        return feed_digits(buf, line, piece, from);
    };
    let pairs = feed_pairs(buf, line, piece, from);
    feed_digits(buf, pairs.line, piece, pairs.at)
}

// The bytes of a piece after a line's head, up to the line's end.
fn feed_value(buf: &mut [u8], line: Unfinished, piece: &[u8], from: usize) -> Reached
    requires { PastHead (length buf.old) line (length piece.now) from }
    ensures { ValueFed buf.old line piece.now from buf.new result }
{
    let second = feed_second(buf, line, piece, from);
    feed_whole(buf, second.line, piece, second.at)
}

// The bytes of a piece up to the line's end.
pub fn feed_line(buf: &mut [u8], m: Marks, line: Unfinished, piece: &[u8], from: usize) -> Reached
    requires { Feeds buf.old m line piece.now from }
    ensures { LineFed (want_of m (length buf.old)) buf.old line piece.now from buf.new result }
{
    let mut x = line;
    // A loop: the value's bytes are read from the place where the head ends.
    for at in from..piece.len() {
        if HEAD_SIZE <= x.seen {
            return feed_value(buf, x, piece, at);
        }
        let b = piece[at];
        if b == NEWLINE {
            return Reached { at, line: x };
        }
        x = head_byte(buf, m, x, b);
    }
    Reached {
        at: piece.len(),
        line: x,
    }
}

// A line of which nothing has been read.
pub fn new_line() -> Unfinished
    ensures { result ≡ new_line }
{
    Unfinished {
        seen: 0,
        base: FID_AT,
        most: 0,
        half: Half::Even,
        size: 0,
    }
}
