// Numbers in a lent slice, little-endian and big-endian.
#![tactic(auto)]

ghost use Rattle.std.specs.Prelude.{◌≡◌, refl, ℕ, ◌+◌, ◌^◌, ◌<◌, ◌≤◌, List, length, drop};
ghost use Rattle.std.proofs.Common.{arith};
ghost use Rattle.std.proofs.lemmas.List.Edits.{sets};
ghost use Rattle.wire.specs.Numbers.{Order, little, big, le, bytes, number, number_bytes, place};
ghost use Rattle.wire.specs.OrderFacts.{little_numbers, little_stores};

// The greatest number of 32 bits.
pub const MAX_WORD: u64 = 0xffff_ffff;

// A number of two, four or eight bytes.
pub trait Word: Copy {
    // How many bytes.
    const SIZE: usize;

    ghost SIZE: { ℕ };

    ghost value: { Self → ℕ };

    fn from_number(n: u64) -> Self
        requires { n < 256 ^ SIZE }
        ensures { value result ≡ n };

    fn to_number(self) -> u64
        ensures { result ≡ value self };

    ghost small: { SIZE ≤ 8 };
}

impl Word for u16 {
    const SIZE: usize = 2;

    ghost SIZE = { 2 };

    ghost value = { λ n. n };

    ghost small = { Prim.omega arith };

    fn from_number(n: u64) -> u16 {
        n as u16
    }

    fn to_number(self) -> u64 {
        self as u64
    }
}

impl Word for u32 {
    const SIZE: usize = 4;

    ghost SIZE = { 4 };

    ghost value = { λ n. n };

    ghost small = { Prim.omega arith };

    fn from_number(n: u64) -> u32 {
        n as u32
    }

    fn to_number(self) -> u64 {
        self as u64
    }
}

impl Word for u64 {
    const SIZE: usize = 8;

    ghost SIZE = { 8 };

    ghost value = { λ n. n };

    ghost small = { Prim.omega arith };

    fn from_number(n: u64) -> u64 {
        n
    }

    fn to_number(self) -> u64 {
        self
    }
}

// The order in which the bytes of a number stand.
pub trait ByteOrder {
    ghost order: { Order };

    // The words of specs for this order: the number of the first n bytes, and the n bytes of a number.
    ghost number_of: { ℕ → List ℕ → ℕ };

    ghost bytes_of: { ℕ → ℕ → List ℕ };

    // Where byte i of n stands, counted from the lowest.
    fn place(i: usize, n: usize) -> usize
        requires { i < n }
        ensures { result ≡ place order n i };

    ghost numbers: { (n : ℕ) (l : List ℕ) → number order n l ≡ number_of n l };

    ghost stores: { (n v : ℕ) → number_bytes order n v ≡ bytes_of n v };
}

// Low byte first.
pub enum Little {}

impl ByteOrder for Little {
    ghost order = { little };

    ghost number_of = { le };

    ghost bytes_of = { bytes };

    ghost numbers = { little_numbers };

    ghost stores = { little_stores };

    #[tactic(auto, unfolding(crate::specs::Numbers::place))]
    fn place(i: usize, n: usize) -> usize {
        i
    }
}

// High byte first.
pub enum Big {}

impl ByteOrder for Big {
    ghost order = { big };

    ghost number_of = { number big };

    ghost bytes_of = { number_bytes big };

    ghost numbers = { λ n l. refl };

    ghost stores = { λ n v. refl };

    #[tactic(auto, unfolding(crate::specs::Numbers::place))]
    fn place(i: usize, n: usize) -> usize {
        n - 1 - i
    }
}

// The number at a place of the slice.
pub fn get<W: Word, O: ByteOrder>(s: &[u8], at: usize) -> W
    requires { at + W.SIZE ≤ length s.now }
    ensures { W.value result ≡ O.number_of W.SIZE (drop at s.now) }
{
    // A loop over places: where a byte stands is the order's to say.
    let mut n: u64 = 0;
    for i in (0..W::SIZE).rev() {
        n = 256 * n + s[at + O::place(i, W::SIZE)] as u64;
    }
    W::from_number(n)
}

// Writes a number over the bytes at a place.
pub fn put<W: Word, O: ByteOrder>(s: &mut [u8], at: usize, v: W)
    requires { at + W.SIZE ≤ length s.old }
    ensures { s.new ≡ sets s.old at (O.bytes_of W.SIZE (W.value v)) }
{
    // A loop over places, as in `get`.
    let mut n = v.to_number();
    for i in 0..W::SIZE {
        s[at + O::place(i, W::SIZE)] = (n % 256) as u8;
        n = n / 256;
    }
}

// Copies bytes to a place of the slice.
pub fn put_bytes(s: &mut [u8], at: usize, v: &[u8])
    requires { at + length v.now ≤ length s.old }
    ensures { s.new ≡ sets s.old at v.now }
{
    // A loop: copy_from_slice of a length that the compiler doesn't know is a call of memmove, which the archive for C has no other need of.
    for (i, b) in v.iter().enumerate() {
        s[at + i] = *b;
    }
}
