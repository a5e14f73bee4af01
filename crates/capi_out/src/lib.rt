// Numbers that are handed out.
#![tactic(auto)]

ghost use Rattle.std.specs.Prelude.{◌≡◌, ◌+◌, ◌≤◌, ◌<◌, [], ◌∷◌, length, set};
ghost use Rattle.std.proofs.lemmas.List.Edits.{sets};

// Stores a number.
pub fn put(out: &mut [u64], at: usize, a: u64)
    requires { at < length out.old }
    ensures { out.new ≡ set out.old at a }
{
    out[at] = a;
}

// Stores numbers, from a place on.
pub fn put_all(out: &mut [u64], at: usize, numbers: &[u64])
    requires { at + length numbers.now ≤ length out.old }
    ensures { out.new ≡ sets out.old at numbers.now }
{
    out[at..at + numbers.len()].copy_from_slice(numbers);
}

// Stores four numbers, from a place on.
pub fn put_four(out: &mut [u64], at: usize, a: u64, b: u64, c: u64, d: u64)
    requires { at + 4 ≤ length out.old }
    ensures { out.new ≡ sets out.old at (a ∷ b ∷ c ∷ d ∷ []) }
{
    put_all(out, at, &[a, b, c, d]);
}
