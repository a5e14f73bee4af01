// The state of a reading in lent bytes, and its test.
#![tactic(auto)]

ghost use Rattle.std.specs.Prelude.{◌≡◌, ◌≤◌, eqb};
ghost use Rattle.refusals.specs.Numbers.{number, answer};
ghost use Rattle.intake.specs.Reading.{bad_dump, no_fit};

pub mod state;
pub mod tests;

use intake_line::Reader;
use refusals::Refusal;

// What the state holds in numbers: the answer that stopped the reading (0 while it goes on) and the line it names, how much of the owners file is
// taken, and the reader.
// The answer stays a number: `good_state` tests any that is lent, and `machine_of` says what each one stands for.
#[derive(Clone, Copy)]
pub struct Kept {
    pub answer: usize,
    pub named: usize,
    pub taken: usize,
    pub reader: Reader,
}

impl Kept {
    // Whether its answer is the number of this refusal.
    fn is(self, stop: Refusal) -> bool
        ensures { result ≡ eqb self.answer (number stop) }
    {
        self.answer == stop.number() as usize
    }

    // Its answer: the reading goes on, or why it stopped.
    pub fn told(self) -> Result<(), Refusal>
        requires most { self.answer ≤ no_fit }
        requires least { (self.answer ≡ 0 → ⊥) → bad_dump ≤ self.answer }
        ensures { answer result ≡ self.answer }
    {
        if self.answer == 0 {
            return Ok(());
        }
        if self.is(Refusal::BadDump) {
            return Err(Refusal::BadDump);
        }
        if self.is(Refusal::AttributeTwice) {
            return Err(Refusal::AttributeTwice);
        }
        if self.is(Refusal::NoSelf) {
            return Err(Refusal::NoSelf);
        }
        if self.is(Refusal::NoKind) {
            return Err(Refusal::NoKind);
        }
        Err(Refusal::NoFit)
    }
}
