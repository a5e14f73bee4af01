// The mending under marks, and the pass: judging, then mending under its marks.
#![tactic(auto)]

ghost use Rattle.std.specs.Prelude.{◌≡◌};
ghost use Rattle.refusals.specs.Numbers.{answer};
ghost use Rattle.names_mend.specs.Mending.{answer_of};

pub mod calls;
pub mod ready;
pub mod sweeps;

use refusals::Refusal;

// What a mending did: self FIDs taken, FID-in-dirents written, records appended, records removed, the entry it stopped in front of or the
// number of entries, and whether it stopped.
#[derive(Clone, Copy, Debug, PartialEq, Eq)]
pub struct Mending {
    pub taken: usize,
    pub written: usize,
    pub appended: usize,
    pub removed: usize,
    pub reached: usize,
    pub full: bool,
}

impl Mending {
    // How it ended: refused where it stopped.
    fn done(self) -> Result<(), Refusal>
        ensures { answer result ≡ answer_of self.full }
    {
        if self.full {
            return Err(Refusal::LinkFull);
        }
        Ok(())
    }
}
