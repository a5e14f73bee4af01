// What is asked of entries and children as lent: the check first, then the findings.
ghost use Rattle.std.specs.Prelude.{◌≡◌};
ghost use Rattle.refusals.specs.Numbers.{answer};
ghost use Rattle.names.specs.Calls.{find_number, find_out};

use super::{check, finding};
use names::rows::ENTRY_SIZE;
use refusals::Refusal;

// The findings of every entry, two numbers each: 11, 16, 31, then 17 for their places.
pub fn find(entries: &[u8], children: &[u8], out: &mut [u64]) -> Result<(), Refusal>
    ensures answer { answer result ≡ find_number entries.now children.now out.old }
    ensures numbers { out.new ≡ find_out entries.now children.now out.old }
{
    check::check(entries, children)?;
    let count = entries.len() / ENTRY_SIZE;
    if out.len() < 2 * count {
        return Err(Refusal::TooShort);
    }
    finding::find(entries, children, out);
    Ok(())
}
