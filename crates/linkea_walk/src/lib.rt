// The linkEA reader that keeps the lent bytes and a place in them, and walks record by record. Its methods leave the work to functions on
// a slice and a number.
#![tactic(auto)]

ghost use Rattle.std.specs.Prelude.{◌≡◌};
ghost use Rattle.linkea.specs.Answers.{step_at};
ghost use Rattle.linkea.specs.Walk.{opening_of, onward, place_after, name_given};

use linkea::{Found, LINK_HEADER};
use refusals::Refusal;

// The lent bytes, and the place of the next record.
#[derive(Clone, Copy)]
pub struct LinkReader<'a> {
    pub bytes: &'a [u8],
    pub at: usize,
}

// Where a walk begins: at the first record, or in the header, where none is, if the linkEA is refused.
pub fn opening(l: &[u8]) -> usize
    ensures { result ≡ opening_of l.now }
{
    if linkea::refused(l) {
        return 0;
    }
    LINK_HEADER
}

// The place behind the record at a place, or the same where there is none.
pub fn next_place(l: &[u8], p: usize) -> usize
    ensures { result ≡ onward p (step_at l.now p) }
{
    match linkea::step_at(l, p) {
        Ok(Some(x)) => x.next,
        Ok(None) => p,
        Err(_) => p,
    }
}

// The name of the record at a place, a part of the lent bytes; where there is no record, none of them.
pub fn name_at<'a>(l: &'a [u8], p: usize) -> &'a [u8]
    ensures { result.now ≡ name_given l.now (step_at l.now p) }
{
    match linkea::step_at(l, p) {
        Ok(Some(x)) => &l[x.start..x.start + x.size],
        Ok(None) => &l[0..0],
        Err(_) => &l[0..0],
    }
}

// No iterator: of a linkEA that is refused the reader answers 31 and stays, so a loop over it would not end.
impl<'a> LinkReader<'a> {
    // Opens a linkEA.
    pub fn open(bytes: &'a [u8]) -> LinkReader<'a>
        ensures { (result.bytes ≡ bytes.entry) × (result.at ≡ opening_of bytes.now) }
    {
        let at = opening(bytes);
        LinkReader { bytes, at }
    }

    // What stands at the reader's place.
    pub fn next(self) -> Result<Option<Found>, Refusal>
        ensures { result ≡ step_at self.entry.bytes.now self.entry.at }
    {
        linkea::step_at(self.bytes, self.at)
    }

    // The name there, a part of the lent bytes.
    pub fn name(self) -> &'a [u8]
        ensures { result.now ≡ name_given self.entry.bytes.now (step_at self.entry.bytes.now self.entry.at) }
    {
        name_at(self.bytes, self.at)
    }

    // The reader behind the record there.
    pub fn rest(self) -> LinkReader<'a>
        ensures { (result.bytes ≡ self.entry.bytes) × (result.at ≡ onward self.entry.at (step_at self.entry.bytes.now self.entry.at)) }
    {
        let at = next_place(self.bytes, self.at);
        LinkReader { at, ..self }
    }
}

// The name of the first record.
pub fn first_name<'a>(bytes: &'a [u8]) -> &'a [u8]
    ensures { result.now ≡ name_given bytes.now (step_at bytes.now (opening_of bytes.now)) }
{
    LinkReader::open(bytes).name()
}

// What stands behind the first record: another, where the file has another name.
pub fn second(bytes: &[u8]) -> Result<Option<Found>, Refusal>
    ensures { result ≡ step_at bytes.now (place_after 1 bytes.now (opening_of bytes.now)) }
{
    LinkReader::open(bytes).rest().next()
}
