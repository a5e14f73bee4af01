// Dumps of attributes taken in.
ghost use Rattle.intake_feed.specs.Feed.{PieceFed};
ghost use Rattle.intake_feed.specs.End.{DumpEnded};

// Takes a piece of a dump in: fills rows of the tables; with 33 to 37 the line into out.
pub fn lfsck_intake_feed(
    state: &mut [u8],
    piece: &[u8],
    owners: &[u8],
    parents: &mut [u8],
    objects: &mut [u8],
    out: &mut [u64],
) -> u32
    ensures { PieceFed state.old piece.now owners.now parents.old objects.old out.old state.new parents.new objects.new out.new result }
{
    let done = intake_feed::feeding::feed(state, piece, owners, parents, objects, out);
    refusals::answer(done)
}

// The end of a dump: with 33 to 37 the line into out.
pub fn lfsck_intake_end(state: &[u8], out: &mut [u64]) -> u32
    ensures { DumpEnded state.now out.old out.new result }
{
    let done = intake_feed::feeding::end(state, out);
    refusals::answer(done)
}
