// The class at a position, and the classes from one on.
ghost use Rattle.std.specs.Prelude.{◌≡◌};
ghost use Rattle.tables.specs.Positions.{place};
ghost use Rattle.classify.specs.Answer.{class_answer, class_number};
ghost use Rattle.capi_out.specs.Out.{out_answer, out_numbers};
ghost use Rattle.capi_class.specs.Classes.{told_numbers};
ghost use Rattle.listing.specs.Listing.{listing};

// The class at a position: 4 numbers into out.
pub fn lfsck_class(
    parents: &[u8],
    objects: &[u8],
    stage: u64,
    row: u64,
    part: u64,
    out: &mut [u64],
) -> u32
    ensures answer { result ≡ out_answer (class_number (class_answer parents.now objects.now (place stage row part))) (told_numbers (class_answer parents.now objects.now (place stage row part))) out.old }
    ensures out { out.new ≡ out_numbers (class_number (class_answer parents.now objects.now (place stage row part))) (told_numbers (class_answer parents.now objects.now (place stage row part))) out.old }
{
    refusals::answer(capi_class::class_at(parents, objects, stage, row, part, out))
}

// The classes from a position on, 4 numbers each into out: the position in and out, how many were told into done.
pub fn lfsck_classes(
    parents: &[u8],
    objects: &[u8],
    position: &mut [u64],
    out: &mut [u64],
    done: &mut [u64],
) -> u32
    ensures answer { result ≡ (listing parents.now objects.now position.old out.old done.old).answer }
    ensures position { position.new ≡ (listing parents.now objects.now position.old out.old done.old).position }
    ensures out { out.new ≡ (listing parents.now objects.now position.old out.old done.old).out }
    ensures done { done.new ≡ (listing parents.now objects.now position.old out.old done.old).done }
{
    refusals::answer(listing::classes(parents, objects, position, out, done))
}
