// The keeper of an object.
ghost use Rattle.std.specs.Prelude.{◌≡◌};
ghost use Rattle.capi_out.specs.Out.{out_answer, out_numbers};
ghost use Rattle.capi_keeper.specs.Keepers.{keeper_number, keeper_numbers};

// The keeper of an object, and how many slots were compared: 4 numbers into out.
pub fn lfsck_keeper(parents: &[u8], objects: &[u8], sequence: u64, id: u64, out: &mut [u64]) -> u32
    ensures answer { result ≡ out_answer (keeper_number parents.now objects.now sequence id) (keeper_numbers parents.now objects.now sequence id) out.old }
    ensures out { out.new ≡ out_numbers (keeper_number parents.now objects.now sequence id) (keeper_numbers parents.now objects.now sequence id) out.old }
{
    refusals::answer(capi_keeper::keeper_of(parents, objects, sequence, id, out))
}
