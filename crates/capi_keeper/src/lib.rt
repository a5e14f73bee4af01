// The keeper of an object, as numbers.
#![tactic(auto)]

ghost use Rattle.std.specs.Prelude.{◌≡◌, ◌≤◌, length};
ghost use Rattle.std.proofs.lemmas.List.Edits.{sets};
ghost use Rattle.wire.specs.Numbers.{max_word};
ghost use Rattle.refusals.specs.Numbers.{answer};
ghost use Rattle.tables.specs.Bytes.{parse};
ghost use Rattle.tables.specs.Check.{Sound};
ghost use Rattle.rules.specs.Keeper.{keeper};
ghost use Rattle.rules.specs.Compared.{compared};
ghost use Rattle.capi_out.specs.Out.{out_answer, out_numbers};
ghost use Rattle.capi_keeper.specs.Keepers.{asked, good_asked, keeper_number, place_numbers, keeper_numbers};

use fid::{Fid, OstFid};
use refusals::Refusal;
use rules::Search;
use wire::MAX_WORD;

// The numbers that a keeper is told by.
const KEEPER_SIZE: usize = 4;

// The FID asked for, whose id has 32 bits.
fn asked_fid(sequence: u64, id: u64) -> OstFid
    requires { id ≤ max_word }
    ensures { result ≡ asked sequence id }
{
    OstFid(Fid {
        seq: sequence,
        oid: id as u32,
        ver: 0,
    })
}

// Whether it is good, and its id has 32 bits.
fn good_asked(sequence: u64, id: u64) -> bool
    ensures { result ≡ good_asked sequence id }
{
    id <= MAX_WORD && asked_fid(sequence, id).0.is_good()
}

// The check of tables and FID: 0, 11 or 13 to 15. A bad FID asked for is 14, as one in the tables is.
fn check_asked(parents: &[u8], objects: &[u8], sequence: u64, id: u64) -> Result<(), Refusal>
    ensures { answer result ≡ keeper_number parents.now objects.now sequence id }
{
    let tables = checks::check_tables(parents, objects);
    if good_asked(sequence, id) {
        return tables;
    }
    let Err(refusal) = tables else {
        return Err(Refusal::BadFid);
    };
    match refusal {
        Refusal::BadTable => Err(Refusal::BadTable),
        Refusal::BadLayout => Err(Refusal::BadLayout),
        _ => Err(Refusal::BadFid),
    }
}

// The search for the keeper of an object, present or not.
fn search_of(parents: &[u8], objects: &[u8], f: OstFid) -> Search
    requires { Sound parents.now objects.now }
    ensures place { result.place ≡ keeper (parse parents.now objects.now) f }
    ensures compared { result.compared ≡ compared (parse parents.now objects.now) f }
{
    let found = search::objects::lookup(objects, f);
    search::keeper::search(parents, f, search::keeper::claim_in(found))
}

// Stores the four numbers of a search.
fn put_search(out: &mut [u64], found: Search)
    requires { 4 ≤ length out.old }
    ensures { out.new ≡ sets out.old 0 (place_numbers found.place found.compared) }
{
    let count = found.compared as u64;
    let place = found.place;
    match place {
        None => capi_out::put_four(out, 0, 0, 0, 0, count),
        Some((row, slot)) => capi_out::put_four(out, 0, 1, row as u64, slot as u64, count),
    }
}

// The keeper of an object: 4 numbers into out.
pub fn keeper_of(
    parents: &[u8],
    objects: &[u8],
    sequence: u64,
    id: u64,
    out: &mut [u64],
) -> Result<(), Refusal>
    ensures answer { answer result ≡ out_answer (keeper_number parents.now objects.now sequence id) (keeper_numbers parents.now objects.now sequence id) out.old }
    ensures out { out.new ≡ out_numbers (keeper_number parents.now objects.now sequence id) (keeper_numbers parents.now objects.now sequence id) out.old }
{
    check_asked(parents, objects, sequence, id)?;
    if out.len() < KEEPER_SIZE {
        return Err(Refusal::TooShort);
    }
    let found = search_of(parents, objects, asked_fid(sequence, id));
    put_search(out, found);
    Ok(())
}
