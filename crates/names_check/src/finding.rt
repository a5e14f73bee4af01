// The two findings of each entry, of the tables as lent.
ghost use Rattle.std.specs.Prelude.{◌≡◌, true, [], ◌∷◌, ◌+◌, ◌*◌, ◌/◌, ◌≤◌, ◌<◌, length};
ghost use Rattle.std.proofs.lemmas.List.Edits.{sets};
ghost use Rattle.names.specs.Rows.{entry_size, child_size, decode_entry, decode_child, parse_entries, parse_children};
ghost use Rattle.names.specs.Check.{good_name, good_link_ea, SoundNames};
ghost use Rattle.names.specs.Findings.{fids_finding, fid_number, link_finding, link_number, has_link, link_for, findings};
ghost use Rattle.names_check.specs.Asked.{entry_at};

use super::links;
use fid::MdtFid;
use names::rows::{CHILD_SIZE, ENTRY_SIZE};
use names::{FidFinding, LinkFinding, rows};

// Of the FID-in-dirent and the self FID.
pub fn fids_finding(f: MdtFid, own: MdtFid) -> FidFinding
    ensures { result ≡ fids_finding f own }
{
    match (rows::is_none(f), rows::is_none(own)) {
        (true, true) => FidFinding::NeitherFid,
        (false, true) => FidFinding::NoSelfFid,
        (true, false) => FidFinding::NoDirentFid,
        (false, false) => if f == own {
            FidFinding::FidAgrees
        } else {
            FidFinding::FidDiffers
        }
    }
}

// Whether a child has the record of an entry.
pub fn has_record(row: &[u8], child: &[u8]) -> bool
    requires { (length row.now ≡ entry_size) × (length child.now ≡ child_size) × (good_name row.now ≡ true) × (good_link_ea child.now ≡ true) }
    ensures { result ≡ has_link (link_for (decode_entry row.now)) (decode_child child.now) }
{
    rows::link_len(child) != 0
        && links::has_link(
            rows::link_of(child),
            rows::parent_of(row),
            rows::name_of(row),
        )
}

pub fn link_finding(row: &[u8], child: &[u8]) -> LinkFinding
    requires { (length row.now ≡ entry_size) × (length child.now ≡ child_size) × (good_name row.now ≡ true) × (good_link_ea child.now ≡ true) }
    ensures { result ≡ link_finding (decode_entry row.now) (decode_child child.now) }
{
    if has_record(row, child) {
        return LinkFinding::RecordThere;
    }
    LinkFinding::NoRecord
}

// The findings of entry i of tables that pass the check, in the two places of its own.
fn find_at(entries: &[u8], children: &[u8], i: usize, out: &mut [u64])
    requires { SoundNames entries.now children.now × (i < length entries.now / entry_size) × (2 * i + 2 ≤ length out.old) }
    ensures { out.new ≡ sets out.old (2 * i) (findings (parse_children children.now) (entry_at entries.now i ∷ [])) }
{
    let row = tables::rows::row_at(entries, ENTRY_SIZE, i);
    let child = tables::rows::row_at(children, CHILD_SIZE, rows::child_of(row) as usize);
    let fid = fids_finding(rows::fid_of(row), rows::self_of(child));
    let link = link_finding(row, child);
    out[2 * i] = fid.number();
    out[2 * i + 1] = link.number();
}

// The findings of every entry of tables that pass the check.
// A loop: turn i writes two numbers, and of parts that chunks_exact_mut lends a proof knows what they held, and not what the slice ends as.
pub fn find(entries: &[u8], children: &[u8], out: &mut [u64])
    requires { SoundNames entries.now children.now × (2 * (length entries.now / entry_size) ≤ length out.old) }
    ensures { out.new ≡ sets out.old 0 (findings (parse_children children.now) (parse_entries entries.now)) }
{
    let count = entries.len() / ENTRY_SIZE;
    for i in 0..count {
        find_at(entries, children, i, out);
    }
}
