// 11, 16 and 31: whole rows, children that are there, good names and linkEAs.
ghost use Rattle.std.specs.Prelude.{◌≡◌, length};
ghost use Rattle.refusals.specs.Numbers.{answer};
ghost use Rattle.tables.specs.Check.{all};
ghost use Rattle.names.specs.Rows.{entry_size, child_size, entry_rows, child_rows};
ghost use Rattle.names.specs.Check.{names_whole, child_there, children_there, good_name, good_link_ea, names_good, names_number};

use checks::whole;
use names::rows;
use names::rows::{CHILD_SIZE, ENTRY_SIZE, LINK_ROOM, NAME_ROOM};
use refusals::Refusal;

// The most rows of each table.
pub const MAX_ROWS: usize = 65536;

// Whether both tables are whole rows, and not too many.
pub fn names_whole(entries: &[u8], children: &[u8]) -> bool
    ensures { result ≡ names_whole entries.now children.now }
{
    whole::whole_rows(entries, ENTRY_SIZE, MAX_ROWS)
        && whole::whole_rows(children, CHILD_SIZE, MAX_ROWS)
}

// Whether the child of an entry is one of n rows.
fn child_there(row: &[u8], n: usize) -> bool
    requires { length row.now ≡ entry_size }
    ensures { result ≡ child_there n row.now }
{
    (rows::child_of(row) as usize) < n
}

// Whether the child of every entry is there.
pub fn children_there(entries: &[u8], children: &[u8]) -> bool
    ensures { result ≡ children_there entries.now children.now }
{
    let n = children.len() / CHILD_SIZE;
    entries
        .chunks_exact(ENTRY_SIZE)
        .all(|row| child_there(row, n))
}

// Whether the name of an entry is good.
fn good_name(row: &[u8]) -> bool
    requires { length row.now ≡ entry_size }
    ensures { result ≡ good_name row.now }
{
    let n = rows::name_len(row) as usize;
    1 <= n && n <= NAME_ROOM && !linkea::bad_bytes(rows::name_of(row))
}

// Whether every name is.
pub fn good_names(entries: &[u8]) -> bool
    ensures { result ≡ all good_name (entry_rows entries.now) }
{
    entries.chunks_exact(ENTRY_SIZE).all(|row| good_name(row))
}

// Whether a child has no linkEA, or a good one.
fn good_link(row: &[u8]) -> bool
    requires { length row.now ≡ child_size }
    ensures { result ≡ good_link_ea row.now }
{
    let n = rows::link_len(row) as usize;
    n == 0 || n <= LINK_ROOM && !linkea::refused(rows::link_of(row))
}

// Whether every linkEA is good.
pub fn good_links(children: &[u8]) -> bool
    ensures { result ≡ all good_link_ea (child_rows children.now) }
{
    children.chunks_exact(CHILD_SIZE).all(|row| good_link(row))
}

// Whether all names and linkEAs are good.
pub fn names_good(entries: &[u8], children: &[u8]) -> bool
    ensures { result ≡ names_good entries.now children.now }
{
    good_names(entries) && good_links(children)
}

// The first test that the tables fail.
pub fn check(entries: &[u8], children: &[u8]) -> Result<(), Refusal>
    ensures { answer result ≡ names_number entries.now children.now }
{
    if !names_whole(entries, children) {
        return Err(Refusal::BadTable);
    }
    if !children_there(entries, children) {
        return Err(Refusal::NoPlace);
    }
    if !names_good(entries, children) {
        return Err(Refusal::BadLink);
    }
    Ok(())
}
