// 13: "layout not as above".
ghost use Rattle.std.specs.Prelude.{◌≡◌, length};
ghost use Rattle.tables.specs.Bytes.{parent_size};
ghost use Rattle.tables.specs.Check.{when_used, good_layout, good_layouts};

use tables::rows;
use tables::rows::{LAYOUT_ROOM, PARENT_SIZE};

// Whether a parent row's layout lies in its room and is accepted, where it is examined.
pub fn good_layout(row: &[u8]) -> bool
    requires { length row.now ≡ parent_size }
    ensures { result ≡ when_used good_layout row.now }
{
    if !rows::is_used(row) {
        return true;
    }
    rows::layout_len(row) as usize <= LAYOUT_ROOM && layout::accepted(rows::layout_of(row))
}

pub fn good_layouts(parents: &[u8]) -> bool
    ensures { result ≡ good_layouts parents.now }
{
    parents.chunks_exact(PARENT_SIZE).all(good_layout)
}
