// The class of a parent's header.
ghost use Rattle.std.specs.Prelude.{◌≡◌, true, ◌&&◌, ◌/◌, ◌<◌, length, eqb};
ghost use Rattle.tables.specs.Bytes.{parent_size, parse_parents};
ghost use Rattle.tables.specs.Positions.{row_at};
ghost use Rattle.tables.specs.Check.{good_layouts};
ghost use Rattle.rules.specs.Rows.{holes_in};
ghost use Rattle.rules.specs.Classes.{header_class};

use fid::MdtFid;
use layout::Header;
use rules::HeaderClass;
use tables::rows;
use tables::rows::PARENT_SIZE;

// Whether a layout's own id and own sequence are those of its file.
fn own_right(h: Header, f: MdtFid) -> bool
    ensures { result ≡ (eqb h.oid f.0.oid && eqb h.seq f.0.seq) }
{
    h.oid == f.0.oid as u64 && h.seq == f.0.seq
}

// The class of the header of parent row r.
pub fn header_class(parents: &[u8], r: usize) -> HeaderClass
    requires { (good_layouts parents.now ≡ true) × (r < length parents.now / parent_size) }
    ensures { result ≡ header_class (row_at (parse_parents parents.now) r) }
{
    let row = rows::row_at(parents, PARENT_SIZE, r);
    if !rows::is_used(row) {
        return HeaderClass::UNUSED;
    }
    let header = layout::read_header(rows::layout_of(row));
    if own_right(header, rows::self_of(row)) {
        HeaderClass::CLEAN
    } else {
        HeaderClass::SELF
    }
}

// Whether the layout of parent row r has the hole pattern.
pub fn holes_in(parents: &[u8], r: usize) -> bool
    requires { (good_layouts parents.now ≡ true) × (r < length parents.now / parent_size) }
    ensures { result ≡ holes_in (row_at (parse_parents parents.now) r) }
{
    let row = rows::row_at(parents, PARENT_SIZE, r);
    if !rows::is_used(row) {
        return false;
    }
    layout::with_holes(layout::read_header(rows::layout_of(row)))
}
