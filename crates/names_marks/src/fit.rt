// Whether marks fit the child rows: one for each, at most 2, and 2 where there is no self FID.
ghost use Rattle.std.specs.Prelude.{◌≡◌};
ghost use Rattle.names.specs.Rows.{parse_children};
ghost use Rattle.names.specs.Visible.{good_marks};
ghost use Rattle.names_marks.specs.Directories.{fit_mark};

use fid::MdtFid;
use names::rows;
use names::rows::CHILD_SIZE;
use names_judge::judge::NO_SELF;

// Whether a mark fits a self FID.
fn good_mark(mark: u64, f: MdtFid) -> bool
    ensures { result ≡ fit_mark mark f }
{
    if mark < NO_SELF {
        return !rows::is_none(f);
    }
    mark == NO_SELF
}

// Whether the marks fit the rows.
pub fn good_marks(children: &[u8], marks: &[u64]) -> bool
    ensures { result ≡ good_marks marks.now (parse_children children.now) }
{
    let selves = children
        .chunks_exact(CHILD_SIZE)
        .map(|row| rows::self_of(row));
    marks.len() == children.len() / CHILD_SIZE
        && marks
            .iter()
            .zip(selves)
            .all(|(mark, own)| good_mark(*mark, own))
}
