//! What a row shows of its cells.
ghost use Rattle.std.specs.Prelude.{◌≡◌};
ghost use Rattle.tbr_rows.specs.Texts as model;

use crate::line_set::LineSet;
use tbr_border::BorderHoriz;
use tbr_tags::Tag;

/// A cell in a row, and its last border, where that is merged into the border below.
#[derive(Drop)]
pub(crate) struct Column<T: Eq> {
    pub(crate) cell: LineSet<T>,
    pub(crate) bottom: Option<BorderHoriz<T>>,
}

/// How many lines a row of these has: the most that any of its cells asks for.
pub(crate) fn height<T: Tag>(columns: &[Column<T>]) -> usize
    ensures { result ≡ model.row_height columns.now }
{
    let mut height = 0;
    for column in columns {
        height = height.max(column.cell.height());
    }
    height
}
