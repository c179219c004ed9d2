//! The room that columns need.
ghost use Rattle.std.specs.Prelude.{◌≡◌, sum_by};
ghost use Rattle.column_widths.specs.Needs.{width_of};
ghost use Rattle.column_widths.specs.Widths.{held, room_beside};

use crate::need::{Bound, Need};

/// The room that columns need.
#[derive(Clone, Copy, Debug, PartialEq, Eq)]
pub struct Room {
    /// The columns of text that they need at least.
    pub least: usize,
    /// The columns of text that they can use.
    pub greatest: usize,
}

/// The sum of one of the two widths of all columns.
fn total(bound: Bound, needs: &[Need]) -> u128
    ensures { result ≡ sum_by (width_of bound) needs.now }
{
    let mut total = 0;
    for need in needs {
        total += need.width(bound) as u128;
    }
    total
}

/// The sum of two numbers, or `None` where it passes `usize`.
fn sum(lines: usize, total: u128) -> Option<usize>
    ensures { result ≡ held lines total }
{
    lines.checked_add(usize::try_from(total).ok()?)
}

/// The room that columns with these needs and this many columns of lines take, or `None` where it passes `usize`.
pub fn room_of(lines: usize, needs: &[Need]) -> Option<Room>
    ensures { result ≡ room_beside lines needs.now }
{
    let least = sum(lines, total(Bound::Least, needs))?;
    let greatest = sum(lines, total(Bound::Greatest, needs))?;
    Some(Room { least, greatest })
}
