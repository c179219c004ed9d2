//! What columns need once a cell spans them.
ghost use Rattle.std.specs.Prelude.{◌≡◌, ◌+◌, ◌-◌, ◌*◌, ◌/◌, ◌%◌, ◌^◌, ◌<◌, ◌≤◌, length, sum_by};
ghost use Rattle.column_widths.specs.Needs.{width_of, missing, spread, filled};

use crate::need::{Bound, Need};

/// How much less than a cell asks for its columns, and the lines between them, have.
fn missing(bound: Bound, line: usize, asked: usize, columns: &[Need]) -> usize
    ensures { result ≡ missing bound line asked columns.now }
{
    let mut lack = asked;
    for need in columns {
        lack = lack.saturating_sub(need.width(bound));
    }
    lack.saturating_sub(line.saturating_mul(columns.len().saturating_sub(1)))
}

/// Each column needs `each` more, and the first `rest` of them one more.
fn spread(bound: Bound, each: usize, rest: usize, columns: &mut [Need])
    requires { sum_by (width_of bound) columns.old + each + rest < 2 ^ 64 }
    ensures { columns.new ≡ spread bound each rest columns.old }
{
    let mut rest = rest;
    for need in columns.iter_mut() {
        need.widen(bound, each + rest.min(1));
        rest = rest.saturating_sub(1);
    }
}

/// Spreads what the columns lack over them evenly.
pub fn fill(bound: Bound, line: usize, asked: usize, columns: &mut [Need])
    requires { 1 ≤ length columns.old }
    ensures { columns.new ≡ filled bound line asked columns.old }
{
    let lack = missing(bound, line, asked, columns);
    if lack == 0 {
        return;
    }
    let count = columns.len();
    spread(bound, lack / count, lack % count, columns);
}
