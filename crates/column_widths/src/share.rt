//! The widths of columns in this much room.
ghost use Rattle.std.specs.Prelude.{◌≡◌, ◌+◌, ◌-◌, ◌*◌, ◌^◌, ◌<◌, ◌≤◌, min, map, sum_by, if◌then◌else◌, option_map, SomeIff, IfOk};
ghost use Rattle.std.specs.List.{enumerate_from};
ghost use Rattle.column_widths.specs.Needs.{width_of};
ghost use Rattle.column_widths.specs.Widths.{slack, comes_before, is_ahead, rank, gets_one, share, shared, widths_beside_lines};
ghost use Rattle.column_widths.specs.declared.need.Bound.TheVariants.{Greatest};

use crate::need::{Bound, Need};
use std::alloc::{AllocError, Global};

/// What is left of this much room beside one of the two widths of each column, or `None` where they don't fit.
fn left_of(room: usize, bound: Bound, columns: &[Need]) -> Option<usize>
    ensures { SomeIff result (sum_by (width_of bound) columns.now ≤ room)
        (room - sum_by (width_of bound) columns.now) }
{
    let mut left = room;
    for need in columns {
        left = left.checked_sub(need.width(bound))?;
    }
    Some(left)
}

/// What each column needs at most.
fn greatest_widths(alloc: Global, columns: &[Need]) -> Result<Vec<usize>, AllocError>
    ensures { IfOk result (λ w. w.items ≡ map (width_of Greatest) columns.now) }
{
    columns.iter().map(|need| need.greatest).collect(alloc)
}

/// How many columns of text the columns can use beyond what they need at least.
fn total_slack(columns: &[Need]) -> u128
    ensures { result ≡ sum_by slack columns.now }
{
    let mut total = 0;
    for need in columns {
        total += need.slack() as u128;
    }
    total
}

/// A column's share of `extra`, by its part in all the slack.
fn share(extra: usize, all: u128, need: Need) -> usize
    requires { extra < all }
    ensures { result ≡ share extra all need }
{
    (extra as u128 * need.slack() as u128 / all) as usize
}

/// What is left of `extra` after each column's share.
fn left_over(extra: usize, all: u128, columns: &[Need]) -> usize
    requires { extra < all }
    ensures { result ≡ extra - sum_by (share extra all) columns.now }
{
    let mut left = extra;
    for need in columns {
        left = left.saturating_sub(share(extra, all, *need));
    }
    left
}

/// Whether a column comes before another: the wider need first, and of equal needs the first place.
fn comes_before(place: usize, need: Need, other_place: usize, other: Need) -> bool
    ensures { result ≡ comes_before (place, need) (other_place, other) }
{
    if need.greatest != other.greatest {
        return need.greatest > other.greatest;
    }
    if need.least != other.least {
        return need.least > other.least;
    }
    place < other_place
}

/// Whether another column can be wider, and comes before this one.
fn is_ahead(place: usize, need: Need, other_place: usize, other: Need) -> bool
    ensures { result ≡ is_ahead (place, need) (other_place, other) }
{
    other.slack() > 0 && comes_before(other_place, other, place, need)
}

/// How many of the columns that can be wider come before this one.
fn rank(place: usize, need: Need, columns: &[Need]) -> usize
    ensures { result ≡ rank (enumerate_from 0 columns.now) (place, need) }
{
    let mut before = 0;
    for (other_place, other) in columns.iter().enumerate() {
        if is_ahead(place, need, other_place, *other) {
            before += 1;
        }
    }
    before
}

/// 1 if a column gets one of the `left` columns that are left over after the shares, and otherwise 0.
fn one_more(left: usize, columns: &[Need], place: usize, need: Need) -> usize
    ensures value { result ≡ (if gets_one left (enumerate_from 0 columns.now) (place, need) then 1 else 0) }
    ensures within { result ≤ min 1 (slack need) }
{
    if need.slack() > 0 && rank(place, need, columns) < left {
        1
    } else {
        0
    }
}

/// What a column needs at least, its share, and maybe one more.
#[tactic(auto, using(crate::proofs::Shares::width_fits))]
fn width_with(extra: usize, all: u128, more: usize, need: Need) -> usize
    requires less { extra < all }
    requires more { more ≤ min 1 (slack need) }
    ensures { result ≡ need.least + share extra all need + more }
{
    need.least + share(extra, all, need) + more
}

/// The widths, where `extra` is left beside the least widths, and less than the columns can use.
fn shared(alloc: Global, extra: usize, columns: &[Need]) -> Result<Vec<usize>, AllocError>
    requires { extra < sum_by slack columns.now }
    ensures { IfOk result (λ w. w.items ≡ shared extra columns.now) }
{
    let all = total_slack(columns);
    let left = left_over(extra, all, columns);
    let mut widths = Vec::with_capacity(alloc, columns.len())?;
    for (place, need) in columns.iter().enumerate() {
        let more = one_more(left, columns, place, *need);
        widths.push(width_with(extra, all, more, *need))?;
    }
    Ok(widths)
}

/// The widths in this much room beside the lines, or `None` where the least widths don't fit. It refuses only where
/// memory is refused.
#[tactic(auto, using(crate::proofs::Shares::greatest_within))]
pub fn widths_beside_lines(
    alloc: Global,
    room: usize,
    columns: &[Need],
) -> Result<Option<Vec<usize>>, AllocError>
    ensures { IfOk result (λ answer. option_map (λ w. w.items) answer ≡ widths_beside_lines room columns.now) }
{
    let Some(extra) = left_of(room, Bound::Least, columns) else {
        return Ok(None);
    };
    match left_of(room, Bound::Greatest, columns) {
        Some(_) => Ok(Some(greatest_widths(alloc, columns)?)),
        None => Ok(Some(shared(alloc, extra, columns)?)),
    }
}
