//! The laws of joins and chops, each as the contract of a function that does nothing.
ghost use Rattle.std.specs.Prelude.{◌≡◌, ℕ, ◌≤◌, List, length, take};
ghost use Rattle.tbr_border.specs.Cell.{Cell, Side, cell_of, HasTwoArms, joined, chopped_left, chopped_right};
ghost use Rattle.tbr_border.specs.Border.{joined_at, stretched};

use crate::border::BorderSegHoriz;

/// To join twice is to join once, in a cell and at a place of a border.
pub fn joins_are_idempotent()
    ensures cell { (side : Side) (c : Cell) → joined side (joined side c) ≡ joined side c }
    ensures border { (side : Side) (x : ℕ) (cells : List Cell) →
        joined_at side x (joined_at side x cells) ≡ joined_at side x cells }
{}

/// Joins commute, in a cell and at two places of a border.
pub fn joins_commute()
    ensures cell { (side other : Side) (c : Cell) → joined side (joined other c) ≡ joined other (joined side c) }
    ensures border { (side other : Side) (x y : ℕ) (cells : List Cell) →
        joined_at side x (joined_at other y cells) ≡ joined_at other y (joined_at side x cells) }
{}

/// To chop one side twice is to chop it once.
pub fn chops_are_idempotent()
    ensures left { (c : Cell) → chopped_left (chopped_left c) ≡ chopped_left c }
    ensures right { (c : Cell) → chopped_right (chopped_right c) ≡ chopped_right c }
{}

/// Every cell is the slash or has at least two arms.
pub fn cell_has_two_arms(cell: BorderSegHoriz)
    ensures { HasTwoArms (cell_of cell) }
{
    let _ = cell;
}

/// Joins and chops leave at least two arms.
pub fn cells_keep_two_arms()
    ensures joined { (side : Side) (c : Cell) → HasTwoArms c → HasTwoArms (joined side c) }
    ensures left { (c : Cell) → HasTwoArms c → HasTwoArms (chopped_left c) }
    ensures right { (c : Cell) → HasTwoArms c → HasTwoArms (chopped_right c) }
{}

/// Stretching only appends.
pub fn stretching_appends()
    ensures before { (width : ℕ) (cells : List Cell) → take (length cells) (stretched width cells) ≡ cells }
    ensures long { (width : ℕ) (cells : List Cell) → width ≤ length (stretched width cells) }
{}
