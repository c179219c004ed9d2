//! The laws of the widths, each as the contract of a function that does nothing.
ghost use Rattle.std.specs.Prelude.{◌≡◌, ◌↔◌, ℕ, ◌+◌, ◌<◌, ◌≤◌, [], ◌∷◌, max, Some, None, List, All, length, sum, slice_index};
ghost use Rattle.std.specs.List.{AllZip, AllByRecursion as Each};
ghost use Rattle.column_widths.specs.declared.need.Need.{Need};
ghost use Rattle.column_widths.specs.declared.need.Bound.TheVariants.{Least, Greatest};
ghost use Rattle.column_widths.specs.Table.{Table, IsWithin};
ghost use Rattle.column_widths.specs.Needs.{needs_of, filled};
ghost use Rattle.column_widths.specs.Widths.{widths, lines_of};
ghost use Rattle.column_widths.specs.Laws.{room_of, need_at, IsWithinNeed, HasRoom};

/// There are no widths exactly where the least widths and the lines don't fit the room.
pub fn least_widths_decide()
    ensures { (t : Table) (room : ℕ) → (widths t room ≡ None) ↔ (room < room_of Least t) }
{}

/// The widths and the lines take the whole room, or as much of it as the columns can use.
pub fn widths_take_the_room()
    ensures all { (t : Table) (room : ℕ) (ws : List ℕ) →
        widths t room ≡ Some ws → room ≤ room_of Greatest t → sum ws + lines_of t ≡ room }
    ensures enough { (t : Table) (room : ℕ) (ws : List ℕ) →
        widths t room ≡ Some ws → room_of Greatest t ≤ room → sum ws + lines_of t ≡ room_of Greatest t }
{}

/// There is a width for each column: not below what the column needs at least, and not above what it needs at most.
pub fn widths_are_within_needs()
    ensures each { (t : Table) (room : ℕ) (ws : List ℕ) →
        widths t room ≡ Some ws → AllZip IsWithinNeed (needs_of t) ws }
    ensures count { (t : Table) (room : ℕ) (ws : List ℕ) → widths t room ≡ Some ws → length ws ≡ t.columns }
{}

/// Each cell has room for its longest word in its columns and the lines between them.
pub fn longest_words_fit()
    ensures { (t : Table) (room : ℕ) (ws : List ℕ) → All (IsWithin t.columns) t.cells →
        widths t room ≡ Some ws → All (HasRoom Least t.line ws) t.cells }
{}

/// Each cell has room for its widest line where there is as much room as the columns can use.
pub fn widest_lines_fit()
    ensures { (t : Table) (room : ℕ) (ws : List ℕ) → All (IsWithin t.columns) t.cells →
        widths t room ≡ Some ws → room_of Greatest t ≤ room → All (HasRoom Greatest t.line ws) t.cells }
{}

/// If a column needs more at most than another, and no less at least, it is at least as wide.
pub fn wider_needs_get_no_less()
    ensures { (t : Table) (room : ℕ) (ws : List ℕ) (i j : ℕ) → widths t room ≡ Some ws →
        i < t.columns → j < t.columns →
        need_at Least t i ≤ need_at Least t j → need_at Greatest t i < need_at Greatest t j →
        slice_index ws i ≤ slice_index ws j }
{}

/// Among the cells that span just one column, the longest word decides what the column needs at least, and the widest
/// line what it needs at most.
pub fn widest_cell_decides()
    ensures least { (line asked : ℕ) (n : Need) → n.least ≤ n.greatest →
        filled Least line asked (n ∷ [])
        ≡ record { least = max n.least asked; greatest = max n.greatest (max n.least asked) } ∷ [] }
    ensures greatest { (line asked : ℕ) (n : Need) →
        filled Greatest line asked (n ∷ []) ≡ record { least = n.least; greatest = max n.greatest asked } ∷ [] }
{}

/// No column is narrower than 1.
pub fn columns_are_seen()
    ensures { (t : Table) (room : ℕ) (ws : List ℕ) → widths t room ≡ Some ws → Each (λ w. 1 ≤ w) ws }
{}
