//! The laws of tables, each as the contract of a function that does nothing.
ghost use Rattle.std.specs.Prelude.{◌≡◌, ◌↔◌, ℕ, ◌+◌, ◌-◌, ◌<◌, ◌≤◌, Option, None, Some, List, ◌++◌, length, sum, sum_by};
ghost use Rattle.std.specs.List.{All, AllByRecursion as Each};
ghost use Rattle.column_widths.specs.declared.need.Bound.TheVariants.{Least};
ghost use Rattle.column_widths.specs.Table.{Table};
ghost use Rattle.column_widths.specs.Widths.{widths};
ghost use Rattle.column_widths.specs.Laws.{room_of};
ghost use Rattle.tbr_tables.specs.declared.drawn_table.DrawnLevel.{DrawnLevel};
ghost use Rattle.tbr_tables.specs.declared.grid.Spot.{Spot};
ghost use Rattle.tbr_tables.specs.declared.shape.Shape.{Shape};
ghost use Rattle.tbr_tables.specs.declared.step.Step.{Step};
ghost use Rattle.tbr_tables.specs.declared.step.TableCell.{TableCell};
ghost use Rattle.tbr_tables.specs.Drawn.{drawn, table_of};
ghost use Rattle.tbr_tables.specs.Laws.{given_of, kept_from, IsSized, Tiles, EndsBy, grid_of, full_row, WordsFit, shapes_of, width_at};

/// Each step that isn't part of a table is drawn as it is, once, and in order: no text is lost or changed.
pub fn steps_are_drawn_once()
    ensures { (shapes : List Shape) (room : ℕ) (steps : List Step) →
        given_of (drawn shapes room steps) ≡ kept_from 0 steps }
{}

/// Each cell and block that opens has at least one column, and each cell at least one row.
pub fn what_opens_has_a_size()
    ensures { (shapes : List Shape) (room : ℕ) (steps : List Step) → Each IsSized (drawn shapes room steps) }
{}

/// The cells of each row follow one another from the first column to the last: those given, those from above, and those
/// that fill the gaps. This holds whatever was drawn before, where no cell ends after the last column.
pub fn rows_are_full()
    ensures { (moves : List (Option TableCell)) (columns : ℕ) → let g = grid_of moves in
        Each (EndsBy columns) (g.row ++ g.above) → Tiles 0 (full_row columns g) columns }
{}

/// Where the columns of a table are given widths, no word of a cell is wider than its columns and the lines between
/// them.
pub fn no_word_is_cut()
    ensures { (columns : ℕ → Option ℕ) (wrap : ℕ) (steps : List (Step × List ℕ)) →
        All WordsFit (shapes_of columns wrap steps) }
{}

/// If columns are given widths, each full row is as wide as the table. Its cells, with lines between them, take the
/// columns with the lines between these.
pub fn rows_take_the_width()
    ensures { (t : Table) (room any : ℕ) (ws : List ℕ) (row : List Spot) → widths t room ≡ Some ws →
        Tiles 0 row t.columns → sum_by (width_at ws any) row + (length row - 1) ≡ sum ws + (t.columns - 1) }
{}

/// The border of a table with columns is as wide as the table.
pub fn borders_take_the_width()
    ensures { (t : Table) (room any : ℕ) (ws : List ℕ) → widths t room ≡ Some ws → 0 < t.columns →
        width_at ws any (record { column = 0; end = t.columns; rows = 1 }) ≡ sum ws + (t.columns - 1) }
{}

/// The cells of rows are one below another exactly where the longest words and the lines between columns don't fit.
pub fn cells_are_below_where_words_do_not_fit()
    ensures { (level : DrawnLevel) (shape : Shape) →
        ((table_of level (Some shape)).edges ≡ None) ↔ (level.room < room_of Least shape.columns) }
{}
