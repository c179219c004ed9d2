//! Laws of rows, each as the contract of a function that does nothing.
ghost use Rattle.std.specs.Prelude.{◌≡◌, ◌↔◌, ◌≢◌, ℕ, List, [], length, map, is_some, Some, Bool, true, ◌≤◌, ◌++◌, ◌∷◌, Option, flat_map};
ghost use Rattle.tbr_rows.specs.declared.line_set.LineSet.{LineSet as Cell};
ghost use Rattle.std.specs.List.{AllZip, AllByRecursion as Each};
ghost use Rattle.tbr_rows.specs.Shown.{part_of, later_of, Meeting, meeting, met, merged_first, merged_last, parts_of, parts_and_merged, AreItsRows, texts_in, goes_on, TakesCellColumns};
ghost use Rattle.tbr_rows.specs.Shown.{LinesFillCell, DrawsInOne, LineFits, TakesColumns};
ghost use Rattle.tbr_rows.specs.Rows.{cells_under, columns_shown, cells_left, SeenRow, row_of, IsLaidOut};
ghost use Rattle.std.specs.Option.{option_map};
ghost use Rattle.tbr_tagged.specs.Mapped.{MeansEqual};
ghost use Rattle.tbr_rows.specs.declared.row.Row.{Row};
ghost use Rattle.tbr_rows.specs.declared.row.RowStyle.{RowStyle};
ghost use Rattle.tbr_rows.specs.Meant.{map_cell, map_border, map_line, row_meant, EqualIfMeant, TellsApart, MeansFilled};
ghost use Rattle.tbr_rows.specs.Gaps.{cell_in, overhang};
ghost use Rattle.tbr_rows.specs.Filled.{FillsLine};
ghost use Rattle.tbr_rows.specs.CellsShown.{MadeRow, StandsAmong, FollowOneAnother, HasFilledCells, IsOfFirst, ShowsTexts};
ghost use Rattle.tbr_tagged.specs.declared.padding.CellAlign.{CellAlign};
ghost use Rattle.tbr_border.specs.declared.render_line.RenderLine.{RenderLine};
ghost use Rattle.tbr_rows.specs.Texts.{row_height, line_text};
ghost use Rattle.tbr_rows.specs.declared.column.Column.{Column};
ghost use Rattle.tbr_border.specs.Border.{Border};
ghost use Rattle.tbr_model.specs.Layout.{joined};
ghost use Rattle.tbr_model.specs.Run.{Item, item_width, items_width};
ghost use Rattle.tbr_rows.specs.Cells.{AreSideBySide, AreApart, with_hanging, row_fits, spot_of, spots_from, Spot, look, cell_height, place_of, lines_of, IsAsFree};

/// Overhanging cells find their places exactly where the row fits.
#[tactic(auto, using(crate::proofs::Fits::found_exactly))]
pub fn places_are_found_where_the_row_fits<T>()
    ensures { (at : ℕ) (hanging cells : List (Cell T)) → AreSideBySide at cells → AreApart at hanging →
        is_some (with_hanging at hanging cells) ≡ row_fits hanging (map spot_of cells) }
{}

/// The cells of a row in which overhanging ones have their places are side by side.
#[tactic(auto, using(crate::proofs::Seats::stand_side_by_side))]
pub fn cells_with_overhanging_ones_stand_side_by_side<T>()
    ensures { (at : ℕ) (hanging cells row : List (Cell T)) → AreSideBySide at cells → AreApart at hanging →
        with_hanging at hanging cells ≡ Some row → AreSideBySide at row }
{}

/// Cells side by side are where their widths say.
#[tactic(auto, using(crate::proofs::Fitted::spots_are))]
pub fn cells_stand_where_their_widths_say<T>()
    ensures { (cells : List (Cell T)) → AreSideBySide 0 cells → map spot_of cells ≡ spots_from 0 (map look cells) }
{}

/// A row that fits still fits where fewer of its cells have lines.
#[tactic(auto, using(crate::proofs::Fitted::fits_with_fewer_lines))]
pub fn a_row_with_fewer_lines_fits_too<T>()
    ensures { (hanging : List (Cell T)) (spots others : List Spot) → AllZip IsAsFree spots others →
        row_fits hanging spots ≡ true → row_fits hanging others ≡ true }
{}

/// A cell's lines are what a row shows of it, with the line in the border below, and then what it leaves to later rows.
#[tactic(auto, using(crate::proofs::AllLines::part_and_later))]
pub fn a_row_loses_no_line<T>()
    ensures { (draws : Bool) (height : ℕ) (cell : Cell T) → cell_height cell ≤ height →
        part_of draws height cell ++ later_of draws height cell ≡ lines_of cell }
{}

/// A row is at least as high as each of its cells asks.
#[tactic(auto, using(crate::proofs::AllLines::row_is_high_enough))]
pub fn a_row_is_high_enough<T>()
    ensures { (columns : List (Column T)) → Each (λ c. cell_height (cell_in c) ≤ row_height columns) columns }
{}

/// A cell's lines are those that a row merges, and those that are left of them.
#[tactic(auto, using(crate::proofs::AllLines::merged_and_left))]
pub fn merging_takes_borders_alone<T>()
    ensures { (m : Meeting) (cell : Cell T) →
        merged_first m cell ++ lines_of (met m cell) ++ merged_last m cell ≡ lines_of cell }
{}

/// Over all its rows, a cell's lines are those that are shown and the borders that are merged, in order.
#[tactic(auto, using(crate::proofs::AllLines::all_rows))]
pub fn a_spanning_cell_is_shown_whole<T>()
    ensures { (draws : Bool) (rows : List Meeting) (cell : Cell T) → AreItsRows draws rows cell →
        parts_and_merged draws rows cell ≡ lines_of cell }
{}

/// Over all its rows a cell shows its texts, once and in order.
#[tactic(auto, using(crate::proofs::AllLines::all_texts))]
pub fn a_spanning_cell_shows_its_texts_once<T>()
    ensures { (draws : Bool) (rows : List Meeting) (cell : Cell T) → AreItsRows draws rows cell →
        texts_in (joined (parts_of draws rows cell)) ≡ texts_in (lines_of cell) }
{}

/// The cells that a row shows are its cells without what it merges.
#[tactic(auto, using(crate::proofs::AllLines::cells_meet))]
pub fn a_row_shows_its_cells<T>()
    ensures { (collapses : Bool) (top : Option (Border T)) (height : ℕ) (cells : List (Cell T)) →
        map cell_in (columns_shown collapses (cells_under collapses top cells))
        ≡ map (met (meeting collapses top height)) cells }
{}

/// What overhangs of a row is what it leaves of each of its cells that spans another row.
#[tactic(auto, using(crate::proofs::AllLines::rows_go_on))]
pub fn a_row_hands_on_what_it_leaves<T>()
    ensures { (draws collapses : Bool) (top : Option (Border T)) (height : ℕ) (cells : List (Cell T)) →
        overhang draws (cells_left height (columns_shown collapses (cells_under collapses top cells)))
        ≡ flat_map (goes_on draws (meeting collapses top height)) cells }
{}

/// In each line of a row a cell's text begins at the cell's place, where the texts before it fill their cells.
#[tactic(auto, using(crate::proofs::CellColumns::stands_at))]
pub fn cells_stand_in_their_columns<T>()
    ensures { (columns : ℕ → Option ℕ) (separator : Item T) (tag : T) (i : ℕ)
        (front : List (Column T)) (column : Column T) (rest : List (Column T)) → item_width columns separator ≡ 1 →
        Each (TakesCellColumns columns tag i) front → AreSideBySide 0 (map cell_in (front ++ column ∷ rest)) →
        (before : List (Item T))
        × (line_text separator tag (front ++ column ∷ rest) i ≡ before ++ line_text separator tag (column ∷ rest) i)
        × (items_width columns before ≡ place_of (cell_in column)) }
{}

/// A line that fits its cell takes exactly the cell's columns once it is filled. So does each line that a row shows of
/// such a cell, and the filler below these.
#[tactic(auto, using(crate::proofs::FilledCells::filled_line, crate::proofs::FilledCells::cell_fills))]
pub fn lines_that_fit_take_their_columns<T>()
    ensures line { (columns : ℕ → Option ℕ) (eq : T → T → Bool) (align : CellAlign) (width : ℕ) (padding tag : T)
        (line done : RenderLine T) → DrawsInOne columns → LineFits columns width line →
        FillsLine columns eq align width padding line done → TakesColumns columns tag width done }
    ensures cell { (columns : ℕ → Option ℕ) (tag : T) (i : ℕ) (column : Column T) → DrawsInOne columns →
        LinesFillCell columns tag column → TakesCellColumns columns tag i column }
{}

/// Replacing each tag of a row by what it means gives the row of the cells whose tags are replaced in this way. That
/// holds where tags are equal exactly if they mean the same, and meanings can be told apart.
pub fn a_row_is_its_row_by_meaning<A, B>()
    ensures { (f : A → B) (eq : A → A → Bool) (same : B → B → Bool) → MeansEqual f eq → EqualIfMeant f eq →
        TellsApart same → (columns : ℕ → Option ℕ) (style : RowStyle) (tag : A) (hanging cells : List (Cell A))
        (top : Option (Border A)) (row : Row A) (seen : SeenRow A) →
        row_of eq columns style tag hanging cells top ≡ Some seen → IsLaidOut eq row seen →
        row_of same columns style (f tag) (map (map_cell f) hanging) (map (map_cell f) cells)
        (option_map (map_border f) top) ≡ Some (row_meant f row) }
{}

/// Replacing each tag by what it means leaves filled lines filled, and changes no place.
pub fn meanings_change_no_place<A, B>()
    ensures lines { (f : A → B) (eq : A → A → Bool) → MeansEqual f eq →
        (columns : ℕ → Option ℕ) (align : CellAlign) (width : ℕ) (tag : A) (lines done : List (RenderLine A)) →
        AllZip (FillsLine columns eq align width tag) lines done →
        AllZip (MeansFilled columns align width (f tag)) (map (map_line f) lines) (map (map_line f) done) }
    ensures spots { (f : A → B) (cells : List (Cell A)) → map spot_of (map (map_cell f) cells) ≡ map spot_of cells }
    ensures fits { (f : A → B) (hanging : List (Cell A)) (spots : List Spot) →
        row_fits (map (map_cell f) hanging) spots ≡ row_fits hanging spots }
{}

/// Over the rows of its span each cell shows its texts once, in order, in its own columns, also in the borders between
/// these rows. The rows must follow one another, and the lines of all cells must fit their columns. The cells of a row
/// are its own and those that overhang. An own cell without lines may give its place to one that overhangs.
pub fn rows_show_each_cell_in_its_columns<T>()
    ensures shown { (columns : ℕ → Option ℕ) → DrawsInOne columns → (draws : Bool) (rows : List (MadeRow T columns))
        (cell : Cell T) → FollowOneAnother columns draws rows → Each (HasFilledCells columns) rows →
        IsOfFirst columns cell rows → length rows ≡ cell.span → ShowsTexts columns draws rows cell }
    ensures own { (columns : ℕ → Option ℕ) (row : MadeRow T columns) (cell : Cell T) →
        StandsAmong cell row.own → cell.lines ≢ [] → StandsAmong cell row.cells }
    ensures hanging { (columns : ℕ → Option ℕ) (row : MadeRow T columns) (cell : Cell T) →
        StandsAmong cell row.hanging → StandsAmong cell row.cells }
{}
