//! The laws of lines of other renderers, and of borders.
ghost use Rattle.std.specs.Prelude.{◌≡◌, ◌≤◌, ℕ, true, false, Option, Some, List, ◌++◌, map, flat_map, length};
ghost use Rattle.std.specs.List.{AllZip, AllByRecursion as Each, slice_get, zip};
ghost use Rattle.tbr_model.specs.Run.{Entry, Item};
ghost use Rattle.tbr_model.specs.Layout.{joined};
ghost use Rattle.tbr_model.specs.Hard.{IsShown, IsSpaces, visible_glyphs, visible_entries};
ghost use Rattle.tbr_decor.specs.Decoration.{Decoration};
ghost use Rattle.tbr_kept_lines.specs.Line.{Line};
ghost use Rattle.tbr_renderer.specs.Renderer.{Renderer, IsSound};
ghost use Rattle.tbr_tagged.specs.Outcome.{done};
ghost use Rattle.tbr_renderer.specs.Flush.{after_flush};
ghost use Rattle.tbr_renderer.specs.Appended.{as_text, prefixed, handed_out};
ghost use Rattle.tbr_renderer.specs.Calls.{append_subrender, append_vert_row, Does, text_of_lines, Shows};
ghost use Rattle.text_block_renderer.specs.Drawn.{AreDrawnAmong, WithoutDrawnBorders};
ghost use Rattle.text_block_renderer.specs.Stretches.{lines_laid};
ghost use Rattle.text_block_renderer.specs.Nested.{Level, nested, BecomesLine, lines_left, visible_after, HandOn};
ghost use Rattle.text_block_renderer.specs.VerticalRows.{row_lines};
ghost use Rattle.text_block_renderer.specs.Taken.{StandWithin, written, to_show, AreWrittenIn, IsWrittenSoFar, AreTakenIn};

/// Renderers hand their lines on to one another, each after the prefixes of the one that takes them. Line i comes after
/// prefix i, in each of them, from the innermost to the outermost, which may have lines before. Its first line of text
/// then begins with the markers that waited, and each is padded. There are as many lines as the shortest of these lists
/// has, and those before.
pub fn nested_blocks_are_their_prefixes_and_lines<D, A>()
    ensures line { (columns : ℕ → Option ℕ) (levels : List (Level D A)) (lines : List (Line (List A))) (i j : ℕ)
        (line last : Line (List A)) → slice_get lines i ≡ Some line → BecomesLine columns levels i line j last →
        slice_get (nested columns levels lines) j ≡ Some last }
    ensures count { (columns : ℕ → Option ℕ) (levels : List (Level D A)) (lines : List (Line (List A))) →
        length (nested columns levels lines) ≡ lines_left levels (length lines) }
    ensures calls { (columns : ℕ → Option ℕ) (decoration : Decoration D A) (levels : List (Level D A))
        (inside lines : List (Line (List A))) →
        HandOn columns decoration levels inside lines → lines ≡ nested columns levels inside }
{}

/// Lines that are appended come after those that there are and after the open run. The first comes after the markers
/// that wait, and each is padded.
pub fn appended_lines_come_after_the_others<D, A>()
    ensures { (columns : ℕ → Option ℕ) (decoration : Decoration D A) (prefixes : List (List ℕ))
        (lines : List (Line (List A))) (r s : Renderer D A (List A)) →
        Does columns decoration (append_subrender prefixes lines) r s → (m : Renderer D A (List A))
        × (after_flush columns r ≡ done m)
        × (s.lines ≡ m.lines ++ lines_laid columns m (prefixed r.annotations prefixes lines)) }
{}

/// The visible characters of lines that are appended come after those of the prefixes, line by line and in order. If
/// there are as many prefixes as lines, none is lost. If prefixes are spaces, there are no others.
pub fn appended_characters_stand<D, A>()
    ensures prefixed { (columns : ℕ → Option ℕ) (decoration : Decoration D A) (prefixes : List (List ℕ))
        (lines : List (Line (List A))) (r s : Renderer D A (List A)) →
        Does columns decoration (append_subrender prefixes lines) r s →
        (m : Renderer D A (List A)) × (after_flush columns r ≡ done m)
        × (visible_glyphs columns (text_of_lines s.lines) ≡ visible_glyphs columns (text_of_lines m.lines)
        ++ flat_map (visible_after columns r.annotations) (zip prefixes lines)) }
    ensures indented { (columns : ℕ → Option ℕ) (decoration : Decoration D A) (prefixes : List (List ℕ))
        (lines : List (Line (List A))) (r s : Renderer D A (List A)) →
        Does columns decoration (append_subrender prefixes lines) r s →
        length lines ≤ length prefixes → Each IsSpaces prefixes →
        (m : Renderer D A (List A)) × (after_flush columns r ≡ done m)
        × (visible_glyphs columns (text_of_lines s.lines) ≡ visible_glyphs columns (text_of_lines m.lines)
        ++ visible_glyphs columns (joined (map (as_text r.annotations) lines))) }
{}

/// A vertical row is its cells with slashed borders between them and a plain one after them. The first text begins with
/// the markers that wait, and each is padded. Where borders aren't drawn, it is its cells alone.
pub fn a_vertical_row_is_its_cells_and_borders<D, A>()
    ensures drawn { (columns : ℕ → Option ℕ) (decoration : Decoration D A) (cells : List (List (Line (List A))))
        (r s : Renderer D A (List A)) → Does columns decoration (append_vert_row cells) r s →
        r.options.draw_borders ≡ true → (m : Renderer D A (List A)) × (after_flush columns r ≡ done m)
        × (s.lines ≡ m.lines ++ row_lines columns m cells) }
    ensures without_borders { (columns : ℕ → Option ℕ) (decoration : Decoration D A)
        (cells : List (List (Line (List A)))) (r s : Renderer D A (List A)) →
        Does columns decoration (append_vert_row cells) r s → r.options.draw_borders ≡ false →
        (m : Renderer D A (List A)) × (after_flush columns r ≡ done m)
        × (s.lines ≡ m.lines ++ lines_laid columns m (flat_map (map (as_text r.annotations)) cells)) }
{}

/// The lines that a renderer hands out have the visible characters of all that was brought to it, once and in order.
/// Borders that became text by padding aren't counted.
pub fn handed_out_lines_have_all_characters<D, A>()
    ensures lines { (columns : ℕ → Option ℕ) (r : Renderer D A (List A))
        (borders : List (List (Item (List A)))) (es : List (Entry (List A))) (lines : List (Line (List A))) →
        IsSound columns r →
        WithoutDrawnBorders borders (λ q. Shows columns q es) r → handed_out columns r ≡ done lines →
        (rest : List (Line (List A))) × AreDrawnAmong borders lines rest
        × AllZip (IsShown (λ a b. a ≡ b)) (visible_glyphs columns (text_of_lines rest)) (visible_entries columns es) }
    ensures undrawn { (columns : ℕ → Option ℕ) (r : Renderer D A (List A)) (es : List (Entry (List A)))
        (lines : List (Line (List A))) → IsSound columns r → Shows columns r es → handed_out columns r ≡ done lines →
        AllZip (IsShown (λ a b. a ≡ b)) (visible_glyphs columns (text_of_lines lines)) (visible_entries columns es) }
{}

/// Suppose that renderers take lines from one another, to any depth, as cells or after as many prefixes, among any
/// calls and rows. All the rows that a cell spans are added, or nothing overhangs in the end. Then the visible
/// characters and the markers of the first lines are in the last, in order, also those in front of borders. So are
/// those of all that was brought to the renderer that handed out the first lines. Of these only markers after the last
/// visible character may be missing.
pub fn nothing_visible_is_lost_to_any_depth<D, A>()
    ensures lines { (columns : ℕ → Option ℕ) (decoration : Decoration D A) (depth : ℕ)
        (inside outside : List (Line (List A))) → AreTakenIn columns decoration depth inside outside →
        StandWithin (to_show columns (written inside)) (to_show columns (written outside)) }
    ensures brought { (columns : ℕ → Option ℕ) (decoration : Decoration D A) (depth : ℕ) (r : Renderer D A (List A))
        (es : List (Entry (List A))) (inside outside : List (Line (List A))) → IsSound columns r →
        IsWrittenSoFar columns r es → handed_out columns r ≡ done inside →
        AreTakenIn columns decoration depth inside outside → AreWrittenIn columns es outside }
{}
