//! The laws of rows of cells side by side.
ghost use Rattle.std.specs.Prelude.{◌≡◌, ℕ, Bool, Option, List, [], ◌++◌};
ghost use Rattle.tbr_model.specs.Run.{Entry, Item};
ghost use Rattle.std.specs.Cmp.Lexicographic.{pointwise};
ghost use Rattle.tbr_decor.specs.Decoration.{Decoration};
ghost use Rattle.tbr_renderer.specs.Renderer.{Renderer, new_renderer, settings_of, IsSound};
ghost use Rattle.tbr_renderer.specs.declared.options.RenderOptions.{RenderOptions};
ghost use Rattle.tbr_renderer.specs.Calls.{text_of_lines};
ghost use Rattle.tbr_tagged.specs.Outcome.{done};
ghost use Rattle.tbr_renderer.specs.Outcomes.{run};
ghost use Rattle.tbr_renderer.specs.Rows.{GivenCell, after_row};
ghost use Rattle.tbr_kept_lines.specs.LastBorder.{before_border};
ghost use Rattle.tbr_kept_lines.specs.Line.{Line};
ghost use Rattle.tbr_renderer.specs.Flush.{after_flush};
ghost use Rattle.text_block_renderer.specs.Acts.{Act, rows_of, after_act, acts_come, PutRow, put, lines_of_piece};
ghost use Rattle.text_block_renderer.specs.LastBorders.{lines_above};
ghost use Rattle.text_block_renderer.specs.Taken.{IsWrittenSoFar};

/// A row takes no line of text back: its texts come after those that there are.
pub fn a_row_takes_no_text_back<D, A>()
    ensures { (columns : ℕ → Option ℕ) (decoration : Decoration D A) (collapses : Bool)
        (cells : List (GivenCell (List A))) (r s : Renderer D A (List A)) →
        after_row (pointwise decoration.same) columns collapses cells r ≡ done s →
        (more : List (Item (List A))) × (text_of_lines s.lines ≡ text_of_lines r.lines ++ more) }
{}

/// No call, row or footnote changes a line that is there, except a border that is the last one where a row comes. Where
/// the open run of that moment puts no line between, the row makes that border what `border_above` says.
pub fn a_border_changes_only_by_the_row_right_after_it<D, A>()
    ensures acts { (columns : ℕ → Option ℕ) (decoration : Decoration D A) (acts : List (Act A))
        (r s : Renderer D A (List A)) → run (after_act columns decoration) acts r ≡ done s →
        (more : List (Line (List A))) × (s.lines ≡ before_border r.lines ++ more) }
    ensures call { (columns : ℕ → Option ℕ) (decoration : Decoration D A) (acts : List (Act A))
        (r s : Renderer D A (List A)) → rows_of acts ≡ [] → run (after_act columns decoration) acts r ≡ done s →
        (more : List (Line (List A))) × (s.lines ≡ r.lines ++ more) }
    ensures row { (columns : ℕ → Option ℕ) (decoration : Decoration D A) (collapses : Bool)
        (cells : List (GivenCell (List A))) (r s : Renderer D A (List A)) →
        after_row (pointwise decoration.same) columns collapses cells r ≡ done s →
        (p : PutRow D A columns) × (after_flush columns r ≡ done p.before) × (p.collapses ≡ collapses)
        × (p.cells ≡ cells) × (s.lines ≡ lines_above columns p p.before.lines ++ lines_of_piece columns (put p)) }
{}

/// A row changes no settings.
pub fn a_row_changes_no_settings<D, A>()
    ensures { (columns : ℕ → Option ℕ) (decoration : Decoration D A) (collapses : Bool)
        (cells : List (GivenCell (List A))) (r s : Renderer D A (List A)) →
        after_row (pointwise decoration.same) columns collapses cells r ≡ done s → settings_of s ≡ settings_of r }
{}

/// The visible characters and markers that were brought are in what is written in lines, also in front of borders: once
/// and in order, except the open run and waiting markers. Borders that became text are written too.
pub fn what_was_brought_is_written<D, A>()
    ensures acts { (columns : ℕ → Option ℕ) (decoration : Decoration D A) (acts : List (Act A))
        (r s : Renderer D A (List A)) (before : List (Entry (List A))) → IsSound columns r →
        run (after_act columns decoration) acts r ≡ done s →
        IsWrittenSoFar columns r before → IsWrittenSoFar columns s (acts_come columns decoration acts r before) }
    ensures new { (columns : ℕ → Option ℕ) (width : ℕ) (options : RenderOptions) (decorator : D) →
        IsWrittenSoFar columns (new_renderer {A = A} width options decorator) [] }
{}
