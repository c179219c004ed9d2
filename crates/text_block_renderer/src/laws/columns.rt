//! The laws of characters without columns, such as control characters.
ghost use Rattle.std.specs.Prelude.{◌≡◌, ◌↔◌, ℕ, true, Option, None, List};
ghost use Rattle.std.specs.Char.{is_control};
ghost use Rattle.std.specs.List.{AllByRecursion as Each};
ghost use Rattle.tbr_decor.specs.Decoration.{Decoration};
ghost use Rattle.tbr_kept_lines.specs.Line.{Line};
ghost use Rattle.tbr_rows.specs.Shown.{DrawsInOne};
ghost use Rattle.tbr_tagged.specs.Outcome.{done};
ghost use Rattle.tbr_tagged.specs.UnicodeColumns.{unicode_columns};
ghost use Rattle.tbr_renderer.specs.Renderer.{Renderer, new_renderer};
ghost use Rattle.tbr_renderer.specs.declared.options.RenderOptions.{RenderOptions};
ghost use Rattle.tbr_renderer.specs.Decorated.{sub_renderer};
ghost use Rattle.tbr_renderer.specs.Outcomes.{run};
ghost use Rattle.tbr_renderer.specs.Appended.{handed_out};
ghost use Rattle.tbr_renderer.specs.Calls.{Call, Steps};
ghost use Rattle.text_block_renderer.specs.Acts.{Act, after_act};
ghost use Rattle.text_block_renderer.specs.Columns.{LinesHaveColumns, CallHasColumns, ActHasColumns, RendererHasColumns};

/// Each character of the lines that a renderer hands out has columns, after any calls, rows and footnotes. Texts,
/// images and markers may have any characters. Those of prefixes, footnotes and lines of other renderers must have
/// columns.
pub fn characters_have_columns<D, A>()
    ensures new { (columns : ℕ → Option ℕ) (width : ℕ) (options : RenderOptions) (decorator : D) →
        RendererHasColumns columns (new_renderer {D = D} {A = A} width options decorator) }
    ensures inside { (columns : ℕ → Option ℕ) (decoration : Decoration D A) (width : ℕ) (r : Renderer D A (List A)) →
        RendererHasColumns columns (sub_renderer decoration width r) }
    ensures calls { (columns : ℕ → Option ℕ) (decoration : Decoration D A) (calls : List (Call (List A)))
        (r s : Renderer D A (List A)) → DrawsInOne columns → Each (CallHasColumns columns) calls →
        RendererHasColumns columns r → Steps columns decoration calls r s → RendererHasColumns columns s }
    ensures acts { (columns : ℕ → Option ℕ) (decoration : Decoration D A) (acts : List (Act A))
        (r s : Renderer D A (List A)) → DrawsInOne columns → Each (ActHasColumns columns) acts →
        RendererHasColumns columns r → run (after_act columns decoration) acts r ≡ done s →
        RendererHasColumns columns s }
    ensures handed_out { (columns : ℕ → Option ℕ) (r : Renderer D A (List A)) (lines : List (Line (List A))) →
        DrawsInOne columns → RendererHasColumns columns r → handed_out columns r ≡ done lines →
        LinesHaveColumns columns lines }
    ensures from_new { (columns : ℕ → Option ℕ) (decoration : Decoration D A) (width : ℕ) (options : RenderOptions)
        (decorator : D) (acts : List (Act A)) (s : Renderer D A (List A)) (lines : List (Line (List A))) →
        DrawsInOne columns → Each (ActHasColumns columns) acts →
        run (after_act columns decoration) acts (new_renderer width options decorator) ≡ done s →
        handed_out columns s ≡ done lines → LinesHaveColumns columns lines }
{}

/// By `unicode_columns` exactly the control characters have no columns, not even 0.
pub fn control_characters_have_no_columns()
    ensures { (c : ℕ) → (unicode_columns c ≡ None) ↔ (is_control c ≡ true) }
{}
