//! The laws of lists of calls, each as the contract of a function that does nothing.
pub mod appended;
pub mod columns;
pub mod headline;
pub mod levels;
pub mod links;
pub mod rows;

ghost use Rattle.std.specs.Prelude.{◌≡◌, ◌≢◌, ◌<◌, ℕ, ◌⊎◌, Option, Some, List, [], ◌++◌, map, flat_map};
ghost use Rattle.std.specs.List.{AllByRecursion as Each};
ghost use Rattle.tbr_kept_lines.specs.Line.{Line};
ghost use Rattle.tbr_renderer.specs.Renderer.{Open, Renderer, new_renderer, settings_of, open_run, IsSound};
ghost use Rattle.tbr_renderer.specs.declared.options.RenderOptions.{RenderOptions};
ghost use Rattle.tbr_tagged.specs.Outcome.{done};
ghost use Rattle.tbr_renderer.specs.Flush.{after_flush};
ghost use Rattle.tbr_renderer.specs.Decorated.{sub_renderer};
ghost use Rattle.tbr_renderer.specs.Outcomes.{run};
ghost use Rattle.tbr_renderer.specs.Calls.{Call, Does, Steps, Brings, Shows};
ghost use Rattle.tbr_renderer.specs.Settings.{settled};
ghost use Rattle.text_block_renderer.specs.Drawn.{WithoutDrawnBorders, borders_added, borders_drawn, DrawNone};
ghost use Rattle.text_block_renderer.specs.MarkersStand.{Stands, FlushStands, WaitForText};
ghost use Rattle.text_block_renderer.specs.Stretches.{StandsAsStretch, StaysOpen, EndsAsStretch, ComesInParts, borders_of_part, AppendsNothing, IsOwnPart};
ghost use Rattle.text_block_renderer.specs.Added.{calls_add};
ghost use Rattle.text_block_renderer.specs.Acts.{Act, call, after_act, acts_come};
ghost use Rattle.tbr_model.specs.Run.{Entry, Item};
ghost use Rattle.tbr_decor.specs.Decoration.{Decoration};

/// No call takes a line back.
pub fn no_call_takes_a_line_back<D, A>()
    ensures { (columns : ℕ → Option ℕ) (decoration : Decoration D A) (calls : List (Call (List A)))
        (r s : Renderer D A (List A)) → Steps columns decoration calls r s →
        (more : List (Line (List A))) × (s.lines ≡ r.lines ++ more) }
{}

/// A call changes the settings that it is there to change, and no others.
pub fn a_call_changes_its_own_settings_alone<D, A>()
    ensures { (columns : ℕ → Option ℕ) (decoration : Decoration D A) (call : Call (List A))
        (r s : Renderer D A (List A)) →
        Does columns decoration call r s → settings_of s ≡ settings_of (settled decoration call r) }
{}

/// All renderers are sound, as the laws ask: new ones and those for a block inside have columns, and no call, row or
/// footnote changes that.
pub fn renderers_stay_sound<D, A>()
    ensures new { (columns : ℕ → Option ℕ) → columns 32 ≡ Some 1 → (width : ℕ) (options : RenderOptions)
        (decorator : D) → 0 < width → options.wrap_width ≢ Some 0 →
        IsSound columns (new_renderer {D = D} {A = A} {T = List A} width options decorator) }
    ensures inside { (columns : ℕ → Option ℕ) (decoration : Decoration D A) (width : ℕ) (r : Renderer D A (List A)) →
        0 < width → IsSound columns r → IsSound columns (sub_renderer decoration width r) }
    ensures calls { (columns : ℕ → Option ℕ) (decoration : Decoration D A) (calls : List (Call (List A)))
        (r s : Renderer D A (List A)) →
        IsSound columns r → Steps columns decoration calls r s → IsSound columns s }
    ensures acts { (columns : ℕ → Option ℕ) (decoration : Decoration D A) (acts : List (Act A))
        (r s : Renderer D A (List A)) → IsSound columns r → run (after_act columns decoration) acts r ≡ done s →
        IsSound columns s }
{}

/// After any calls, rows and footnotes the visible characters that they brought are in the lines of text, except those
/// of the open run. They are there once and in order, each under an annotation of its call. A row brings the texts of
/// its lines. Footnotes come before the run that is open. Borders that became text by padding aren't counted: these are
/// known. To a new renderer nothing was brought. Of calls alone the same holds whatever was shown before.
pub fn visible_characters_stand_once<D, A>()
    ensures acts { (columns : ℕ → Option ℕ) (decoration : Decoration D A) (acts : List (Act A))
        (r s : Renderer D A (List A)) (borders : List (List (Item (List A)))) (ended : List (Entry (List A))) →
        IsSound columns r → run (after_act columns decoration) acts r ≡ done s →
        let before = ended ++ open_run r.block in WithoutDrawnBorders borders (λ q. Shows columns q before) r →
        WithoutDrawnBorders (borders ++ borders_drawn columns decoration acts r)
        (λ q. Shows columns q (acts_come columns decoration acts r before)) s }
    ensures from_new { (columns : ℕ → Option ℕ) (decoration : Decoration D A) (width : ℕ) (options : RenderOptions)
        (decorator : D) (acts : List (Act A)) (s : Renderer D A (List A)) →
        let r = new_renderer {D = D} {A = A} width options decorator in
        IsSound columns r → run (after_act columns decoration) acts r ≡ done s →
        WithoutDrawnBorders (borders_drawn columns decoration acts r)
        (λ q. Shows columns q (acts_come columns decoration acts r [])) s }
    ensures undrawn { (columns : ℕ → Option ℕ) (decoration : Decoration D A) (acts : List (Act A))
        (r s : Renderer D A (List A)) (ended : List (Entry (List A))) → IsSound columns r →
        DrawNone columns decoration acts r → run (after_act columns decoration) acts r ≡ done s →
        let before = ended ++ open_run r.block in
        Shows columns r before → Shows columns s (acts_come columns decoration acts r before) }
    ensures calls { (columns : ℕ → Option ℕ) (decoration : Decoration D A) (calls : List (Call (List A)))
        (r s : Renderer D A (List A)) (borders : List (List (Item (List A)))) (before es : List (Entry (List A))) →
        IsSound columns r → Brings columns decoration calls r es s →
        WithoutDrawnBorders borders (λ q. Shows columns q before) r →
        WithoutDrawnBorders (borders ++ borders_drawn columns decoration (map call calls) r)
        (λ q. Shows columns q (before ++ es)) s }
    ensures undrawn_calls { (columns : ℕ → Option ℕ) (decoration : Decoration D A) (calls : List (Call (List A)))
        (r s : Renderer D A (List A)) (before es : List (Entry (List A))) → IsSound columns r →
        DrawNone columns decoration (map call calls) r → Brings columns decoration calls r es s →
        Shows columns r before → Shows columns s (before ++ es) }
{}

/// After any calls, rows and footnotes what they brought, except the open run, is in the lines of text, or is a marker
/// that waits. The visible characters and the markers are there once and in order, and in `Normal` so are all kept
/// characters. No marker waits that has a visible character after it. To a new renderer nothing was brought. Borders
/// that became text by padding aren't counted.
pub fn what_was_brought_stands<D, A>()
    ensures acts { (columns : ℕ → Option ℕ) (decoration : Decoration D A) (acts : List (Act A))
        (r s : Renderer D A (List A)) (borders : List (List (Item (List A)))) (before : List (Entry (List A))) →
        IsSound columns r → run (after_act columns decoration) acts r ≡ done s →
        WithoutDrawnBorders borders (λ q. Stands columns q before) r →
        WithoutDrawnBorders (borders ++ borders_drawn columns decoration acts r)
        (λ q. Stands columns q (acts_come columns decoration acts r before)) s }
    ensures from_new { (columns : ℕ → Option ℕ) (decoration : Decoration D A) (width : ℕ) (options : RenderOptions)
        (decorator : D) (acts : List (Act A)) (s : Renderer D A (List A)) →
        let r = new_renderer {D = D} {A = A} width options decorator in
        IsSound columns r → run (after_act columns decoration) acts r ≡ done s →
        WithoutDrawnBorders (borders_drawn columns decoration acts r)
        (λ q. Stands columns q (acts_come columns decoration acts r [])) s }
    ensures undrawn { (columns : ℕ → Option ℕ) (decoration : Decoration D A) (acts : List (Act A))
        (r s : Renderer D A (List A)) (before : List (Entry (List A))) → IsSound columns r →
        DrawNone columns decoration acts r → run (after_act columns decoration) acts r ≡ done s →
        Stands columns r before → Stands columns s (acts_come columns decoration acts r before) }
    ensures new { (columns : ℕ → Option ℕ) (width : ℕ) (options : RenderOptions) (decorator : D) →
        Stands columns (new_renderer {D = D} {A = A} width options decorator) [] }
{}

/// What a flush puts into lines, and which markers wait after it. These are after the last visible character of the
/// run, and in a `Normal` run after the last kept one. Markers that waited before count as the first of the run. The
/// kept characters and the markers of a `Normal` run are in order after all that was in lines or waited. Where it may
/// not overflow, only its trailing markers wait.
pub fn what_a_flush_makes_stand<D, A>()
    ensures { (columns : ℕ → Option ℕ) (r s : Renderer D A (List A)) → IsSound columns r →
        after_flush columns r ≡ done s → FlushStands columns (open_run r.block) r s }
{}

/// After any calls, rows and footnotes the markers that wait begin the next line of text, and until then they wait. A
/// border that became text by padding doesn't count as such a line. Calls alone change no line that there was.
pub fn waiting_markers_begin_the_next_text<D, A>()
    ensures acts { (columns : ℕ → Option ℕ) (decoration : Decoration D A) (acts : List (Act A))
        (r s : Renderer D A (List A)) → run (after_act columns decoration) acts r ≡ done s →
        WaitForText (borders_drawn columns decoration acts r) r s }
    ensures undrawn { (columns : ℕ → Option ℕ) (decoration : Decoration D A) (acts : List (Act A))
        (r s : Renderer D A (List A)) → DrawNone columns decoration acts r →
        run (after_act columns decoration) acts r ≡ done s → WaitForText [] r s }
    ensures calls { (columns : ℕ → Option ℕ) (decoration : Decoration D A) (calls : List (Call (List A)))
        (r s : Renderer D A (List A)) → Steps columns decoration calls r s →
        (waits : WaitForText (borders_drawn columns decoration (map call calls) r) r s) × (waits.kept ≡ r.lines) }
    ensures undrawn_calls { (columns : ℕ → Option ℕ) (decoration : Decoration D A) (calls : List (Call (List A)))
        (r s : Renderer D A (List A)) → DrawNone columns decoration (map call calls) r →
        Steps columns decoration calls r s → (waits : WaitForText [] r s) × (waits.kept ≡ r.lines) }
{}

/// The lines of a run stay together for good, where a flush put them: the first after the markers that waited, and each
/// with its padding. After any number of lines no legal layout of a `Normal` run that may not overflow has placed more
/// of it.
pub fn a_run_is_one_stretch<D, A>()
    ensures { (columns : ℕ → Option ℕ) (decoration : Decoration D A) (calls : List (Call (List A)))
        (r q s : Renderer D A (List A)) (b : Open (List A)) → IsSound columns r → r.block ≡ Some b →
        after_flush columns r ≡ done q → Steps columns decoration calls q s → StandsAsStretch columns r b s.lines }
{}

/// After any calls the run of an open block is still open, or it has ended as one stretch of the lines. The stretch
/// also has the first of the entries that were added, and comes after all lines that there were.
pub fn each_open_run_ends_as_one_stretch<D, A>()
    ensures { (columns : ℕ → Option ℕ) (decoration : Decoration D A) (calls : List (Call (List A)))
        (r s : Renderer D A (List A)) (b : Open (List A)) (es : List (Entry (List A))) → IsSound columns r →
        r.block ≡ Some b → Brings columns decoration calls r es s →
        StaysOpen r b es s ⊎ EndsAsStretch columns r b es s }
{}

/// The lines that calls add are the stretches of the runs that they end, the texts that they lay, such as empty lines,
/// and their borders, each added to the renderer of that moment. What the calls brought is these runs and the entries
/// of these texts, one after another, and then the run that is open. Calls that append nothing add only stretches and
/// empty lines.
pub fn lines_are_stretches_laid_texts_and_borders<D, A>()
    ensures calls { (columns : ℕ → Option ℕ) (decoration : Decoration D A) (calls : List (Call (List A)))
        (r s : Renderer D A (List A)) (es : List (Entry (List A))) → IsSound columns r →
        Brings columns decoration calls r es s → let parts = calls_add columns decoration calls r in
        ComesInParts columns parts r es s
        × (flat_map borders_of_part parts ≡ flat_map (borders_added r.width r.options) calls) }
    ensures own { (columns : ℕ → Option ℕ) (decoration : Decoration D A) (calls : List (Call (List A)))
        (r s : Renderer D A (List A)) → IsSound columns r → Each AppendsNothing calls →
        Steps columns decoration calls r s → Each IsOwnPart (calls_add columns decoration calls r) }
{}
