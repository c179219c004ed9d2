//! The laws of blocks, each as the contract of a function that does nothing.
ghost use Rattle.std.specs.Prelude.{◌≡◌, ◌↔◌, ℕ, ◌<◌, ◌≤◌, ◌++◌, ◌∷◌, [], true, false, Bool, Option, None, Some, IfSome, List, length, map, take, ◌⊎◌};
ghost use Rattle.std.specs.Option.{option_map};
ghost use Rattle.std.specs.List.{AllZip};
ghost use Rattle.tbr_model.specs.declared.white_space.WhiteSpace.{WhiteSpace};
ghost use Rattle.tbr_model.specs.Run.{Item, Entry, trailing};
ghost use Rattle.tbr_model.specs.Mapped.{map_items, map_lines, map_run};
ghost use Rattle.tbr_model.specs.Hard.{is_visible};
ghost use Rattle.tbr_model.specs.Layout.{slots_of, joined, HasLegalLines};
ghost use Rattle.tbr_model.specs.Markers.{names_in_items, names_in_run, marker_run, names_after, last};
ghost use Rattle.tbr_model.specs.Rule.{run_of, waiting};
ghost use Rattle.tbr_model.specs.Run.{kept_items};
ghost use Rattle.tbr_model.specs.Shown.{without_spaces, run_shows_columns};
ghost use Rattle.tbr_tagged.specs.Elements.{Element, items_of};
ghost use Rattle.tbr_tagged.specs.Mapped.{MeansEqual};
ghost use Rattle.tbr_tagged.specs.Outcome.{done, refused};
ghost use Rattle.tbr_tagged.specs.declared.error.Error.TheVariants as E;
ghost use Rattle.tbr_wrap.specs.Block.{Block, new_block, settings_of, lines, all_lines, left, takes_no_columns, has_no_character, loose, waiting_names, after_text, after_marker};
ghost use Rattle.tbr_wrap.specs.Block.{after_taking, after_flush, after_line, lines_handed_out, progress_of, IsSound, WrapsNormally, RunDecides};
ghost use Rattle.tbr_wrap.specs.Wrapped.{ShowsText, WordsFit, EndedWordsFit, padding_of};
ghost use Rattle.tbr_wrap.specs.Runs.{IsNormal, CharactersFit, VisibleFit, AreLastOf, EndsRun, is_some_list, text_entries};

/// The lines that are handed out one by one, and then those that are left, are in order the lines that were left
/// before. The run stays as it was. So the lines of `next_line`, and then those of `into_lines`, are what `into_lines`
/// alone gives.
pub fn lines_are_handed_out_in_order<T>()
    ensures lines { (columns : ℕ → Option ℕ) (n : ℕ) (s : Block T) →
        take n (left columns s) ++ left columns (lines_handed_out n s) ≡ left columns s }
    ensures run { (n : ℕ) (s : Block T) → (lines_handed_out n s).events ≡ s.events }
    ensures settings { (n : ℕ) (s : Block T) → settings_of (lines_handed_out n s) ≡ settings_of s }
{}

/// Lines that a text or a flush ends are added after those that are left. A flush ends none where the open line and the
/// word have no character, and a marker never ends one.
pub fn lines_join_after_those_left<T>()
    ensures text { (columns : ℕ → Option ℕ) (s t : Block T) (cs : List ℕ) (a b : T) (mode : WhiteSpace) →
        IsSound columns s → after_text columns cs a b mode s ≡ done t → (more : List (List (Item T)))
        × (lines columns t ≡ lines columns s ++ more) × (left columns t ≡ left columns s ++ more) }
    ensures flushed { (columns : ℕ → Option ℕ) (s t : Block T) → IsSound columns s → after_flush columns s ≡ done t →
        (more : List (List (Item T)))
        × (all_lines columns s ≡ lines columns s ++ more) × (left columns t ≡ left columns s ++ more) }
    ensures blank { (columns : ℕ → Option ℕ) (s t : Block T) → after_flush columns s ≡ done t →
        has_no_character columns s ≡ true → left columns t ≡ left columns s }
    ensures marker { (columns : ℕ → Option ℕ) (s t : Block T) (name : List ℕ) → after_marker name s ≡ done t →
        lines columns t ≡ lines columns s }
{}

/// After any calls a block has at least one column, and its ended lines are no wider than it allows. Only such lines
/// are handed out.
pub fn blocks_stay_sound<T>()
    ensures new { (columns : ℕ → Option ℕ) (width : ℕ) (may_overflow : Bool) (padding : Option T) → 0 < width →
        IsSound columns (new_block width may_overflow padding) }
    ensures text { (columns : ℕ → Option ℕ) (s t : Block T) (cs : List ℕ) (a b : T) (mode : WhiteSpace) →
        IsSound columns s → after_text columns cs a b mode s ≡ done t → IsSound columns t }
    ensures marker { (columns : ℕ → Option ℕ) (s t : Block T) (name : List ℕ) → IsSound columns s →
        after_marker name s ≡ done t → IsSound columns t }
    ensures markers_taken { (columns : ℕ → Option ℕ) (s t : Block T) → IsSound columns s →
        after_taking columns s ≡ done t → IsSound columns t }
    ensures flushed { (columns : ℕ → Option ℕ) (s t : Block T) → IsSound columns s →
        after_flush columns s ≡ done t → IsSound columns t }
    ensures line { (columns : ℕ → Option ℕ) (s t : Block T) → IsSound columns s →
        after_line columns s ≡ done t → IsSound columns t }
{}

/// A flush leaves nothing open: the open line and the word have no character, and take no columns. The next run has
/// just the markers that wait, which are loose. If these are taken out, nothing is open.
pub fn flushes_leave_nothing_open<T>()
    ensures character { (columns : ℕ → Option ℕ) (s t : Block T) → after_flush columns s ≡ done t →
        has_no_character columns t ≡ true }
    ensures columns { (columns : ℕ → Option ℕ) (s t : Block T) → after_flush columns s ≡ done t →
        takes_no_columns columns t ≡ true }
    ensures run { (columns : ℕ → Option ℕ) (s t : Block T) → after_flush columns s ≡ done t →
        run_of t.events ≡ marker_run (waiting_names columns s) }
    ensures loose { (columns : ℕ → Option ℕ) (s t : Block T) → after_flush columns s ≡ done t →
        loose columns t ≡ waiting_names columns s }
    ensures markers_taken { (columns : ℕ → Option ℕ) (s t u : Block T) → after_flush columns s ≡ done t →
        after_taking columns t ≡ done u → has_no_character columns u ≡ true }
{}

/// A flush leaves the lines and the markers of a run that `EndsRun` promises, field by field.
pub fn runs_end_as_promised<T>()
    ensures { (columns : ℕ → Option ℕ) → columns 32 ≡ Some 1 → (s t : Block T) → 0 < s.width →
        after_flush columns s ≡ done t → EndsRun columns s.width s.may_overflow (run_of s.events) (all_lines columns s)
        (waiting_names columns s) }
{}

/// In a `Normal` run where no line may be wider than the block, the kept characters decide what is open. In any run,
/// after a visible character that takes columns, a line has ended or something is open.
pub fn runs_decide_what_is_open<T>()
    ensures normal { (columns : ℕ → Option ℕ) → columns 32 ≡ Some 1 → (s : Block T) → IsSound columns s →
        WrapsNormally s → RunDecides columns s }
    ensures shows { (columns : ℕ → Option ℕ) (s : Block T) → run_shows_columns columns (run_of s.events) ≡ true →
        (is_some_list (lines columns s) ≡ true) ⊎ (takes_no_columns columns s ≡ false) }
    ensures character { (columns : ℕ → Option ℕ) → columns 32 ≡ Some 1 → (s : Block T) → IsSound columns s →
        takes_no_columns columns s ≡ false → has_no_character columns s ≡ false }
{}

/// The loose markers are the last ones of the run, after its last visible character. In a `Normal` run, where no line
/// may be wider than the block, they are those after its last kept one.
pub fn loose_markers_are_last<T>()
    ensures last { (columns : ℕ → Option ℕ) (s : Block T) →
        loose columns s ≡ last (length (loose columns s)) (names_in_run (run_of s.events)) }
    ensures visible { (columns : ℕ → Option ℕ) (s : Block T) →
        AreLastOf (loose columns s) (names_after (is_visible columns) (run_of s.events)) }
    ensures trailing { (columns : ℕ → Option ℕ) → columns 32 ≡ Some 1 → (s : Block T) → IsSound columns s →
        WrapsNormally s → loose columns s ≡ names_in_items (trailing columns (run_of s.events)) }
{}

/// A marker changes no line and no column. It is loose where no character is in its word, and so where none is open.
pub fn markers_join_the_word<T>()
    ensures columns { (columns : ℕ → Option ℕ) (s t : Block T) (name : List ℕ) → after_marker name s ≡ done t →
        takes_no_columns columns t ≡ takes_no_columns columns s }
    ensures character { (columns : ℕ → Option ℕ) (s t : Block T) (name : List ℕ) → after_marker name s ≡ done t →
        has_no_character columns t ≡ has_no_character columns s }
    ensures either { (columns : ℕ → Option ℕ) (s t : Block T) (name : List ℕ) → after_marker name s ≡ done t →
        (loose columns t ≡ loose columns s ++ name ∷ []) ⊎ ((loose columns s ≡ []) × (loose columns t ≡ [])) }
    ensures first { (columns : ℕ → Option ℕ) (s t : Block T) (name : List ℕ) → after_marker name s ≡ done t →
        has_no_character columns s ≡ true → loose columns t ≡ loose columns s ++ name ∷ [] }
{}

/// Adding a text answers `TooNarrow` only where no line may be wider than the block, and a character of the run is. In
/// a `Normal` run it does exactly where that character is in a word that a break point has ended. In two columns it
/// never does.
pub fn texts_are_too_narrow_for_characters<T>()
    ensures fits { (columns : ℕ → Option ℕ) → columns 32 ≡ Some 1 → (s t : Block T) (cs : List ℕ) (a b : T)
        (mode : WhiteSpace) → 0 < s.width → after_text columns cs a b mode s ≡ done t → s.may_overflow ≡ false →
        let run = run_of s.events ++ text_entries cs a b mode in IsNormal run → EndedWordsFit columns s.width run }
    ensures wide { (columns : ℕ → Option ℕ) → columns 32 ≡ Some 1 → (s : Block T) (cs : List ℕ) (a b : T)
        (mode : WhiteSpace) → 0 < s.width → s.failure ≡ None →
        after_text columns cs a b mode s ≡ refused E.TooNarrow → (s.may_overflow ≡ false)
        × ¬ (CharactersFit columns s.width (run_of s.events ++ text_entries cs a b mode)) }
    ensures normal { (columns : ℕ → Option ℕ) → columns 32 ≡ Some 1 → (s : Block T) (cs : List ℕ) (a b : T)
        (mode : WhiteSpace) → 0 < s.width → s.failure ≡ None →
        after_text columns cs a b mode s ≡ refused E.TooNarrow →
        let run = run_of s.events ++ text_entries cs a b mode in IsNormal run → ¬ (EndedWordsFit columns s.width run) }
    ensures two_columns { (columns : ℕ → Option ℕ) → columns 32 ≡ Some 1 → ((c : ℕ) → IfSome (columns c) (λ n. n ≤ 2)) →
        (s : Block T) (cs : List ℕ) (a b : T) (mode : WhiteSpace) → 2 ≤ s.width → s.failure ≡ None →
        ¬ (after_text columns cs a b mode s ≡ refused E.TooNarrow) }
{}

/// A flush answers `TooNarrow` only where no line may be wider than the block, and a character of the run is. It always
/// does where such a character is visible, and in a `Normal` run exactly where one is in a word. In two columns it
/// never does.
pub fn flushes_are_too_narrow_for_characters<T>()
    ensures fits { (columns : ℕ → Option ℕ) → columns 32 ≡ Some 1 → (s t : Block T) → 0 < s.width →
        after_flush columns s ≡ done t → s.may_overflow ≡ false → IsNormal (run_of s.events) →
        WordsFit columns s.width (run_of s.events) }
    ensures visible { (columns : ℕ → Option ℕ) → columns 32 ≡ Some 1 → (s t : Block T) → 0 < s.width →
        after_flush columns s ≡ done t → s.may_overflow ≡ false → VisibleFit columns s.width (run_of s.events) }
    ensures wide { (columns : ℕ → Option ℕ) → columns 32 ≡ Some 1 → (s : Block T) → 0 < s.width → s.failure ≡ None →
        after_flush columns s ≡ refused E.TooNarrow →
        (s.may_overflow ≡ false) × ¬ (CharactersFit columns s.width (run_of s.events)) }
    ensures normal { (columns : ℕ → Option ℕ) → columns 32 ≡ Some 1 → (s : Block T) → 0 < s.width → s.failure ≡ None →
        after_flush columns s ≡ refused E.TooNarrow → IsNormal (run_of s.events) →
        ¬ (WordsFit columns s.width (run_of s.events)) }
    ensures two_columns { (columns : ℕ → Option ℕ) → columns 32 ≡ Some 1 → ((c : ℕ) → IfSome (columns c) (λ n. n ≤ 2)) →
        (s : Block T) → 2 ≤ s.width → s.failure ≡ None → ¬ (after_flush columns s ≡ refused E.TooNarrow) }
{}

/// A line that is handed out has its text and its padding exactly, with each tag as what it means, where equal tags
/// mean the same.
pub fn texts_are_shown_by_meaning<A, B>()
    ensures line { (f : A → B) (eq : A → A → Bool) → MeansEqual f eq →
        (columns : ℕ → Option ℕ) (padding : Option A) (width : ℕ) (es : List (Element A)) (is : List (Item A)) →
        ShowsText columns eq padding width es is →
        map_items f (items_of es)
        ≡ map_items f is ++ padding_of columns (option_map f padding) width (map_items f is) }
    ensures lines { (f : A → B) (eq : A → A → Bool) → MeansEqual f eq →
        (columns : ℕ → Option ℕ) (padding : Option A) (width : ℕ)
        (lines : List (List (Element A))) (texts : List (List (Item A))) →
        AllZip (ShowsText columns eq padding width) lines texts →
        map (λ es. map_items f (items_of es)) lines
        ≡ map (λ is. map_items f is ++ padding_of columns (option_map f padding) width (map_items f is)) texts }
{}

/// A `Normal` run whose lines may not be wider than its block is too narrow exactly where it has no legal layout.
pub fn too_narrow_is_no_legal_layout<T>()
    ensures { (columns : ℕ → Option ℕ) → columns 32 ≡ Some 1 → (s : Block T) → 0 < s.width →
        s.failure ≡ None → s.may_overflow ≡ false → IsNormal (run_of s.events) →
        (after_flush columns s ≡ refused E.TooNarrow)
        ↔ ¬ (HasLegalLines s.width (slots_of columns s.width (run_of s.events))) }
{}

/// The lines of a `Normal` run, and then what waits, have its kept characters and its markers, in order, each character
/// under its own tag. This also holds in a word under two tags, in one that is cut, and where lines may be wider.
pub fn words_keep_their_tags<T>()
    ensures { (columns : ℕ → Option ℕ) (s : Block T) → IsNormal (run_of s.events) →
        without_spaces (joined (all_lines columns s)) ++ waiting columns s.width (progress_of columns s)
        ≡ kept_items columns (run_of s.events) }
{}
