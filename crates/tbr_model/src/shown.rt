//! The laws of what the lines of a run show, and what waits after them, each as the contract of a function that does
//! nothing.
ghost use Rattle.std.specs.Prelude.{◌≡◌, ◌≢◌, ℕ, ◌≤◌, ◌⊎◌, Bool, true, false, Option, List, [], ◌++◌, length};
ghost use Rattle.std.specs.List.{AllByRecursion as Each};
ghost use Rattle.tbr_model.specs.Codes.{tab_character, newline_character};
ghost use Rattle.tbr_model.specs.Run.{Entry, character, Item, is_kept, kept_items, trailing};
ghost use Rattle.tbr_model.specs.Layout.{joined};
ghost use Rattle.tbr_model.specs.Markers.{names_in_items, names_in_run, names_after, marker_items, marker_run, without_last_markers};
ghost use Rattle.tbr_model.specs.Rule.{Event, run_of, Progress, enter, progress, finished, lines_of, waiting};
ghost use Rattle.tbr_model.specs.declared.white_space.WhiteSpace.{WhiteSpace};
ghost use Rattle.tbr_model.specs.declared.white_space.WhiteSpace.TheVariants.{Normal};
ghost use Rattle.tbr_model.specs.Hard.{AllHaveMode, entry_letters, is_visible, ShowsVisible};
ghost use Rattle.tbr_model.specs.Shown.{without_spaces, names_waiting, InventsNothing, ComesWithRun, ShowsInOrder, IsNotPre, ShowsOwn, run_shows_columns, HasColumns, columns_so_far};
ghost use Rattle.tbr_model.specs.Shown.{next_stop, is_newline_or_tab, HasOneMore, EndWhereFull, word_lines};

/// The visible characters of a run are on its lines once, in order, each under an annotation of its call. Its markers
/// are on the lines once, in order, or wait.
#[tactic(auto, using(crate::proofs::rule::VisibleCharacters::visible_shown, crate::proofs::rule::Markers::markers_at_end))]
pub fn visible_characters_are_shown<T>()
    ensures characters { (columns : ℕ → Option ℕ) (width : ℕ) (eq : T → T → Bool) → ((x : T) → eq x x ≡ true) →
        (es : List (Event T)) → ShowsVisible columns (λ a b. eq a b ≡ true) (run_of es) (lines_of columns width es) }
    ensures markers { (columns : ℕ → Option ℕ) (width : ℕ) (es : List (Event T)) →
        names_in_items (joined (lines_of columns width es)) ++ names_waiting columns width es
        ≡ names_in_run (run_of es) }
{}

/// The visible characters and the markers of a run are once and in order on its lines, and after these among what
/// waits. So each marker stays between the same visible characters.
pub fn order_is_kept<T>()
    ensures { (columns : ℕ → Option ℕ) (width : ℕ) (eq : T → T → Bool) → ((x : T) → eq x x ≡ true) →
        (es : List (Event T)) → ShowsInOrder columns (λ a b. eq a b ≡ true) (run_of es)
        (lines_of columns width es) (names_waiting columns width es) }
{}

/// Where no character of a run has the mode `Pre`, its visible characters are on its lines once, in order, each under
/// its own annotation.
#[tactic(auto, using(crate::proofs::lines::OwnAnnotations::own_shown))]
pub fn only_pre_is_continued<T>()
    ensures { (columns : ℕ → Option ℕ) (width : ℕ) (eq : T → T → Bool) → ((x : T) → eq x x ≡ true) →
        (es : List (Event T)) → Each IsNotPre (run_of es) →
        ShowsOwn columns (λ a b. eq a b ≡ true) (run_of es) (lines_of columns width es) }
{}

/// The markers that wait where a run ends come after its last visible character, and in a run of `Normal` alone after
/// its last kept one.
#[tactic(auto, using(crate::proofs::lines::WaitingMarkers::waits_after_visible, crate::proofs::lines::WaitingMarkers::waits_after_kept))]
pub fn waiting_markers_end_a_run<T>()
    ensures visible { (columns : ℕ → Option ℕ) (width : ℕ) (es : List (Event T)) →
        (front : List (List ℕ))
        × (front ++ names_waiting columns width es ≡ names_after (is_visible columns) (run_of es)) }
    ensures kept { (columns : ℕ → Option ℕ) (width : ℕ) (es : List (Event T)) → AllHaveMode Normal (run_of es) →
        (front : List (List ℕ))
        × (front ++ names_waiting columns width es ≡ names_after (is_kept columns) (run_of es)) }
{}

/// A run of `Normal` alone keeps its items, whatever the width. Its kept characters and its markers are in order on its
/// lines, and after these among what waits, each character under its own annotation. Only the spaces of gaps are added.
#[tactic(auto, using(crate::proofs::lines::NormalItems::normal_keeps))]
pub fn normal_items_are_kept<T>()
    ensures { (columns : ℕ → Option ℕ) (width : ℕ) (es : List (Event T)) → AllHaveMode Normal (run_of es) →
        without_spaces (joined (lines_of columns width es)) ++ waiting columns width (progress columns width es)
        ≡ kept_items columns (run_of es) }
{}

/// The lines of a run have only its visible characters, its markers, and white space under its annotations.
pub fn nothing_is_invented<T>()
    ensures { (columns : ℕ → Option ℕ) (width : ℕ) (eq : T → T → Bool) → ((x : T) → eq x x ≡ true) →
        (es : List (Event T)) → InventsNothing columns (λ a b. eq a b ≡ true) (run_of es) (lines_of columns width es) }
{}

/// Each character on the lines of a run is U+0020 or a character of the run, under an annotation that the run has.
pub fn characters_come_with_the_run<T>()
    ensures { (columns : ℕ → Option ℕ) (width : ℕ) (eq : T → T → Bool) → ((x : T) → eq x x ≡ true) →
        (es : List (Event T)) →
        Each (ComesWithRun (λ a b. eq a b ≡ true) (run_of es)) (joined (lines_of columns width es)) }
{}

/// A run without a character ends no line, and all its markers wait.
#[tactic(auto, using(crate::proofs::lines::MarkersAlone::line_laws))]
pub fn markers_alone_end_no_line<T>()
    ensures under_way { (columns : ℕ → Option ℕ) (width : ℕ) (es : List (Event T)) →
        entry_letters (run_of es) ≡ [] → (progress columns width es).laid.done ≡ [] }
    ensures lines { (columns : ℕ → Option ℕ) (width : ℕ) (es : List (Event T)) →
        entry_letters (run_of es) ≡ [] → lines_of columns width es ≡ [] }
    ensures wait { (columns : ℕ → Option ℕ) (width : ℕ) (es : List (Event T)) →
        entry_letters (run_of es) ≡ [] → names_waiting columns width es ≡ names_in_run (run_of es) }
{}

/// A run of markers alone counts as `Normal`, all its markers are trailing, and without them it is empty.
#[tactic(auto, using(crate::proofs::lines::MarkersAlone::name_laws))]
pub fn markers_alone_are_trailing<T>()
    ensures normal { (names : List (List ℕ)) → AllHaveMode {A = T} Normal (marker_run names) }
    ensures trailing { (columns : ℕ → Option ℕ) (names : List (List ℕ)) →
        trailing {A = T} columns (marker_run names) ≡ marker_items names }
    ensures names { (names : List (List ℕ)) → names_in_run {A = T} (marker_run names) ≡ names }
    ensures taken_out { (names : List (List ℕ)) →
        without_last_markers {A = T} (length names) (marker_run names) ≡ [] }
{}

/// After a visible character that takes columns, a line has ended, or the open line or the word takes columns.
#[tactic(auto, using(crate::proofs::lines::Columns::columns_show))]
pub fn columns_are_shown<T>()
    ensures { (columns : ℕ → Option ℕ) (width : ℕ) (es : List (Event T)) →
        run_shows_columns columns (run_of es) ≡ true → HasColumns columns (progress columns width es) }
{}

/// A line ends only at a newline in a preserving mode, or where what comes next doesn't fit. Suppose that an open line,
/// space that waits and a word fit a line together. Then a newline ends one line, and the end of the run at most one. A
/// tab ends none if its next stop is on the line, and no other entry ends any. A word that begins a line is cut only
/// where the next item that takes columns doesn't fit.
#[tactic(auto, using(crate::proofs::lines::LineEnds::end_laws, crate::proofs::lines::CutWords::word_ends_full))]
pub fn lines_end_where_full<T>()
    ensures entry { (columns : ℕ → Option ℕ) (width : ℕ) (p : Progress T) (e : Entry T) →
        columns_so_far columns p ≤ width → is_newline_or_tab e ≡ false →
        (enter columns width p e).laid.done ≡ p.laid.done }
    ensures tab { (columns : ℕ → Option ℕ) (width : ℕ) (p : Progress T) (a b : T) (mode : WhiteSpace) →
        mode ≢ Normal → next_stop (columns_so_far columns p) ≤ width →
        (enter columns width p (character tab_character a b mode)).laid.done ≡ p.laid.done }
    ensures newline { (columns : ℕ → Option ℕ) (width : ℕ) (p : Progress T) (a b : T) (mode : WhiteSpace) →
        mode ≢ Normal → columns_so_far columns p ≤ width →
        HasOneMore p.laid.done (enter columns width p (character newline_character a b mode)).laid.done }
    ensures end { (columns : ℕ → Option ℕ) (width : ℕ) (p : Progress T) → columns_so_far columns p ≤ width →
        ((finished columns width p).done ≡ p.laid.done) ⊎ HasOneMore p.laid.done (finished columns width p).done }
    ensures word { (columns : ℕ → Option ℕ) (width : ℕ) (word : List (Item T)) →
        EndWhereFull columns width (word_lines columns width word) }
{}
