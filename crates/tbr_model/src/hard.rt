//! The laws of the rule by which a block goes on, each as the contract of a function that does nothing.
ghost use Rattle.std.specs.Prelude.{◌≡◌, ◌≢◌, ℕ, ◌<◌, Bool, true, Option, Some, List, [], map};
ghost use Rattle.std.specs.List.{AllByRecursion as Each};
ghost use Rattle.tbr_model.specs.declared.white_space.WhiteSpace.{WhiteSpace};
ghost use Rattle.tbr_model.specs.declared.white_space.WhiteSpace.TheVariants.{Normal, Pre, PreWrap};
ghost use Rattle.tbr_model.specs.Codes.{space_character};
ghost use Rattle.tbr_model.specs.Layout.{Slot, slots_of, line_text, AllItemsFit, IsBest};
ghost use Rattle.tbr_model.specs.Rule.{Event, run_of, lines_of};
ghost use Rattle.tbr_model.specs.Hard.{AllHaveMode, Preserves, hard_lines, Parted, IsCutEvery, IsWrapped, ShowsHardLine, ShowsPre, ShowsPreWrap, ShowsTabs};

/// In a run of preserving modes each hard line has lines of its own. Its visible characters are on them once, in order,
/// each under an annotation of its call. A newline ends a line, even an empty one. Spaces alone leave an empty line
/// before a newline, and no line at the end of the run.
#[tactic(auto, using(crate::proofs::rule::VisibleCharacters::hard_lines_shown))]
pub fn hard_lines_are_shown<T>()
    ensures { (columns : ℕ → Option ℕ) (width : ℕ) (eq : T → T → Bool) → ((x : T) → eq x x ≡ true) →
        (es : List (Event T)) → Each Preserves (run_of es) →
        Parted (ShowsHardLine columns (λ a b. eq a b ≡ true)) (hard_lines (run_of es)) (lines_of columns width es) }
{}

/// In a run of `Pre` alone each hard line keeps its characters, in order. A hard line of printable characters that
/// aren't all spaces is one line where it fits. Otherwise, if it begins with a non-blank, it is cut after every `width`
/// characters, and those after the first cut have the continuation annotation. Spaces alone leave an empty line before
/// a newline, and no line at the end of the run.
#[tactic(auto, using(crate::proofs::pre::HardLine::pre_shown))]
pub fn pre_lines_are_shown<T>()
    ensures { (columns : ℕ → Option ℕ) (eq : T → T → Bool) (width : ℕ) →
        columns space_character ≡ Some 1 → 0 < width → ((x : T) → eq x x ≡ true) →
        (es : List (Event T)) → AllHaveMode Pre (run_of es) →
        Parted (ShowsPre columns (λ a b. eq a b ≡ true) width) (hard_lines (run_of es)) (lines_of columns width es) }
{}

/// In a run of `PreWrap` alone a hard line of printable characters that aren't all spaces is one line where it fits
/// without the spaces at its end. These are dropped. In any case its stretches of non-blanks are shown in order, and a
/// stretch is cut only if it is wider than a line. Spaces are dropped, and a line ends, only where the next stretch
/// doesn't fit. Spaces alone leave an empty line before a newline, and no line at the end of the run.
#[tactic(auto, using(crate::proofs::prewrap::HardLine::prewrap_shown))]
pub fn prewrap_lines_are_shown<T>()
    ensures { (columns : ℕ → Option ℕ) (width : ℕ) → columns space_character ≡ Some 1 → 0 < width →
        (es : List (Event T)) → AllHaveMode PreWrap (run_of es) →
        Parted (ShowsPreWrap columns width) (hard_lines (run_of es)) (lines_of columns width es) }
{}

/// In a run of one preserving mode, a hard line of printable characters and tabs that ends with a non-blank shows its
/// tabs as spaces. Each goes up to the next multiple of eight, where the hard line then fits a line.
pub fn tabs_are_shown<T>()
    ensures { (columns : ℕ → Option ℕ) (width : ℕ) → columns space_character ≡ Some 1 → 0 < width →
        (mode : WhiteSpace) → mode ≢ Normal →
        (es : List (Event T)) → AllHaveMode mode (run_of es) →
        Parted (ShowsTabs columns width) (hard_lines (run_of es)) (lines_of columns width es) }
{}

/// In a run of `Normal` alone, where no item is wider than a line, the lines are the texts of the best layout of its
/// words.
pub fn rule_is_best<T>()
    ensures { (columns : ℕ → Option ℕ) (width : ℕ) (es : List (Event T)) →
        AllHaveMode Normal (run_of es) → AllItemsFit columns width (run_of es) →
        (lines : List (List (Slot T))) × IsBest width (slots_of columns width (run_of es)) lines
        × (lines_of columns width es ≡ map line_text lines) }
{}

/// There is only one way to cut a text after every `width` characters, and only one way to wrap it.
#[tactic(auto, using(crate::proofs::pre::OneCut::cut_in_one_way, crate::proofs::prewrap::OneWay::wrapped_in_one_way))]
pub fn texts_wrap_in_one_way()
    ensures cut { (width : ℕ) (text : List ℕ) (lines others : List (List ℕ)) →
        IsCutEvery width text lines → IsCutEvery width text others → others ≡ lines }
    ensures wrapped { (width : ℕ) (text : List ℕ) (lines others : List (List ℕ)) →
        IsWrapped width [] text lines → IsWrapped width [] text others → others ≡ lines }
{}
