//! The laws of runs under other annotations, each as the contract of a function that does nothing.
ghost use Rattle.std.specs.Prelude.{◌≡◌, ℕ, Bool, true, Option, List, map};
ghost use Rattle.tbr_model.specs.Run.{Entry, Item, words_of, trailing};
ghost use Rattle.tbr_model.specs.Rule.{Event, Progress, progress, finished, waiting};
ghost use Rattle.tbr_model.specs.Layout.{Slot, slots_of, line_text, IsBest};
ghost use Rattle.tbr_model.specs.Hard.{hard_lines, Parted, ShowsVisible, ShowsHardLine, ShowsPre, ShowsPreWrap, ShowsTabs};
ghost use Rattle.tbr_model.specs.Mapped.{map_items, map_run, map_word, map_slots, map_layout, map_lines, map_events, map_laid, map_progress, KeepsEqual};

/// The annotations of a run don't change how it is laid out.
#[tactic(auto, using(crate::proofs::maps::Layouts::layout_maps))]
pub fn annotations_change_no_layout<A, B>()
    ensures words { (f : A → B) (columns : ℕ → Option ℕ) (run : List (Entry A)) →
        words_of columns (map_run f run) ≡ map (map_word f) (words_of columns run) }
    ensures trailing { (f : A → B) (columns : ℕ → Option ℕ) (run : List (Entry A)) →
        trailing columns (map_run f run) ≡ map_items f (trailing columns run) }
    ensures slots { (f : A → B) (columns : ℕ → Option ℕ) (width : ℕ) (run : List (Entry A)) →
        slots_of columns width (map_run f run) ≡ map_slots f (slots_of columns width run) }
    ensures texts { (f : A → B) (line : List (Slot A)) →
        line_text (map_slots f line) ≡ map_items f (line_text line) }
    ensures best { (f : A → B) (width : ℕ) (slots : List (Slot A)) (lines : List (List (Slot A))) →
        IsBest width slots lines → IsBest width (map_slots f slots) (map_layout f lines) }
{}

/// If a function replaces the annotations of a run, the block does the same steps, and the function also replaces the
/// annotations in what they leave.
#[tactic(auto, using(crate::proofs::maps::Rule::rule_maps))]
pub fn annotations_change_no_progress<A, B>()
    ensures progress { (f : A → B) (columns : ℕ → Option ℕ) (width : ℕ) (es : List (Event A)) →
        progress columns width (map_events f es) ≡ map_progress f (progress columns width es) }
    ensures finished { (f : A → B) (columns : ℕ → Option ℕ) (width : ℕ) (p : Progress A) →
        finished columns width (map_progress f p) ≡ map_laid f (finished columns width p) }
    ensures waiting { (f : A → B) (columns : ℕ → Option ℕ) (width : ℕ) (p : Progress A) →
        waiting columns width (map_progress f p) ≡ map_items f (waiting columns width p) }
{}

/// Other annotations don't change what is shown of a run's hard lines, if annotations that are equal stay equal.
pub fn annotations_change_no_hard_line<A, B>()
    ensures lines { (f : A → B) (run : List (Entry A)) →
        hard_lines (map_run f run) ≡ map (map_run f) (hard_lines run) }
    ensures visible { (f : A → B) (eq : A → A → Bool) (other : B → B → Bool) → KeepsEqual f eq other →
        (columns : ℕ → Option ℕ) (run : List (Entry A)) (lines : List (List (Item A))) →
        ShowsVisible columns (λ a b. eq a b ≡ true) run lines →
        ShowsVisible columns (λ a b. other a b ≡ true) (map_run f run) (map_lines f lines) }
    ensures hard { (f : A → B) (eq : A → A → Bool) (other : B → B → Bool) → KeepsEqual f eq other →
        (columns : ℕ → Option ℕ) (run : List (Entry A)) (lines : List (List (Item A))) →
        Parted (ShowsHardLine columns (λ a b. eq a b ≡ true)) (hard_lines run) lines →
        Parted (ShowsHardLine columns (λ a b. other a b ≡ true)) (hard_lines (map_run f run)) (map_lines f lines) }
    ensures pre { (f : A → B) (eq : A → A → Bool) (other : B → B → Bool) → KeepsEqual f eq other →
        (columns : ℕ → Option ℕ) (width : ℕ) (run : List (Entry A)) (lines : List (List (Item A))) →
        Parted (ShowsPre columns (λ a b. eq a b ≡ true) width) (hard_lines run) lines →
        Parted (ShowsPre columns (λ a b. other a b ≡ true) width) (hard_lines (map_run f run)) (map_lines f lines) }
    ensures prewrap { (f : A → B) (columns : ℕ → Option ℕ) (width : ℕ) →
        (run : List (Entry A)) (lines : List (List (Item A))) →
        Parted (ShowsPreWrap columns width) (hard_lines run) lines →
        Parted (ShowsPreWrap columns width) (hard_lines (map_run f run)) (map_lines f lines) }
    ensures tabs { (f : A → B) (columns : ℕ → Option ℕ) (width : ℕ) →
        (run : List (Entry A)) (lines : List (List (Item A))) →
        Parted (ShowsTabs columns width) (hard_lines run) lines →
        Parted (ShowsTabs columns width) (hard_lines (map_run f run)) (map_lines f lines) }
{}
