//! The laws of layouts, each as the contract of a function that does nothing.
ghost use Rattle.std.specs.Prelude.{◌≡◌, ◌↔◌, ℕ, ◌+◌, ◌≤◌, ◌<◌, Option, None, Some, IsTrue, List, ◌∷◌, ◌++◌, map, length, flat_map, slice_get, slice_index, slice_range};
ghost use Rattle.std.specs.List.{AllByRecursion as Each};
ghost use Rattle.tbr_model.specs.Run.{Entry, Word, blank_of, kept_items, words_of, trailing};
ghost use Rattle.tbr_model.specs.Regions.{Region, first_blank, IsParted, words_between, markers_left};
ghost use Rattle.tbr_model.specs.Layout.{Slot, word_slots, gap_text, slots_of, joined, placed, line_text, line_has_character, IsLegal, HasLegalLines, AllItemsFit, IsBest, IsGreedy, HasNoEmptyLine};
ghost use Rattle.tbr_model.specs.Cuts.{IsLayout, lines_between, cuts_of, placed_by_cuts, IsLegalLayout, IsBestLayout, with_gap};

/// A legal layout without empty lines, each line as long as a legal one can be, is ahead of every legal layout.
#[tactic(auto, using(crate::proofs::layouts::Ahead::greedy_best))]
pub fn greedy_is_best<T>()
    ensures { (width : ℕ) (slots : List (Slot T)) (lines : List (List (Slot T))) →
        IsLegal width slots lines → HasNoEmptyLine lines → IsGreedy width lines →
        IsBest width slots lines }
{}

/// The best layout has the fewest lines.
#[tactic(auto, using(crate::proofs::layouts::Ahead::fewest))]
pub fn best_has_fewest_lines<T>()
    ensures { (width : ℕ) (slots : List (Slot T)) (lines others : List (List (Slot T))) →
        IsBest width slots lines → IsLegal width slots others →
        length lines ≤ length others }
{}

/// There is only one best layout.
#[tactic(auto, using(crate::proofs::layouts::Ahead::unique))]
pub fn best_is_unique<T>()
    ensures { (width : ℕ) (slots : List (Slot T)) (lines others : List (List (Slot T))) →
        IsBest width slots lines → IsBest width slots others →
        others ≡ lines }
{}

/// A run's words, and the markers after them, hold its kept characters and its markers once, in order.
#[tactic(auto, using(crate::proofs::words::KeptItems::words_hold))]
pub fn words_hold_kept_items<T>()
    ensures { (columns : ℕ → Option ℕ) (run : List (Entry T)) →
        flat_map (λ w. w.items) (words_of columns run) ++ trailing columns run ≡ kept_items columns run }
{}

/// A run has a legal layout exactly where none of its items is wider than a line, and then it has a best one.
pub fn legal_layouts_exist<T>()
    ensures legal { (columns : ℕ → Option ℕ) (width : ℕ) (run : List (Entry T)) →
        HasLegalLines width (slots_of columns width run) ↔ AllItemsFit columns width run }
    ensures best { (columns : ℕ → Option ℕ) (width : ℕ) (run : List (Entry T)) →
        AllItemsFit columns width run →
        (lines : List (List (Slot T))) × IsBest width (slots_of columns width run) lines }
{}

/// Each line of the best layout has a character.
pub fn best_lines_have_characters<T>()
    ensures { (columns : ℕ → Option ℕ) (width : ℕ) (run : List (Entry T)) (lines : List (List (Slot T))) →
        IsBest width (slots_of columns width run) lines →
        Each (λ l. IsTrue (line_has_character l)) lines }
{}

/// The working break points divide every run into regions, in one way only. The run's words and trailing markers are
/// those of its regions, one after another.
#[tactic(auto, using(crate::proofs::words::Regions::words_parted, crate::proofs::words::Regions::parting, crate::proofs::words::Regions::parted_alike))]
pub fn words_stand_between_working_breaks<T>()
    ensures parted { (columns : ℕ → Option ℕ) (run : List (Entry T)) →
        (regions : List (Region T)) × (rest : List (Entry T)) × IsParted columns run regions rest }
    ensures one { (columns : ℕ → Option ℕ) (run : List (Entry T)) →
        (regions others : List (Region T)) (rest other : List (Entry T)) →
        IsParted columns run regions rest → IsParted columns run others other →
        (regions ≡ others) × (rest ≡ other) }
    ensures words { (columns : ℕ → Option ℕ) (run : List (Entry T)) →
        (regions : List (Region T)) (rest : List (Entry T)) →
        IsParted columns run regions rest →
        words_of columns run ≡ words_between columns regions rest }
    ensures left { (columns : ℕ → Option ℕ) (run : List (Entry T)) →
        (regions : List (Region T)) (rest : List (Entry T)) →
        IsParted columns run regions rest →
        trailing columns run ≡ markers_left columns rest }
{}

/// Between neighbouring words of a line is one space if the gap between them is spaced, and otherwise nothing. The gap
/// is spaced exactly where a blank is between them.
#[tactic(auto, using(crate::proofs::words::SpacedGaps::gap_laws))]
pub fn gaps_are_one_space<T>()
    ensures line { (columns : ℕ → Option ℕ) (width : ℕ) (w : Word T) (ws : List (Word T)) →
        Each (λ v. 0 < length v.items) (w ∷ ws) →
        line_text (flat_map (word_slots columns width) (w ∷ ws))
        ≡ w.items ++ flat_map (λ v. gap_text v.gap ++ v.items) ws }
    ensures spaced { (between : List (Entry T)) →
        (first_blank between ≡ None) ↔ Each (λ e. blank_of e ≡ None) between }
{}

/// Layouts as cuts and layouts as lines say the same.
#[tactic(auto, using(crate::proofs::layouts::Cuts::cut_laws))]
pub fn layouts_are_cuts<T>()
    ensures lines { (items : List T) (cuts : List ℕ) → IsLayout (length items) cuts →
        joined (lines_between items cuts) ≡ items }
    ensures line { (items : List T) (cuts : List ℕ) (n : ℕ) → n + 1 < length cuts →
        slice_get (lines_between items cuts) n
        ≡ Some (slice_range items (slice_index cuts n) (slice_index cuts (n + 1))) }
    ensures cuts { (items : List T) (cuts : List ℕ) → IsLayout (length items) cuts →
        cuts_of (lines_between items cuts) ≡ cuts }
    ensures cuts_of_lines { (lines : List (List T)) →
        IsLayout (length (joined lines)) (cuts_of lines)
        × (lines_between (joined lines) (cuts_of lines) ≡ lines) }
    ensures placed { (items : List T) (cuts : List ℕ) (n : ℕ) → IsLayout (length items) cuts →
        placed n (lines_between items cuts) ≡ placed_by_cuts (length items) n cuts }
    ensures legal { (width : ℕ) (slots : List (Slot T)) (cuts : List ℕ) →
        IsLegalLayout width slots cuts
        ↔ (IsLayout (length slots) cuts × IsLegal width slots (lines_between slots cuts)) }
    ensures best { (width : ℕ) (slots : List (Slot T)) (cuts : List ℕ) →
        IsBestLayout width slots cuts
        ↔ (IsLayout (length slots) cuts × IsBest width slots (lines_between slots cuts)) }
{}

/// The gap before the first word doesn't matter: whatever it is, the legal layouts are the same, and so are the texts
/// of their lines.
pub fn first_gap_never_counts<T>()
    ensures legal { (width : ℕ) (s : Slot T) (gap : Option T) (ss : List (Slot T)) (cuts : List ℕ) →
        IsLegalLayout width (s ∷ ss) cuts → IsLegalLayout width (with_gap s gap ∷ ss) cuts }
    ensures texts { (width : ℕ) (s : Slot T) (gap : Option T) (ss : List (Slot T)) (cuts : List ℕ) →
        IsLegalLayout width (s ∷ ss) cuts →
        map line_text (lines_between (with_gap s gap ∷ ss) cuts) ≡ map line_text (lines_between (s ∷ ss) cuts) }
{}
