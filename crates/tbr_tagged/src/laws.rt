//! The laws of lines, each as the contract of a function that does nothing.
ghost use Rattle.std.specs.Prelude.{◌≡◌, Bool, List};
ghost use Rattle.std.specs.List.{AllZip};
ghost use Rattle.tbr_model.specs.Run.{Item, has_character};
ghost use Rattle.tbr_model.specs.Mapped.{map_items, map_lines};
ghost use Rattle.tbr_tagged.specs.Elements.{Element, items_of, has_piece, SameItems, IsMerged};
ghost use Rattle.tbr_tagged.specs.Mapped.{MeansEqual};

/// A line of merged pieces has a piece exactly where it has a character.
pub fn merged_pieces_have_characters<T>()
    ensures { (eq : T → T → Bool) (es : List (Element T)) →
        IsMerged eq es → has_piece es ≡ has_character (items_of es) }
{}

/// Items that differ only by equal tags are the same under what the tags mean, where equal tags mean the same.
pub fn equal_tags_mean_the_same<A, B>()
    ensures items { (f : A → B) (eq : A → A → Bool) → MeansEqual f eq → (is js : List (Item A)) →
        SameItems eq is js → map_items f is ≡ map_items f js }
    ensures lines { (f : A → B) (eq : A → A → Bool) → MeansEqual f eq → (ls ms : List (List (Item A))) →
        AllZip (SameItems eq) ls ms → map_lines f ls ≡ map_lines f ms }
{}
