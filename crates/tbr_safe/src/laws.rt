//! The laws of escaped texts, each as the contract of a function that does nothing.
ghost use Rattle.std.specs.Prelude.{◌≡◌, ℕ, List, false, map};
ghost use Rattle.std.specs.Char.{is_control};
ghost use Rattle.std.specs.List.{AllByRecursion as Each};
ghost use Rattle.tbr_tagged.specs.Elements.{characters};
ghost use Rattle.tbr_decor.specs.Usual.{footnotes};
ghost use Rattle.tbr_safe.specs.Escaped.{escaped};

/// An escaped text has no control character: none of C0 or C1, and not U+007F.
#[tactic(auto, using(crate::proofs::Controls::none_left))]
pub fn no_control_character_is_left()
    ensures { (cs : List ℕ) → Each (λ c. is_control c ≡ false) (escaped cs) }
{}

/// Footnotes that list escaped targets have no control character.
pub fn footnotes_of_escaped_targets_have_none<A>()
    ensures { (a : A) (targets : List (List ℕ)) → Each (λ line. Each (λ c. is_control c ≡ false) (characters line))
        (footnotes a (map escaped targets)) }
{}

/// A text without control characters stays as it is.
#[tactic(auto, using(crate::proofs::Controls::others_stay))]
pub fn other_texts_stay()
    ensures { (cs : List ℕ) → Each (λ c. is_control c ≡ false) cs → escaped cs ≡ cs }
{}
