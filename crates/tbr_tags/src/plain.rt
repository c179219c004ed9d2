//! The one tag that says nothing, and flags.
ghost use Rattle.std.specs.Prelude.{true, refl};
ghost use Rattle.std.proofs.Math.Bool.{beq};
ghost use Rattle.tbr_tags.specs.Tells.{flags_tell, flags_equal};

use crate::tag::Tag;

impl Tag for () {
    type Meaning = ();

    ghost meaning = { λ t. t };

    ghost same = { λ _ _. true };

    ghost tells = { λ _ _. (λ _. refl, λ _. refl) };

    ghost equal_by_meaning = { λ _ _. (λ _. refl, λ _. refl) };

    ghost copies_equal = { λ _ _ _. refl };
}

impl Tag for bool {
    type Meaning = bool;

    ghost meaning = { λ b. b };

    ghost same = { beq };

    ghost tells = { flags_tell };

    ghost equal_by_meaning = { flags_tell };

    ghost copies_equal = { flags_equal };
}
