//! Pages as tags.
ghost use Rattle.std.proofs.Common.{rules};
ghost use Rattle.std.specs.Prelude.{◌==◌};
ghost use Rattle.tbr_tags.specs.Tells.{numbers_tell};

use tbr_tags::Tag;

/// A page, by its number.
#[derive(Clone, Copy, PartialEq, Eq, Debug, Default)]
pub struct Page {
    pub number: usize,
}

impl Tag for Page {
    type Meaning = usize;

    ghost meaning = { λ p. p.number };

    ghost same = { λ m n. m == n };

    ghost tells = { numbers_tell };

    ghost equal_by_meaning = { λ a b. numbers_tell a.number b.number };

    ghost copies_equal = { Prim.search rules };
}
