//! Vectors of tags.
ghost use Rattle.std.specs.Prelude.{map};
ghost use Rattle.tbr_tags.specs.Tells.{lists_tell};
ghost use Rattle.tbr_tags.specs.Lists.{lists_equal_by_meaning, list_copies_equal};

use crate::meanings::Meanings;
use crate::tag::Tag;

impl<A: Tag> Tag for Vec<A> {
    ghost use Rattle.std.specs.Prelude.{map, vec_items};

    type Meaning = Meanings<A::Meaning>;

    ghost meaning = { λ v. map A.meaning (vec_items v) };

    ghost use Rattle.std.specs.Cmp.Lexicographic.{pointwise};
    ghost use Rattle.tbr_tags.specs.Tells.{lists_tell};

    ghost same = { pointwise A.same };

    ghost tells = { lists_tell A.same A.tells };

    ghost equal_by_meaning = { λ v w.
        lists_equal_by_meaning A.meaning A.eq A.equal_by_meaning (vec_items v) (vec_items w) };

    ghost copies_equal = { λ v w h. list_copies_equal A.is_clone A.eq A.copies_equal (vec_items v) (vec_items w) h.0 };
}
