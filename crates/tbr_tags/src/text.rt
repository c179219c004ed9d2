//! Texts as tags.
ghost use Rattle.tbr_tags.specs.Tells.{lists_tell, numbers_tell};
ghost use Rattle.tbr_tags.specs.Texts.{texts_equal_by_meaning, text_copies_equal};

use crate::meanings::Meanings;
use crate::tag::Tag;

/// A text, as a tag, means its characters.
impl Tag for String {
    ghost use Rattle.std.specs.Prelude.{chars, string_bytes, ◌==◌, nat_eq};
    ghost use Rattle.std.specs.Cmp.Lexicographic.{pointwise};
    ghost use Rattle.tbr_tags.specs.Tells.{lists_tell, numbers_tell};
    ghost use Rattle.tbr_tags.specs.Texts.{texts_equal_by_meaning, text_copies_equal};

    type Meaning = Meanings<char>;

    ghost meaning = { λ s. chars (string_bytes s) };

    ghost same = { pointwise (λ c d. c == d) };

    ghost tells = { lists_tell (λ c d. c == d) numbers_tell };

    ghost equal_by_meaning = { texts_equal_by_meaning };

    ghost copies_equal = { text_copies_equal };
}
