//! Tags that are what they mean: numbers and characters.
ghost use Rattle.std.specs.Prelude.{◌==◌};
ghost use Rattle.tbr_tags.specs.Tells.{numbers_tell, numbers_equal};

use crate::tag::Tag;

impl Tag for u8 {
    type Meaning = u8;

    ghost meaning = { λ n. n };

    ghost same = { λ m n. m == n };

    ghost tells = { numbers_tell };

    ghost equal_by_meaning = { numbers_tell };

    ghost copies_equal = { numbers_equal };
}

impl Tag for u16 {
    type Meaning = u16;

    ghost meaning = { λ n. n };

    ghost same = { λ m n. m == n };

    ghost tells = { numbers_tell };

    ghost equal_by_meaning = { numbers_tell };

    ghost copies_equal = { numbers_equal };
}

impl Tag for u32 {
    type Meaning = u32;

    ghost meaning = { λ n. n };

    ghost same = { λ m n. m == n };

    ghost tells = { numbers_tell };

    ghost equal_by_meaning = { numbers_tell };

    ghost copies_equal = { numbers_equal };
}

impl Tag for u64 {
    type Meaning = u64;

    ghost meaning = { λ n. n };

    ghost same = { λ m n. m == n };

    ghost tells = { numbers_tell };

    ghost equal_by_meaning = { numbers_tell };

    ghost copies_equal = { numbers_equal };
}

impl Tag for usize {
    type Meaning = usize;

    ghost meaning = { λ n. n };

    ghost same = { λ m n. m == n };

    ghost tells = { numbers_tell };

    ghost equal_by_meaning = { numbers_tell };

    ghost copies_equal = { numbers_equal };
}

impl Tag for char {
    type Meaning = char;

    ghost meaning = { λ n. n };

    ghost same = { λ m n. m == n };

    ghost tells = { numbers_tell };

    ghost equal_by_meaning = { numbers_tell };

    ghost copies_equal = { numbers_equal };
}
