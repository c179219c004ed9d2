//! Width instances of the tests' own, whose widths need no table.
ghost use Rattle.test_support.specs.EveryOne.{every_one, every_one_at_most_two, every_one_drawn};

use tbr_lines::CharWidth;

/// Every character takes one column, except that the stroke U+0336 takes none.
#[derive(Clone, Copy)]
pub struct EveryOne;

impl CharWidth for EveryOne {
    ghost columns = { every_one };

    ghost at_most_two = { every_one_at_most_two };

    ghost drawn_in_one = { every_one_drawn };

    ghost use Rattle.std.specs.Prelude.{refl};

    ghost stroke_takes_none = { refl };

    fn width(c: char) -> Option<usize> {
        if c == '\u{336}' { Some(0) } else { Some(1) }
    }
}

/// As [`EveryOne`], but the em space U+2003 takes no column either.
#[derive(Clone, Copy)]
pub struct NoEmSpace;

impl CharWidth for NoEmSpace {
    ghost use Rattle.test_support.specs.NoEmSpace.{no_em_space, no_em_space_at_most_two, no_em_space_drawn};

    ghost columns = { no_em_space };

    ghost at_most_two = { no_em_space_at_most_two };

    ghost drawn_in_one = { no_em_space_drawn };

    ghost use Rattle.std.specs.Prelude.{refl};

    ghost stroke_takes_none = { refl };

    fn width(c: char) -> Option<usize> {
        if c == '\u{2003}' {
            Some(0)
        } else {
            EveryOne::width(c)
        }
    }
}
