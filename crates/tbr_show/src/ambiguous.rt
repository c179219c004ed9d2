//! The columns of characters in terminals that give East Asian ambiguous characters two.
ghost use Rattle.tbr_show.specs.Ambiguous.{ambiguous_wide, ambiguous_wide_at_most_two, ambiguous_wide_drawn};

use tbr_model::CharWidth;
use tbr_tagged::{STROKE, takes_one_column};
use unicode_width::UnicodeWidthChar;

/// The columns of characters, by the crate `unicode_width`, in a terminal that gives two to those that Unicode calls
/// ambiguous.
///
/// Characters whose columns [`CharWidth`] fixes, among them those of borders, have these columns. A character to which
/// `unicode_width` gives more than two columns has two.
#[derive(Clone, Copy, Debug)]
pub struct AmbiguousWide;

impl CharWidth for AmbiguousWide {
    ghost columns = { ambiguous_wide };

    ghost at_most_two = { ambiguous_wide_at_most_two };

    ghost drawn_in_one = { ambiguous_wide_drawn };

    ghost use Rattle.std.specs.Prelude.{refl};

    ghost stroke_takes_none = { refl };

    fn width(c: char) -> Option<usize> {
        if takes_one_column(c) {
            return Some(1);
        }
        if c == STROKE {
            return Some(0);
        }
        let width = c.width_cjk()?;
        Some(width.min(2))
    }
}
