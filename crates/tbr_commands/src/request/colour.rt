//! Colours of a script.
ghost use Rattle.std.specs.Prelude.{◌≡◌};
ghost use Rattle.tbr_commands.specs.Read.{colour_read};

use crate::spaces::split_at_space;
use tbr_decor::Colour;
use tbr_script::parse_byte;

/// The colour of three numbers, with exactly one space between two. `None` where the text isn't written so.
pub fn colour(writing: &str) -> Option<Colour>
    ensures { result ≡ colour_read writing.now }
{
    let (red, rest) = split_at_space(writing)?;
    let (green, blue) = split_at_space(rest)?;
    Some(Colour {
        r: parse_byte(red)?,
        g: parse_byte(green)?,
        b: parse_byte(blue)?,
    })
}
