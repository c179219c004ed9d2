//! What is appended to a text. Each call refuses only where memory is refused.
ghost use Rattle.std.specs.Prelude.{◌≡◌, ◌++◌, ◌∷◌, [], chars, not, IsTrue, OnOk};
ghost use Rattle.std.specs.List.{list_all};
ghost use Rattle.std.specs.Char.{is_ascii, is_control};
ghost use Rattle.std.specs.Fmt.{decimal};
ghost use Rattle.tbr_tagged.specs.View.{chars_of};
ghost use Rattle.tbr_show.specs.Written.{printable, colour_parts};

use tbr_decor::Colour;
use tbr_tagged::OutOfMemory;

/// Appends a text of ASCII.
pub fn push_ascii(text: &mut String, more: &str) -> Result<(), OutOfMemory>
    requires { IsTrue (list_all is_ascii more.now) }
    ensures { OnOk result (chars_of text.new ≡ chars_of text.old ++ more.now) }
{
    text.push_str(more)?;
    Ok(())
}

/// Appends a character.
pub fn push_char(text: &mut String, c: char) -> Result<(), OutOfMemory>
    ensures { OnOk result (chars_of text.new ≡ chars_of text.old ++ c ∷ []) }
{
    text.push(c)?;
    Ok(())
}

/// Appends a number in decimal digits.
pub fn push_decimal(text: &mut String, number: u8) -> Result<(), OutOfMemory>
    ensures { OnOk result (chars_of text.new ≡ chars_of text.old ++ decimal number) }
{
    let mut digits = itoa::Buffer::new();
    text.push_str(digits.format(number))?;
    Ok(())
}

/// Appends the characters of a text, except for control characters. If memory is refused, part of them may have been
/// appended.
pub fn push_printable(text: &mut String, more: &str) -> Result<(), OutOfMemory>
    ensures { OnOk result (chars_of text.new ≡ chars_of text.old ++ printable (chars more.now)) }
{
    if is_printable(more) {
        push_text(text, more)
    } else {
        push_each_printable(text, more)
    }
}

/// Whether a text has no control characters.
fn is_printable(text: &str) -> bool
    ensures { result ≡ list_all (λ c. not (is_control c)) (chars text.now) }
{
    text.chars().all(|c| !c.is_control())
}

/// Appends a whole text.
fn push_text(text: &mut String, more: &str) -> Result<(), OutOfMemory>
    ensures { OnOk result (chars_of text.new ≡ chars_of text.old ++ chars more.now) }
{
    text.push_str(more)?;
    Ok(())
}

/// Appends one by one the characters of a text that aren't control characters.
fn push_each_printable(text: &mut String, more: &str) -> Result<(), OutOfMemory>
    ensures { OnOk result (chars_of text.new ≡ chars_of text.old ++ printable (chars more.now)) }
{
    for c in more.chars() {
        if !c.is_control() {
            push_char(text, c)?;
        }
    }
    Ok(())
}

/// Appends the parts of a colour in decimal digits, with a separator of ASCII between two. If memory is refused, part
/// of them may have been appended.
pub fn push_parts(text: &mut String, colour: Colour, separator: &str) -> Result<(), OutOfMemory>
    requires { IsTrue (list_all is_ascii separator.now) }
    ensures { OnOk result (chars_of text.new ≡ chars_of text.old ++ colour_parts separator.now colour) }
{
    push_decimal(text, colour.r)?;
    push_ascii(text, separator)?;
    push_decimal(text, colour.g)?;
    push_ascii(text, separator)?;
    push_decimal(text, colour.b)
}
