//! How many columns characters take in a terminal.
ghost use Rattle.std.specs.Int.{is_in_range};
ghost use Rattle.std.specs.Prelude.{◌≡◌, ◌≤◌, true, length, take, chars};
ghost use Rattle.tbr_model.specs.Width as fixed;
ghost use Rattle.tbr_tagged.specs.Narrow.{IsNarrow, AreNarrow};
ghost use Rattle.tbr_tagged.specs.Sums.{GivesSum};
ghost use Rattle.tbr_tagged.specs.UnicodeColumns.{is_in_wide_block, unicode_columns, unicode_columns_at_most_two, unicode_columns_drawn};

use crate::error::OutOfMemory;
use tbr_model::CharWidth;
use unicode_width::UnicodeWidthChar;

/// U+0336, which strikes out the character before it.
pub const STROKE: char = '\u{336}';

/// The columns that terminals give characters, by the crate `unicode_width`.
///
/// Characters whose columns [`CharWidth`] fixes have these columns. A character to which `unicode_width` gives more
/// than two columns has two.
#[derive(Clone, Copy, Debug)]
pub struct UnicodeColumns;

impl CharWidth for UnicodeColumns {
    ghost columns = { unicode_columns };

    ghost at_most_two = { unicode_columns_at_most_two };

    ghost drawn_in_one = { unicode_columns_drawn };

    ghost use Rattle.std.specs.Prelude.{refl};

    ghost stroke_takes_none = { refl };

    #[inline(always)]
    fn width(c: char) -> Option<usize> {
        if is_printable_ascii(c) {
            return Some(1);
        }
        if is_in_wide_block(c) {
            return Some(2);
        }
        looked_up(c)
    }
}

/// The columns of any character, by what is fixed and by `unicode_width`.
// It is a function of its own, so that `width` is small where it is inlined.
#[inline(never)]
fn looked_up(c: char) -> Option<usize>
    ensures { result ≡ unicode_columns c }
{
    if takes_one_column(c) {
        return Some(1);
    }
    if c == STROKE {
        return Some(0);
    }
    let width = c.width()?;
    Some(width.min(2))
}

/// Whether the character is printable ASCII.
#[inline]
fn is_printable_ascii(c: char) -> bool
    ensures { result ≡ is_in_range 0x20 0x7E c }
{
    c >= ' ' && c <= '~'
}

/// Whether the character is in a block whose characters all take two columns, so that it needn't be looked up. These
/// are Han and Yi, Hangul, hiragana and katakana, their punctuation, and full-width forms.
#[inline]
fn is_in_wide_block(c: char) -> bool
    ensures { result ≡ is_in_wide_block c }
{
    (c >= '\u{3400}' && c <= '\u{a48c}')
        || (c >= '\u{ac00}' && c <= '\u{d7a3}')
        || (c >= '\u{3041}' && c <= '\u{3096}')
        || (c >= '\u{309b}' && c <= '\u{30ff}')
        || (c >= '\u{3001}' && c <= '\u{3029}')
        || (c >= '\u{ff01}' && c <= '\u{ff60}')
}

/// Whether the character is the space, the slash, or one that borders are drawn with. Any instance of [`CharWidth`]
/// gives it one column.
pub fn takes_one_column(c: char) -> bool
    ensures { result ≡ fixed.takes_one_column c }
{
    c == ' ' || c == '/' || draws_border(c)
}

fn draws_border(c: char) -> bool
    ensures { result ≡ fixed.draws_border c }
{
    c == '─'
        || c == '│'
        || c == '┌'
        || c == '┐'
        || c == '└'
        || c == '┘'
        || c == '├'
        || c == '┤'
        || c == '┬'
        || c == '┴'
        || c == '┼'
}

/// The columns that a text takes: the sum over its characters, where one without a width counts 0.
///
/// It takes no memory, and refuses exactly where the sum passes `usize`.
pub fn text_width<W: CharWidth>(s: &str) -> Result<usize, OutOfMemory>
    ensures { GivesSum result (fixed.width_of_text W.columns (chars s.now)) }
{
    let narrow = narrow_in_front::<W>(s, s.len());
    let mut width = narrow;
    for c in s[narrow..].chars() {
        let more = W::width(c).unwrap_or(0);
        let Some(sum) = width.checked_add(more) else {
            return Err(OutOfMemory);
        };
        width = sum;
    }
    Ok(width)
}

/// How many ASCII characters of one column each a text begins with, `most` of them at most.
// They are bytes, so that a text of them is measured without its characters.
pub fn narrow_in_front<W: CharWidth>(text: &str, most: usize) -> usize
    ensures within { (result ≤ most) × (result ≤ length text.now) }
    ensures narrow { AreNarrow W.columns (take result text.now) }
{
    let bytes = text.as_bytes();
    let most = bytes.len().min(most);
    let mut count = 0;
    while count < most && is_narrow::<W>(bytes[count]) {
        count += 1;
    }
    count
}

/// Whether a byte is an ASCII character of one column.
fn is_narrow<W: CharWidth>(byte: u8) -> bool
    ensures { result ≡ true → IsNarrow W.columns byte }
{
    byte.is_ascii() && W::width(char::from(byte)) == Some(1)
}
