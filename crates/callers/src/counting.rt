//! Counting what a line has, and copies of it.
ghost use Rattle.std.specs.Prelude.{◌≡◌, true, length, IfOk};
ghost use Rattle.tbr_tagged.specs.Walks.{pieces_of};

use tbr_lines::{OutOfMemory, TaggedLine, TaggedLineElement};

/// How many pieces a line has.
pub fn pieces<T>(line: &TaggedLine<T>) -> usize
    ensures { result ≡ length (pieces_of line.now) }
{
    line.tagged_strings().count()
}

/// How many characters a line has. `None` where that passes `usize`. That the walk ends needs no proof by hand. No
/// clause says which number it answers.
pub fn characters<T>(line: &TaggedLine<T>) -> Option<usize> {
    let mut count: usize = 0;
    for _ in line.chars() {
        count = count.checked_add(1)?;
    }
    Some(count)
}

/// A copy of a line equals it.
pub fn is_copied(line: &TaggedLine<u8>) -> Result<bool, OutOfMemory>
    ensures { IfOk result (λ equal. equal ≡ true) }
{
    Ok(line.clone()? == *line)
}

/// A copy of an element equals it.
pub fn is_element_copied(element: &TaggedLineElement<u8>) -> Result<bool, OutOfMemory>
    ensures { IfOk result (λ equal. equal ≡ true) }
{
    Ok(element.clone()? == *element)
}
