//! Cells that a script opens.
ghost use Rattle.std.specs.Prelude.{◌≡◌};
ghost use Rattle.std.specs.Option.{option_map};
ghost use Rattle.tbr_script.specs.Script.{words_of};
ghost use Rattle.tbr_commands.specs.Command as asked;
ghost use Rattle.tbr_commands.specs.Read.{alignment_of, cell_of};

use tbr_script::{Words, parse_size};
use tbr_tagged::CellAlign;

/// A cell to open.
#[derive(Clone, Copy, Debug, PartialEq, Eq)]
pub struct NewCell {
    /// Its columns, at least 1.
    pub width: usize,
    /// The rows that it takes, at least 1.
    pub span: usize,
    /// Where its lines are in its columns.
    pub align: CellAlign,
}

impl NewCell {
    /// The cell of a width, a span and perhaps an alignment, written with exactly one space between two of them. `None`
    /// where the text isn't written so.
    pub fn parse(writing: &str) -> Option<NewCell>
        ensures { option_map (λ c. asked.cell c.width c.span c.align) result ≡ cell_of (words_of writing.now) }
    {
        let mut words = Words::of(writing);
        let (width, span) = (words.next()?, words.next()?);
        Some(NewCell {
            width: parse_size(width)?,
            span: parse_size(span)?,
            align: alignment(words)?,
        })
    }
}

/// The alignment that the words after a span give: the left one, if there are none.
fn alignment(mut words: Words<'_>) -> Option<CellAlign>
    ensures { result ≡ alignment_of words.entry }
{
    let Some(name) = words.next() else {
        return Some(CellAlign::Left);
    };
    if words.next().is_some() {
        return None;
    }
    match name {
        "left" => Some(CellAlign::Left),
        "right" => Some(CellAlign::Right),
        "centre" => Some(CellAlign::Centre),
        _ => None,
    }
}
