//! A letter with a quotation in it.

use std::alloc::Global;
use std::iter;
use tbr_lines::{UnicodeColumns, text_width};
use text_block_renderer::{Error, PlainDecorator, RenderOptions, Renderer, SubRenderer};

/// A question, and the quotation that it is about after the decorator's prefix, in lines of 40 columns.
pub fn letter(alloc: Global) -> Result<String, Error> {
    let options = RenderOptions::default();
    let mut letter: SubRenderer<PlainDecorator> = SubRenderer::new(
        alloc,
        40,
        options,
        PlainDecorator::new(),
    );
    letter.add_inline_text("Dear reader, did you mean this?")?;
    letter.start_block()?;
    let prefix = letter.quote_prefix()?;
    let quotation = quotation(&letter, prefix.as_str())?;
    letter.append_subrender(quotation, iter::repeat(prefix.as_str()))?;
    letter.into_string()
}

/// The quotation, in the columns that its prefix leaves.
fn quotation(
    letter: &SubRenderer<PlainDecorator>,
    prefix: &str,
) -> Result<SubRenderer<PlainDecorator>, Error> {
    let taken = text_width::<UnicodeColumns>(prefix)?;
    let mut inside = letter.new_sub_renderer(letter.width_minus(taken, 1)?)?;
    inside.add_inline_text("No other way to break a text gets further.")?;
    Ok(inside)
}
