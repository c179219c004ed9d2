//! A help page, whose pieces are shown with their links.

use std::alloc::Global;
use text_block_renderer::{
    Error, OutOfMemory, RenderLine, RenderOptions, Renderer, RichAnnotation, RichDecorator,
    SubRenderer, TaggedString,
};

/// A sentence with a link in it, each piece of its lines with its target.
pub fn help_page(alloc: Global) -> Result<String, Error> {
    let options = RenderOptions::default();
    let mut page: SubRenderer<RichDecorator> = SubRenderer::new(
        alloc,
        40,
        options,
        RichDecorator::new(),
    );
    page.add_inline_text("All commands are on ")?;
    page.start_link("help.html")?;
    page.add_inline_text("this page")?;
    page.end_link()?;
    let mut shown = String::new(alloc);
    for line in page.into_lines()? {
        show_line(&mut shown, &line)?;
    }
    Ok(shown)
}

/// Shows the pieces of a line of text, and a newline.
fn show_line(
    shown: &mut String,
    line: &RenderLine<Vec<RichAnnotation>>,
) -> Result<(), OutOfMemory> {
    if let RenderLine::Text(text) = line {
        for piece in text.tagged_strings() {
            show_piece(shown, piece)?;
        }
    }
    shown.push('\n')?;
    Ok(())
}

/// Shows a piece, and the targets of the links that it is in.
fn show_piece(
    shown: &mut String,
    piece: &TaggedString<Vec<RichAnnotation>>,
) -> Result<(), OutOfMemory> {
    shown.push_str(piece.s.as_str())?;
    for annotation in &piece.tag {
        if let RichAnnotation::Link(target) = annotation {
            shown.push_str(" <")?;
            shown.push_str(target.as_str())?;
            shown.push('>')?;
        }
    }
    Ok(())
}
