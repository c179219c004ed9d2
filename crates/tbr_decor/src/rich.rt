//! Annotated text.
ghost use Rattle.std.specs.Prelude.{Some, true};
ghost use Rattle.tbr_decor.specs.Plain as plain;
ghost use Rattle.tbr_decor.specs.Trivial as trivial;
ghost use Rattle.tbr_decor.specs.Rich as rich;
ghost use Rattle.tbr_decor.specs.Style as style;
ghost use Rattle.tbr_decor.specs.Style.{Style, style_of, same_style};
ghost use Rattle.tbr_decor.specs.RichLaws.{equal_by_style, styles_apart, copies_equal};
ghost use Rattle.tbr_decor.specs.Usual as usual;

use crate::annotation::RichAnnotation;
use crate::colour::Colour;
use crate::decorator::TextDecorator;
use crate::{text, usual};
use std::alloc::Global;
use tbr_tagged::{OutOfMemory, TaggedLine};

/// Shows what a document has by annotations. The characters that it gives are prefixes, `^{` and `}` round
/// superscripts, the titles of images, and the lines `[1]: target` of footnotes.
#[derive(Clone, Debug, Drop)]
pub struct RichDecorator {}

impl RichDecorator {
    /// The decorator. It takes no memory.
    pub fn new() -> RichDecorator {
        RichDecorator {}
    }
}

impl TextDecorator for RichDecorator {
    type Annotation = RichAnnotation;

    ghost start_text = { λ _. trivial.start_text };

    ghost annotation = { λ _. rich.annotation };

    ghost end_text = { λ _. trivial.end_text };

    ghost preformatted = { λ _. style.preformatted };

    ghost prefix_text = { λ _. plain.prefix_text };

    ghost colour_annotation = { λ _ ground c. Some (rich.coloured ground c) };

    ghost ends_colour = { λ _ _. true };

    ghost footnotes = { λ _. usual.footnotes style.plain };

    ghost subblock = { λ d. d };

    ghost after = { λ d _. d };

    fn decorate_link_start(
        &mut self,
        alloc: Global,
        url: &str,
    ) -> Result<(String, RichAnnotation), OutOfMemory> {
        Ok((
            text::empty(alloc),
            RichAnnotation::Link(text::copy(alloc, url)?),
        ))
    }

    fn decorate_link_end(&mut self, alloc: Global) -> Result<String, OutOfMemory> {
        Ok(text::empty(alloc))
    }

    fn decorate_em_start(&self, alloc: Global) -> Result<(String, RichAnnotation), OutOfMemory> {
        Ok((text::empty(alloc), RichAnnotation::Emphasis))
    }

    fn decorate_em_end(&self, alloc: Global) -> Result<String, OutOfMemory> {
        Ok(text::empty(alloc))
    }

    fn decorate_strong_start(
        &self,
        alloc: Global,
    ) -> Result<(String, RichAnnotation), OutOfMemory> {
        Ok((text::empty(alloc), RichAnnotation::Strong))
    }

    fn decorate_strong_end(&self, alloc: Global) -> Result<String, OutOfMemory> {
        Ok(text::empty(alloc))
    }

    fn decorate_strikeout_start(
        &self,
        alloc: Global,
    ) -> Result<(String, RichAnnotation), OutOfMemory> {
        Ok((text::empty(alloc), RichAnnotation::Strikeout))
    }

    fn decorate_strikeout_end(&self, alloc: Global) -> Result<String, OutOfMemory> {
        Ok(text::empty(alloc))
    }

    fn decorate_code_start(&self, alloc: Global) -> Result<(String, RichAnnotation), OutOfMemory> {
        Ok((text::empty(alloc), RichAnnotation::Code))
    }

    fn decorate_code_end(&self, alloc: Global) -> Result<String, OutOfMemory> {
        Ok(text::empty(alloc))
    }

    fn decorate_superscript_start(
        &self,
        alloc: Global,
    ) -> Result<(String, RichAnnotation), OutOfMemory> {
        usual::superscript_start(alloc)
    }

    fn decorate_superscript_end(&self, alloc: Global) -> Result<String, OutOfMemory> {
        usual::superscript_end(alloc)
    }

    fn decorate_preformat_first(&self, _alloc: Global) -> Result<RichAnnotation, OutOfMemory> {
        Ok(RichAnnotation::Preformat(false))
    }

    fn decorate_preformat_cont(&self, _alloc: Global) -> Result<RichAnnotation, OutOfMemory> {
        Ok(RichAnnotation::Preformat(true))
    }

    fn decorate_image(
        &mut self,
        alloc: Global,
        src: &str,
        title: &str,
    ) -> Result<(String, RichAnnotation), OutOfMemory> {
        let shown = text::copy(alloc, title)?;
        let source = text::copy(alloc, src)?;
        Ok((shown, RichAnnotation::Image(source)))
    }

    fn header_prefix(&self, alloc: Global, level: usize) -> Result<String, OutOfMemory> {
        text::header(alloc, level)
    }

    fn quote_prefix(&self, alloc: Global) -> Result<String, OutOfMemory> {
        text::ascii(alloc, "> ")
    }

    fn unordered_item_prefix(&self, alloc: Global) -> Result<String, OutOfMemory> {
        text::ascii(alloc, "* ")
    }

    fn ordered_item_prefix(&self, alloc: Global, i: i64) -> Result<String, OutOfMemory> {
        text::ordered_item(alloc, i)
    }

    fn make_subblock_decorator(&self, _alloc: Global) -> Result<Self, OutOfMemory> {
        Ok(self.clone()?)
    }

    fn push_colour(
        &mut self,
        _alloc: Global,
        colour: Colour,
    ) -> Result<Option<RichAnnotation>, OutOfMemory> {
        Ok(Some(RichAnnotation::Colour(colour)))
    }

    fn pop_colour(&mut self) -> bool {
        true
    }

    fn push_bgcolour(
        &mut self,
        _alloc: Global,
        colour: Colour,
    ) -> Result<Option<RichAnnotation>, OutOfMemory> {
        Ok(Some(RichAnnotation::BgColour(colour)))
    }

    fn pop_bgcolour(&mut self) -> bool {
        true
    }

    fn finalise(
        &mut self,
        alloc: Global,
        urls: Vec<String>,
    ) -> Result<Vec<TaggedLine<RichAnnotation>>, OutOfMemory> {
        usual::finalise(alloc, urls)
    }
}
