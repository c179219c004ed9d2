//! A decorator with the rich one's annotations and odd texts of links.
ghost use Rattle.std.specs.Prelude.{◌∷◌, [], Some, true};
ghost use Rattle.tbr_decor.specs.Start as start;
ghost use Rattle.tbr_decor.specs.End as end;
ghost use Rattle.tbr_decor.specs.Rich as rich;
ghost use Rattle.tbr_decor.specs.Style as style;
ghost use Rattle.tbr_decor.specs.Style.{Style, style_of, same_style};
ghost use Rattle.tbr_decor.specs.RichLaws.{equal_by_style, styles_apart, copies_equal};
ghost use Rattle.tbr_decor.specs.Usual as usual;

use std::alloc::Global;
use tbr_decor::{Colour, RichAnnotation, TextDecorator, text, usual};
use tbr_lines::{OutOfMemory, TaggedLine};

/// A newline comes before a link and U+200B after it. Every other text is empty.
#[derive(Clone, Drop)]
pub struct OddDecorator {}

impl OddDecorator {
    /// The decorator. It takes no memory.
    pub fn new() -> OddDecorator {
        OddDecorator {}
    }
}

impl TextDecorator for OddDecorator {
    type Annotation = RichAnnotation;

    // U+000A and U+200B.
    ghost start_text = { λ _. elim [ start.link _ ↦ 10 ∷ [] | _ ↦ [] ] };

    ghost annotation = { λ _. rich.annotation };

    ghost end_text = { λ _. elim [ end.link ↦ 0x200B ∷ [] | _ ↦ [] ] };

    ghost preformatted = { λ _. style.preformatted };

    ghost prefix_text = { λ _ _. [] };

    ghost colour_annotation = { λ _ ground c. Some (rich.coloured ground c) };

    ghost ends_colour = { λ _ _. true };

    ghost footnotes = { λ _. usual.footnotes style.plain };

    ghost subblock = { λ d. d };

    ghost after = { λ d _. d };

    fn decorate_link_start(
        &mut self,
        alloc: Global,
        url: &str,
    ) -> Result<(String, RichAnnotation), OutOfMemory> {
        let target = text::copy(alloc, url)?;
        Ok((text::ascii(alloc, "\n")?, RichAnnotation::Link(target)))
    }

    fn decorate_link_end(&mut self, alloc: Global) -> Result<String, OutOfMemory> {
        text::copy(alloc, "\u{200b}")
    }

    fn decorate_em_start(&self, alloc: Global) -> Result<(String, RichAnnotation), OutOfMemory> {
        Ok((text::empty(alloc), RichAnnotation::Emphasis))
    }

    fn decorate_em_end(&self, alloc: Global) -> Result<String, OutOfMemory> {
        Ok(text::empty(alloc))
    }

    fn decorate_strong_start(
        &self,
        alloc: Global,
    ) -> Result<(String, RichAnnotation), OutOfMemory> {
        Ok((text::empty(alloc), RichAnnotation::Strong))
    }

    fn decorate_strong_end(&self, alloc: Global) -> Result<String, OutOfMemory> {
        Ok(text::empty(alloc))
    }

    fn decorate_strikeout_start(
        &self,
        alloc: Global,
    ) -> Result<(String, RichAnnotation), OutOfMemory> {
        Ok((text::empty(alloc), RichAnnotation::Strikeout))
    }

    fn decorate_strikeout_end(&self, alloc: Global) -> Result<String, OutOfMemory> {
        Ok(text::empty(alloc))
    }

    fn decorate_code_start(&self, alloc: Global) -> Result<(String, RichAnnotation), OutOfMemory> {
        Ok((text::empty(alloc), RichAnnotation::Code))
    }

    fn decorate_code_end(&self, alloc: Global) -> Result<String, OutOfMemory> {
        Ok(text::empty(alloc))
    }

    fn decorate_superscript_start(
        &self,
        alloc: Global,
    ) -> Result<(String, RichAnnotation), OutOfMemory> {
        Ok((text::empty(alloc), RichAnnotation::Default))
    }

    fn decorate_superscript_end(&self, alloc: Global) -> Result<String, OutOfMemory> {
        Ok(text::empty(alloc))
    }

    fn decorate_preformat_first(&self, _alloc: Global) -> Result<RichAnnotation, OutOfMemory> {
        Ok(RichAnnotation::Preformat(false))
    }

    fn decorate_preformat_cont(&self, _alloc: Global) -> Result<RichAnnotation, OutOfMemory> {
        Ok(RichAnnotation::Preformat(true))
    }

    fn decorate_image(
        &mut self,
        alloc: Global,
        src: &str,
        _title: &str,
    ) -> Result<(String, RichAnnotation), OutOfMemory> {
        let source = text::copy(alloc, src)?;
        Ok((text::empty(alloc), RichAnnotation::Image(source)))
    }

    fn header_prefix(&self, alloc: Global, _level: usize) -> Result<String, OutOfMemory> {
        Ok(text::empty(alloc))
    }

    fn quote_prefix(&self, alloc: Global) -> Result<String, OutOfMemory> {
        Ok(text::empty(alloc))
    }

    fn unordered_item_prefix(&self, alloc: Global) -> Result<String, OutOfMemory> {
        Ok(text::empty(alloc))
    }

    fn ordered_item_prefix(&self, alloc: Global, _i: i64) -> Result<String, OutOfMemory> {
        Ok(text::empty(alloc))
    }

    fn make_subblock_decorator(&self, _alloc: Global) -> Result<Self, OutOfMemory> {
        Ok(self.clone()?)
    }

    fn push_colour(
        &mut self,
        _alloc: Global,
        colour: Colour,
    ) -> Result<Option<RichAnnotation>, OutOfMemory> {
        Ok(Some(RichAnnotation::Colour(colour)))
    }

    fn pop_colour(&mut self) -> bool {
        true
    }

    fn push_bgcolour(
        &mut self,
        _alloc: Global,
        colour: Colour,
    ) -> Result<Option<RichAnnotation>, OutOfMemory> {
        Ok(Some(RichAnnotation::BgColour(colour)))
    }

    fn pop_bgcolour(&mut self) -> bool {
        true
    }

    fn finalise(
        &mut self,
        alloc: Global,
        urls: Vec<String>,
    ) -> Result<Vec<TaggedLine<RichAnnotation>>, OutOfMemory> {
        usual::finalise(alloc, urls)
    }
}
