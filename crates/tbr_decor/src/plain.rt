//! Plain text.
ghost use Rattle.std.specs.Prelude.{None, true, false, refl};
ghost use Rattle.std.proofs.Common.{rules};
ghost use Rattle.tbr_decor.specs.Plain as plain;
ghost use Rattle.tbr_decor.specs.Usual as usual;

use crate::colour::Colour;
use crate::decorator::TextDecorator;
use crate::{text, usual};
use std::alloc::Global;
use tbr_tagged::{OutOfMemory, TaggedLine};

/// Shows what a document has by plain characters, such as `[` and `]` round a link, and annotates nothing.
#[derive(Clone, Debug, Drop)]
pub struct PlainDecorator {}

impl PlainDecorator {
    /// The decorator. It takes no memory.
    pub fn new() -> PlainDecorator {
        PlainDecorator {}
    }
}

impl TextDecorator for PlainDecorator {
    type Annotation = ();

    ghost start_text = { λ _. plain.start_text };

    ghost annotation = { λ _ _. tt };

    ghost end_text = { λ _. plain.end_text };

    ghost preformatted = { λ _ _. tt };

    ghost prefix_text = { λ _. plain.prefix_text };

    ghost colour_annotation = { λ _ _ _. None };

    ghost ends_colour = { λ _ _. false };

    ghost footnotes = { λ _. usual.footnotes tt };

    ghost subblock = { λ d. d };

    ghost after = { λ d _. d };

    fn decorate_link_start(
        &mut self,
        alloc: Global,
        _url: &str,
    ) -> Result<(String, ()), OutOfMemory> {
        Ok((text::ascii(alloc, "[")?, ()))
    }

    fn decorate_link_end(&mut self, alloc: Global) -> Result<String, OutOfMemory> {
        text::ascii(alloc, "]")
    }

    fn decorate_em_start(&self, alloc: Global) -> Result<(String, ()), OutOfMemory> {
        Ok((text::empty(alloc), ()))
    }

    fn decorate_em_end(&self, alloc: Global) -> Result<String, OutOfMemory> {
        Ok(text::empty(alloc))
    }

    fn decorate_strong_start(&self, alloc: Global) -> Result<(String, ()), OutOfMemory> {
        Ok((text::empty(alloc), ()))
    }

    fn decorate_strong_end(&self, alloc: Global) -> Result<String, OutOfMemory> {
        Ok(text::empty(alloc))
    }

    fn decorate_strikeout_start(&self, alloc: Global) -> Result<(String, ()), OutOfMemory> {
        Ok((text::empty(alloc), ()))
    }

    fn decorate_strikeout_end(&self, alloc: Global) -> Result<String, OutOfMemory> {
        Ok(text::empty(alloc))
    }

    fn decorate_code_start(&self, alloc: Global) -> Result<(String, ()), OutOfMemory> {
        Ok((text::empty(alloc), ()))
    }

    fn decorate_code_end(&self, alloc: Global) -> Result<String, OutOfMemory> {
        Ok(text::empty(alloc))
    }

    fn decorate_superscript_start(&self, alloc: Global) -> Result<(String, ()), OutOfMemory> {
        usual::superscript_start(alloc)
    }

    fn decorate_superscript_end(&self, alloc: Global) -> Result<String, OutOfMemory> {
        usual::superscript_end(alloc)
    }

    fn decorate_preformat_first(&self, _alloc: Global) -> Result<(), OutOfMemory> {
        Ok(())
    }

    fn decorate_preformat_cont(&self, _alloc: Global) -> Result<(), OutOfMemory> {
        Ok(())
    }

    fn decorate_image(
        &mut self,
        alloc: Global,
        _src: &str,
        title: &str,
    ) -> Result<(String, ()), OutOfMemory> {
        Ok((text::bracketed(alloc, title)?, ()))
    }

    fn header_prefix(&self, alloc: Global, level: usize) -> Result<String, OutOfMemory> {
        text::header(alloc, level)
    }

    fn quote_prefix(&self, alloc: Global) -> Result<String, OutOfMemory> {
        text::ascii(alloc, "> ")
    }

    fn unordered_item_prefix(&self, alloc: Global) -> Result<String, OutOfMemory> {
        text::ascii(alloc, "* ")
    }

    fn ordered_item_prefix(&self, alloc: Global, i: i64) -> Result<String, OutOfMemory> {
        text::ordered_item(alloc, i)
    }

    fn make_subblock_decorator(&self, _alloc: Global) -> Result<Self, OutOfMemory> {
        Ok(self.clone()?)
    }

    fn push_colour(&mut self, alloc: Global, colour: Colour) -> Result<Option<()>, OutOfMemory> {
        usual::push_colour(alloc, colour)
    }

    fn pop_colour(&mut self) -> bool {
        usual::pop_colour()
    }

    fn push_bgcolour(&mut self, alloc: Global, colour: Colour) -> Result<Option<()>, OutOfMemory> {
        usual::push_bgcolour(alloc, colour)
    }

    fn pop_bgcolour(&mut self) -> bool {
        usual::pop_bgcolour()
    }

    fn finalise(
        &mut self,
        alloc: Global,
        urls: Vec<String>,
    ) -> Result<Vec<TaggedLine<()>>, OutOfMemory> {
        usual::finalise(alloc, urls)
    }
}
