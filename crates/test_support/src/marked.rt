//! A decorator that marks what it is asked to, and has the usual answers for the rest.
ghost use Rattle.std.specs.Prelude.{None, false, []};
ghost use Rattle.std.proofs.Common.{rules};
ghost use Rattle.test_support.specs.declared.marked.Mark.TheVariants.{Nothing, Marked};
ghost use Rattle.test_support.specs.Marks.{same_mark, marks_apart};
ghost use Rattle.tbr_decor.specs.Start as start;
ghost use Rattle.tbr_decor.specs.Trivial as trivial;
ghost use Rattle.tbr_decor.specs.Usual as usual;

use std::alloc::Global;
use tbr_decor::{Colour, TextDecorator, text, usual};
use tbr_lines::{OutOfMemory, TaggedLine};
use tbr_tags::Tag;

/// Whether a piece of text is marked.
#[derive(Clone, Copy, PartialEq, Eq, Debug, Default)]
pub enum Mark {
    #[default]
    Nothing,
    Marked,
}

impl Tag for Mark {
    type Meaning = Mark;

    ghost meaning = { λ m. m };

    ghost same = { same_mark };

    ghost tells = { marks_apart };

    ghost equal_by_meaning = { Prim.search rules };

    ghost copies_equal = { Prim.search rules };
}

/// It marks all but superscripts and plain text, and gives no texts of its own.
#[derive(Clone, Drop)]
pub struct MarkedDecorator {}

impl MarkedDecorator {
    /// The decorator. It takes no memory.
    pub fn new() -> MarkedDecorator {
        MarkedDecorator {}
    }
}

impl TextDecorator for MarkedDecorator {
    type Annotation = Mark;

    ghost start_text = { λ _. trivial.start_text };

    ghost annotation = { λ _. elim [ start.superscript ↦ Nothing | _ ↦ Marked ] };

    ghost end_text = { λ _. trivial.end_text };

    ghost preformatted = { λ _ _. Marked };

    ghost prefix_text = { λ _ _. [] };

    ghost colour_annotation = { λ _ _ _. None };

    ghost ends_colour = { λ _ _. false };

    ghost footnotes = { λ _. usual.footnotes Nothing };

    ghost subblock = { λ d. d };

    ghost after = { λ d _. d };

    fn decorate_link_start(
        &mut self,
        alloc: Global,
        _url: &str,
    ) -> Result<(String, Mark), OutOfMemory> {
        Ok((text::empty(alloc), Mark::Marked))
    }

    fn decorate_link_end(&mut self, alloc: Global) -> Result<String, OutOfMemory> {
        Ok(text::empty(alloc))
    }

    fn decorate_em_start(&self, alloc: Global) -> Result<(String, Mark), OutOfMemory> {
        Ok((text::empty(alloc), Mark::Marked))
    }

    fn decorate_em_end(&self, alloc: Global) -> Result<String, OutOfMemory> {
        Ok(text::empty(alloc))
    }

    fn decorate_strong_start(&self, alloc: Global) -> Result<(String, Mark), OutOfMemory> {
        Ok((text::empty(alloc), Mark::Marked))
    }

    fn decorate_strong_end(&self, alloc: Global) -> Result<String, OutOfMemory> {
        Ok(text::empty(alloc))
    }

    fn decorate_strikeout_start(&self, alloc: Global) -> Result<(String, Mark), OutOfMemory> {
        Ok((text::empty(alloc), Mark::Marked))
    }

    fn decorate_strikeout_end(&self, alloc: Global) -> Result<String, OutOfMemory> {
        Ok(text::empty(alloc))
    }

    fn decorate_code_start(&self, alloc: Global) -> Result<(String, Mark), OutOfMemory> {
        Ok((text::empty(alloc), Mark::Marked))
    }

    fn decorate_code_end(&self, alloc: Global) -> Result<String, OutOfMemory> {
        Ok(text::empty(alloc))
    }

    fn decorate_superscript_start(&self, alloc: Global) -> Result<(String, Mark), OutOfMemory> {
        usual::superscript_start(alloc)
    }

    fn decorate_superscript_end(&self, alloc: Global) -> Result<String, OutOfMemory> {
        usual::superscript_end(alloc)
    }

    fn decorate_preformat_first(&self, _alloc: Global) -> Result<Mark, OutOfMemory> {
        Ok(Mark::Marked)
    }

    fn decorate_preformat_cont(&self, _alloc: Global) -> Result<Mark, OutOfMemory> {
        Ok(Mark::Marked)
    }

    fn decorate_image(
        &mut self,
        alloc: Global,
        _src: &str,
        title: &str,
    ) -> Result<(String, Mark), OutOfMemory> {
        Ok((text::copy(alloc, title)?, Mark::Marked))
    }

    fn header_prefix(&self, alloc: Global, _level: usize) -> Result<String, OutOfMemory> {
        Ok(text::empty(alloc))
    }

    fn quote_prefix(&self, alloc: Global) -> Result<String, OutOfMemory> {
        Ok(text::empty(alloc))
    }

    fn unordered_item_prefix(&self, alloc: Global) -> Result<String, OutOfMemory> {
        Ok(text::empty(alloc))
    }

    fn ordered_item_prefix(&self, alloc: Global, _i: i64) -> Result<String, OutOfMemory> {
        Ok(text::empty(alloc))
    }

    fn make_subblock_decorator(&self, _alloc: Global) -> Result<Self, OutOfMemory> {
        Ok(self.clone()?)
    }

    fn push_colour(&mut self, alloc: Global, colour: Colour) -> Result<Option<Mark>, OutOfMemory> {
        usual::push_colour(alloc, colour)
    }

    fn pop_colour(&mut self) -> bool {
        usual::pop_colour()
    }

    fn push_bgcolour(
        &mut self,
        alloc: Global,
        colour: Colour,
    ) -> Result<Option<Mark>, OutOfMemory> {
        usual::push_bgcolour(alloc, colour)
    }

    fn pop_bgcolour(&mut self) -> bool {
        usual::pop_bgcolour()
    }

    fn finalise(
        &mut self,
        alloc: Global,
        urls: Vec<String>,
    ) -> Result<Vec<TaggedLine<Mark>>, OutOfMemory> {
        usual::finalise(alloc, urls)
    }
}
