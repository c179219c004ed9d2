//! What a decorator is.
ghost use Rattle.std.specs.Prelude.{◌≡◌, ℕ, Bool, true, false, List, Option, map, chars, IsTrue, ◌↔◌, IfOk, OnOk, OnErr};
ghost use Rattle.std.specs.Option.{option_map};
ghost use Rattle.tbr_tagged.specs.View.{chars_of};
ghost use Rattle.tbr_tagged.specs.Elements.{Element};
ghost use Rattle.tbr_decor.specs.declared.colour.Colour.{Colour};
ghost use Rattle.tbr_decor.specs.Start as start;
ghost use Rattle.tbr_decor.specs.End as end;
ghost use Rattle.tbr_decor.specs.Prefix as prefix;
ghost use Rattle.tbr_decor.specs.Ground as ground;
ghost use Rattle.tbr_decor.specs.Change as change;
ghost use Rattle.tbr_decor.specs.Meant.{lines_meant};

use crate::colour::Colour;
use std::alloc::Global;
use std::fmt::Debug;
use tbr_tagged::{OutOfMemory, TaggedLine};
use tbr_tags::Tag;

/// Puts texts round parts of a document, such as `*` round emphasised text, and annotates what is between, for example
/// with its colour.
///
/// The texts are wrapped with the document's own. The annotations are handed out with the lines, for whoever shows
/// these. A call answers [`OutOfMemory`] where memory is refused or the size of a text passes `usize`, and then leaves
/// the decorator as it was.
///
/// Ghost members say what a decorator means: its texts as characters, its annotations by what they mean. Code that
/// works with any decorator is proved from these alone. Two annotations are equal exactly where they mean the same,
/// `same` tells whether they do, and a copy of an annotation equals it. A call that may change the decorator leaves it
/// as `after` says. A decorator that holds a collection has an `impl Model`, so that this is a value.
///
/// No call has a default body, since a body in a trait is proved for every decorator, whatever its members say. A
/// decorator without superscripts, colours and footnotes of its own uses the answers of [`usual`](crate::usual).
pub trait TextDecorator: Drop {
    /// What a stretch of text can be annotated with.
    type Annotation: Tag + Debug + Default;

    // The text and the annotation of what is opened, and the text of what is closed.
    ghost start_text: { Self → start.Start → List ℕ };

    ghost annotation: { Self → start.Start → Self.Annotation.Meaning };

    ghost end_text: { Self → end.End → List ℕ };

    // The annotation of preformatted lines, and of the lines that continue them.
    ghost preformatted: { Self → Bool → Self.Annotation.Meaning };

    ghost prefix_text: { Self → prefix.Prefix → List ℕ };

    // The annotation of a colour, where it has one, and whether its end takes an annotation away.
    ghost colour_annotation: { Self → ground.Ground → Colour → Option Self.Annotation.Meaning };

    ghost ends_colour: { Self → ground.Ground → Bool };

    // The lines after a document, by the targets of its links.
    ghost footnotes: { Self → List (List ℕ) → List (List (Element Self.Annotation.Meaning)) };

    ghost subblock: { Self → Self };

    // What a call that may change the decorator leaves of it.
    ghost after: { Self → change.Change → Self };

    /// The text before a link to `url`, and the annotation of what is in the link.
    fn decorate_link_start(
        &mut self,
        alloc: Global,
        url: &str,
    ) -> Result<(String, Self::Annotation), OutOfMemory>
        ensures text { IfOk result (λ r. chars_of r.0 ≡ start_text self.old (start.link (chars url.now))) }
        ensures annotation { IfOk result (λ r.
            Self.Annotation.meaning r.1 ≡ annotation self.old (start.link (chars url.now))) }
        ensures after { OnOk result (self.new ≡ after self.old (change.link_start (chars url.now))) }
        ensures err { OnErr result (self.new ≡ self.old) };

    /// The text after a link.
    fn decorate_link_end(&mut self, alloc: Global) -> Result<String, OutOfMemory>
        ensures text { IfOk result (λ text. chars_of text ≡ end_text self.old end.link) }
        ensures after { OnOk result (self.new ≡ after self.old change.link_end) }
        ensures err { OnErr result (self.new ≡ self.old) };

    /// The text before emphasised text, and its annotation.
    fn decorate_em_start(&self, alloc: Global) -> Result<(String, Self::Annotation), OutOfMemory>
        ensures text { IfOk result (λ r. chars_of r.0 ≡ start_text self.now start.emphasis) }
        ensures annotation { IfOk result (λ r. Self.Annotation.meaning r.1 ≡ annotation self.now start.emphasis) };

    /// The text after emphasised text.
    fn decorate_em_end(&self, alloc: Global) -> Result<String, OutOfMemory>
        ensures { IfOk result (λ text. chars_of text ≡ end_text self.now end.emphasis) };

    /// The text before strong text, and its annotation.
    fn decorate_strong_start(
        &self,
        alloc: Global,
    ) -> Result<(String, Self::Annotation), OutOfMemory>
        ensures text { IfOk result (λ r. chars_of r.0 ≡ start_text self.now start.strong) }
        ensures annotation { IfOk result (λ r. Self.Annotation.meaning r.1 ≡ annotation self.now start.strong) };

    /// The text after strong text.
    fn decorate_strong_end(&self, alloc: Global) -> Result<String, OutOfMemory>
        ensures { IfOk result (λ text. chars_of text ≡ end_text self.now end.strong) };

    /// The text before struck out text, and its annotation.
    fn decorate_strikeout_start(
        &self,
        alloc: Global,
    ) -> Result<(String, Self::Annotation), OutOfMemory>
        ensures text { IfOk result (λ r. chars_of r.0 ≡ start_text self.now start.strikeout) }
        ensures annotation { IfOk result (λ r. Self.Annotation.meaning r.1 ≡ annotation self.now start.strikeout) };

    /// The text after struck out text.
    fn decorate_strikeout_end(&self, alloc: Global) -> Result<String, OutOfMemory>
        ensures { IfOk result (λ text. chars_of text ≡ end_text self.now end.strikeout) };

    /// The text before code, and its annotation.
    fn decorate_code_start(&self, alloc: Global) -> Result<(String, Self::Annotation), OutOfMemory>
        ensures text { IfOk result (λ r. chars_of r.0 ≡ start_text self.now start.code) }
        ensures annotation { IfOk result (λ r. Self.Annotation.meaning r.1 ≡ annotation self.now start.code) };

    /// The text after code.
    fn decorate_code_end(&self, alloc: Global) -> Result<String, OutOfMemory>
        ensures { IfOk result (λ text. chars_of text ≡ end_text self.now end.code) };

    /// The text before a superscript, and its annotation.
    fn decorate_superscript_start(
        &self,
        alloc: Global,
    ) -> Result<(String, Self::Annotation), OutOfMemory>
        ensures text { IfOk result (λ r. chars_of r.0 ≡ start_text self.now start.superscript) }
        ensures annotation { IfOk result (λ r. Self.Annotation.meaning r.1 ≡ annotation self.now start.superscript) };

    /// The text after a superscript.
    fn decorate_superscript_end(&self, alloc: Global) -> Result<String, OutOfMemory>
        ensures { IfOk result (λ text. chars_of text ≡ end_text self.now end.superscript) };

    /// The annotation of a preformatted line.
    fn decorate_preformat_first(&self, alloc: Global) -> Result<Self::Annotation, OutOfMemory>
        ensures { IfOk result (λ a. Self.Annotation.meaning a ≡ preformatted self.now false) };

    /// The annotation of a line that continues a preformatted line which was too long.
    fn decorate_preformat_cont(&self, alloc: Global) -> Result<Self::Annotation, OutOfMemory>
        ensures { IfOk result (λ a. Self.Annotation.meaning a ≡ preformatted self.now true) };

    /// The text that shows the image at `src`, and its annotation.
    fn decorate_image(
        &mut self,
        alloc: Global,
        src: &str,
        title: &str,
    ) -> Result<(String, Self::Annotation), OutOfMemory>
        ensures text { IfOk result (λ r.
            chars_of r.0 ≡ start_text self.old (start.image (chars src.now) (chars title.now))) }
        ensures annotation { IfOk result (λ r.
            Self.Annotation.meaning r.1 ≡ annotation self.old (start.image (chars src.now) (chars title.now))) }
        ensures after { OnOk result (self.new ≡ after self.old (change.image (chars src.now) (chars title.now))) }
        ensures err { OnErr result (self.new ≡ self.old) };

    /// The text before each line of a header of the given level.
    fn header_prefix(&self, alloc: Global, level: usize) -> Result<String, OutOfMemory>
        ensures { IfOk result (λ text. chars_of text ≡ prefix_text self.now (prefix.header level)) };

    /// The text before each line of a quoted block.
    fn quote_prefix(&self, alloc: Global) -> Result<String, OutOfMemory>
        ensures { IfOk result (λ text. chars_of text ≡ prefix_text self.now prefix.quote) };

    /// The text before an item of a list.
    fn unordered_item_prefix(&self, alloc: Global) -> Result<String, OutOfMemory>
        ensures { IfOk result (λ text. chars_of text ≡ prefix_text self.now prefix.unordered_item) };

    /// The text before the item of a list that has the number `i`.
    fn ordered_item_prefix(&self, alloc: Global, i: i64) -> Result<String, OutOfMemory>
        ensures { IfOk result (λ text. chars_of text ≡ prefix_text self.now (prefix.ordered_item i)) };

    /// A decorator for a block inside the document.
    fn make_subblock_decorator(&self, alloc: Global) -> Result<Self, OutOfMemory>
        ensures { IfOk result (λ d. d ≡ subblock self.now) };

    /// The annotation of text in a colour, or none.
    fn push_colour(
        &mut self,
        alloc: Global,
        colour: Colour,
    ) -> Result<Option<Self::Annotation>, OutOfMemory>
        ensures annotation { IfOk result (λ a.
            option_map Self.Annotation.meaning a ≡ colour_annotation self.old ground.text colour) }
        ensures after { OnOk result (self.new ≡ after self.old (change.push_colour ground.text colour)) }
        ensures err { OnErr result (self.new ≡ self.old) };

    /// Whether the end of text in a colour removes an annotation. It takes no memory.
    fn pop_colour(&mut self) -> bool
        ensures taken { result ≡ ends_colour self.old ground.text }
        ensures after { self.new ≡ after self.old (change.pop_colour ground.text) };

    /// The annotation of a background in a colour, or none.
    fn push_bgcolour(
        &mut self,
        alloc: Global,
        colour: Colour,
    ) -> Result<Option<Self::Annotation>, OutOfMemory>
        ensures annotation { IfOk result (λ a.
            option_map Self.Annotation.meaning a ≡ colour_annotation self.old ground.background colour) }
        ensures after { OnOk result (self.new ≡ after self.old (change.push_colour ground.background colour)) }
        ensures err { OnErr result (self.new ≡ self.old) };

    /// Whether the end of a background in a colour removes an annotation. It takes no memory.
    fn pop_bgcolour(&mut self) -> bool
        ensures taken { result ≡ ends_colour self.old ground.background }
        ensures after { self.new ≡ after self.old (change.pop_colour ground.background) };

    /// The lines after the document, made of the targets of its links, in their order. The targets are dropped.
    fn finalise(
        &mut self,
        alloc: Global,
        urls: Vec<String>,
    ) -> Result<Vec<TaggedLine<Self::Annotation>>, OutOfMemory>
        ensures lines { IfOk result (λ lines.
            lines_meant Self.Annotation.meaning lines.items ≡ footnotes self.old (map chars_of urls.items)) }
        ensures after { OnOk result (self.new ≡ after self.old (change.finalise (map chars_of urls.items))) }
        ensures err { OnErr result (self.new ≡ self.old) };
}
