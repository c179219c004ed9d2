//! Blocks with the decorator's own prefixes.
ghost use Rattle.std.specs.Prelude.{◌≡◌, IfOk, chars, string_bytes};
ghost use Rattle.tbr_tagged.specs.View.{chars_of};
ghost use Rattle.tbr_decor.specs.Prefix.{asked_prefix};
ghost use Rattle.tbr_statements.specs.Block as model;

use std::alloc::Global;
use tbr_decor::DecoratorPrefix;
use tbr_model::CharWidth;
use tbr_script::TextPair;
use tbr_tagged::{OutOfMemory, spaces, text_width};

/// A block that comes after a prefix of the decorator.
#[derive(Clone, Copy, Debug, PartialEq, Eq)]
pub enum Block {
    /// A quotation: each line comes after the prefix, between empty lines.
    Quote,
    /// An item of a list: the first line after the prefix, and the others after as many spaces.
    Item,
    /// The item of this number.
    Ordered(i64),
    /// A heading of this level: each line comes after the prefix, between empty lines.
    Heading(usize),
}

impl Block {
    /// The decorator's prefix that it has.
    pub fn prefix(self) -> DecoratorPrefix
        ensures { asked_prefix result ≡ model.prefix_of self }
    {
        match self {
            Block::Quote => DecoratorPrefix::Quote,
            Block::Item => DecoratorPrefix::Item,
            Block::Ordered(number) => DecoratorPrefix::OrderedItem(number),
            Block::Heading(level) => DecoratorPrefix::Header(level),
        }
    }

    /// Whether it is a block of its own, with an empty line before it and after it.
    pub fn stands_apart(self) -> bool
        ensures { result ≡ model.stands_apart self }
    {
        matches!(self, Block::Quote | Block::Heading(_))
    }

    /// The command that ends it.
    pub fn end(self) -> &'static str
        ensures { result.now ≡ model.end_of self }
    {
        match self {
            Block::Quote => "endquote",
            Block::Item => "enditem",
            Block::Ordered(_) => "endordered",
            Block::Heading(_) => "endheading",
        }
    }

    /// What an error calls it.
    pub fn name(self) -> &'static str
        ensures { result.now ≡ model.name_of self }
    {
        match self {
            Block::Quote => "a quote",
            Block::Item => "an item",
            Block::Ordered(_) => "an ordered item",
            Block::Heading(_) => "a heading",
        }
    }

    /// What comes before its first line, and before the others, if the decorator's prefix is this text. It refuses
    /// where memory is refused, and where the prefix's columns pass `usize`.
    pub fn prefixes<W: CharWidth>(
        self,
        alloc: Global,
        prefix: String,
    ) -> Result<TextPair, OutOfMemory>
        ensures first { IfOk result (λ texts. string_bytes texts.first ≡ string_bytes prefix) }
        ensures others { IfOk result (λ texts.
            chars_of texts.second ≡ model.other_prefix W.columns self (chars_of prefix)) }
    {
        let second = self.other_prefix::<W>(alloc, prefix.as_str())?;
        Ok(TextPair {
            first: prefix,
            second,
        })
    }

    /// What comes before its lines after the first.
    fn other_prefix<W: CharWidth>(self, alloc: Global, prefix: &str) -> Result<String, OutOfMemory>
        ensures { IfOk result (λ other.
            chars_of other ≡ model.other_prefix W.columns self (chars prefix.now)) }
    {
        if self.stands_apart() {
            Ok(String::from_str(alloc, prefix)?)
        } else {
            spaces(alloc, text_width::<W>(prefix)?)
        }
    }
}
