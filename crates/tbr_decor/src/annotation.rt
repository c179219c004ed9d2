//! What rich text is annotated with.
use crate::colour::Colour;
use std::marker::Model;
use tbr_tags::Tag;

/// What a stretch of rich text is.
#[derive(PartialEq, Eq, Clone, Debug, Default, Drop)]
pub enum RichAnnotation {
    /// Nothing in particular.
    #[default]
    Default,
    /// A link, with its target.
    Link(String),
    /// The text that shows an image, with the image's source.
    Image(String),
    /// Emphasised text.
    Emphasis,
    /// Strong text.
    Strong,
    /// Struck out text.
    Strikeout,
    /// Code.
    Code,
    /// Preformatted text, and whether it is on a line that continues one that was too long.
    Preformat(bool),
    /// Text in a colour.
    Colour(Colour),
    /// Text on a background in a colour.
    BgColour(Colour),
}

/// What a rich annotation means. None is ever made.
pub struct RichMeaning {
    none: (),
}

impl Model for RichMeaning {
    ghost use Rattle.tbr_decor.specs.Style.{Style, plain};

    ghost Value = { Style };

    ghost view = { λ _. plain };
}

impl Tag for RichAnnotation {
    ghost use Rattle.tbr_decor.specs.Style.{style_of, same_style};
    ghost use Rattle.tbr_decor.specs.RichLaws.{equal_by_style, styles_apart, copies_equal};

    type Meaning = RichMeaning;

    ghost meaning = { style_of };

    ghost same = { same_style };

    ghost tells = { styles_apart };

    ghost equal_by_meaning = { equal_by_style };

    ghost copies_equal = { copies_equal };
}
