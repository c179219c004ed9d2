//! The first command of a script.
ghost use Rattle.std.specs.Prelude.{◌≡◌, ◌≢◌, ◌<◌, Some, IfSome};
ghost use Rattle.tbr_commands.specs.Read.{decorator_read, asked_for, opening_read};

use crate::options::parse_options;
use tbr_renderer::RenderOptions;
use tbr_script::{Words, parse_size};

/// A decorator, by its name.
#[derive(Clone, Copy, Debug, PartialEq, Eq)]
pub enum Decorator {
    /// `PlainDecorator`.
    Plain,
    /// `TrivialDecorator`.
    Trivial,
    /// `RichDecorator`.
    Rich,
}

/// What the first command asks for.
#[derive(Debug, Drop)]
pub struct Opening {
    /// The columns of the renderer, at least 1.
    pub width: usize,
    /// The decorator of its texts.
    pub decorator: Decorator,
    /// What the renderer is told to do. A wrap width is at least 1.
    pub options: RenderOptions,
}

impl Decorator {
    /// The decorator of a name, if there is one.
    fn named(name: &str) -> Option<Decorator>
        ensures { result ≡ decorator_read name.now }
    {
        match name {
            "plain" => Some(Decorator::Plain),
            "trivial" => Some(Decorator::Trivial),
            "rich" => Some(Decorator::Rich),
            _ => None,
        }
    }
}

impl Opening {
    /// The first command that a line without its newline is. `None` where it is none.
    pub fn parse(line: &str) -> Option<Opening>
        ensures read { result ≡ opening_read line.now }
        ensures width { IfSome result (λ opening. 0 < opening.width) }
        ensures wrap_width { IfSome result (λ opening. opening.options.wrap_width ≢ Some 0) }
    {
        let mut words = Words::of(line);
        if words.next()? != "new" {
            return None;
        }
        Opening::after_new(words)
    }

    /// The first command, by the words after `new`. `None` where these make none.
    fn after_new(mut words: Words<'_>) -> Option<Opening>
        ensures { result ≡ asked_for words.entry }
    {
        let (digits, name) = (words.next()?, words.next()?);
        Some(Opening {
            width: parse_size(digits)?,
            decorator: Decorator::named(name)?,
            options: parse_options(words)?,
        })
    }
}
