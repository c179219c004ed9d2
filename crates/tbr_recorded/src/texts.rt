//! What a command writes.
ghost use Rattle.std.specs.Prelude.{◌≡◌, ◌++◌, ℕ, List, [], None, Some, chars, codes, IsTrue, IfOk, IfSome};
ghost use Rattle.std.specs.Char.{is_ascii};
ghost use Rattle.std.specs.Fmt.{decimal};
ghost use Rattle.std.specs.List.{list_all};
ghost use Rattle.tbr_tagged.specs.View.{chars_of};
ghost use Rattle.tbr_decor.specs.Start as start;
ghost use Rattle.tbr_decor.specs.End as end;
ghost use Rattle.tbr_renderer.specs.Image as shown;
ghost use Rattle.tbr_commands.specs.Command.{command_of};
ghost use Rattle.tbr_commands.specs.declared.opening.Decorator.{Decorator as Named};
ghost use Rattle.tbr_recorded.specs.Texts.{noted, opening_text, closing_text, text_before, text_after, after_link, titled, image_text};

use std::alloc::Global;
use tbr_commands::{Beginning, Command, Decorator, Kind};
use tbr_decor::text;
use tbr_renderer::{ImageRenderMode, RenderOptions};
use tbr_tagged::OutOfMemory;

/// What decides what commands write.
#[derive(Clone, Copy, Debug, PartialEq, Eq)]
pub struct Texts {
    /// What puts texts round links, images and superscripts.
    pub decorator: Decorator,
    /// Whether links are numbered, and what an image without a title shows.
    pub options: RenderOptions,
    /// How many links have begun.
    pub links: usize,
}

impl Texts {
    /// Counts the link that a command begins, if it begins one.
    pub fn note(&mut self, command: &Command)
        ensures { self.new ≡ noted (command_of command.now) self.old }
    {
        if matches!(command, Command::Link(_)) {
            self.links = self.links.saturating_add(1);
        }
    }

    /// What is written where a link ends. It refuses only where memory is refused.
    pub fn after_link(&self, alloc: Global) -> Result<String, OutOfMemory>
        ensures { IfOk result (λ t. chars_of t ≡ after_link self.now) }
    {
        let bracket = closing_bracket(self.decorator);
        if self.options.include_link_footnotes {
            numbered(alloc, bracket, self.links)
        } else {
            text::ascii(alloc, bracket)
        }
    }

    /// What is written for an image. It refuses only where memory is refused.
    pub fn image(&self, alloc: Global, source: &str, title: &str) -> Result<String, OutOfMemory>
        ensures { IfOk result (λ t. chars_of t ≡ image_text self.now (chars source.now) (chars title.now)) }
    {
        match shown_title(self.options.img_mode, source, title) {
            Some(title) => titled(alloc, self.decorator, title),
            None => Ok(text::empty(alloc)),
        }
    }
}

/// What is written where nothing is.
pub fn no_text() -> &'static str
    ensures { chars result.now ≡ [] }
{
    ""
}

/// What is written where a link begins.
pub fn opening_bracket(decorator: Decorator) -> &'static str
    ensures { (target : List ℕ) → chars result.now ≡ opening_text decorator (start.link target) }
{
    match decorator {
        Decorator::Plain => "[",
        Decorator::Trivial => "",
        Decorator::Rich => "",
    }
}

/// What is written where it ends, besides its number.
fn closing_bracket(decorator: Decorator) -> &'static str
    ensures text { result.now ≡ closing_text decorator end.link }
    ensures ascii { IsTrue (list_all is_ascii result.now) }
{
    match decorator {
        Decorator::Plain => "]",
        Decorator::Trivial => "",
        Decorator::Rich => "",
    }
}

/// A text, and a number in brackets. It asks that the text is ASCII, and refuses only where memory is refused.
fn numbered(alloc: Global, bracket: &str, number: usize) -> Result<String, OutOfMemory>
    requires { IsTrue (list_all is_ascii bracket.now) }
    ensures { IfOk result (λ t. chars_of t ≡ bracket.now ++ (codes "[" ++ (decimal number ++ codes "]"))) }
{
    Ok(format!(in alloc; "{bracket}[{number}]")?)
}

/// What is written where a stretch begins. No decorator of scripts marks one but a superscript.
pub fn text_before(beginning: Beginning) -> &'static str
    ensures { (d : Named) → chars result.now ≡ text_before d beginning }
{
    match beginning {
        Beginning::Superscript => "^{",
        _ => "",
    }
}

/// What is written where one ends.
pub fn text_after(kind: Kind) -> &'static str
    ensures { (d : Named) → chars result.now ≡ text_after d kind }
{
    match kind {
        Kind::Superscript => "}",
        _ => "",
    }
}

/// An image with a title. It refuses only where memory is refused.
fn titled(alloc: Global, decorator: Decorator, title: &str) -> Result<String, OutOfMemory>
    ensures { IfOk result (λ t. (source : List ℕ) → chars_of t ≡ titled decorator source (Some (chars title.now))) }
{
    match decorator {
        Decorator::Plain => text::bracketed(alloc, title),
        Decorator::Trivial => text::copy(alloc, title),
        Decorator::Rich => text::copy(alloc, title),
    }
}

/// The title that is shown for an image, if one is.
fn shown_title<'a>(mode: ImageRenderMode, source: &'a str, title: &'a str) -> Option<&'a str>
    ensures some { IfSome result (λ found.
        shown.shown_title mode (chars source.now) (chars title.now) ≡ Some (chars found.now)) }
    ensures none { result ≡ None → shown.shown_title mode (chars source.now) (chars title.now) ≡ None }
{
    if !title.is_empty() {
        return Some(title);
    }
    match mode {
        ImageRenderMode::IgnoreEmpty => None,
        ImageRenderMode::ShowAlways => Some(title),
        ImageRenderMode::Replace(title) => Some(title),
        ImageRenderMode::Filename => Some(file_name(source)),
    }
}

/// What follows the last `/` of a source, or all of it.
fn file_name(source: &str) -> &str
    ensures { chars result.now ≡ shown.file_name (chars source.now) }
{
    match source.rsplit_once('/') {
        Some((_, name)) => name,
        None => source,
    }
}
