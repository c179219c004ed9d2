//! What a line of a script asks a renderer for.
ghost use Rattle.std.specs.Prelude.{◌≡◌, ◌<◌, true, None, Some, Err, OnOk, IsOk, IfOk};
ghost use Rattle.std.specs.Option.{option_map};
ghost use Rattle.tbr_tagged.specs.declared.Error.TheVariants as E;
ghost use Rattle.tbr_decor.specs.Decoration.{decoration_of};
ghost use Rattle.tbr_renderer.specs.Calls.{Does, IsTooNarrow};
ghost use Rattle.tbr_script.specs.Read.{number_read};
ghost use Rattle.tbr_commands.specs.declared.request.beginning.Beginning.TheVariants as beginning;
ghost use Rattle.tbr_commands.specs.declared.request.kind.Kind.TheVariants as kind;
ghost use Rattle.tbr_commands.specs.Read.{looked_up, modes, read_by, request_readers};
ghost use Rattle.tbr_commands.specs.Request as asked;
ghost use Rattle.tbr_commands.specs.Request.{request_of, call_of, takes_no_memory};
ghost use Rattle.tbr_commands.specs.Begun.{begins, ends};

use crate::request::beginning::Beginning;
use crate::request::colour::colour;
use crate::request::kind::Kind;
use crate::request::layout::Layout;
use std::alloc::{AllocError, Global};
use tbr_decor::{Colour, TextDecorator};
use tbr_model::{CharWidth, WhiteSpace};
use tbr_renderer::{Renderer, SubRenderer};
use tbr_script::{TextPair, parse_number, unescape};
use tbr_tagged::Error;

pub mod beginning;
pub mod colour;
pub mod kind;
pub mod layout;

/// What a line of a script asks a renderer for. Each is one call of it.
#[derive(Debug, Drop)]
pub enum Request {
    /// A block or a line begins or ends.
    Layout(Layout),
    /// Something begins by a command without an argument.
    Begin(Beginning),
    /// What was begun ends.
    End(Kind),
    /// A text.
    Text(String),
    /// A marker, by its name.
    Fragment(String),
    /// An image: its source, and its title.
    Image(TextPair),
    /// Text in a colour begins.
    Colour(Colour),
    /// A background in a colour begins.
    Background(Colour),
    /// A border of this many columns, or of the renderer's width.
    Border(Option<usize>),
}

impl Request {
    /// What a word and its argument ask the renderer for. `Ok(None)` where they ask it for nothing. It refuses only
    /// where memory is refused.
    pub fn with_argument(
        alloc: Global,
        word: &str,
        argument: &str,
    ) -> Result<Option<Request>, AllocError>
        ensures { IfOk result (λ found. option_map request_of found ≡ read_by request_readers word.now argument.now) }
    {
        match word {
            "text" => Ok(unescape(alloc, argument)?.map(Request::Text)),
            "frag" => Ok(unescape(alloc, argument)?.map(Request::Fragment)),
            "image" => Ok(TextPair::parse(alloc, argument)?.map(Request::Image)),
            "colour" => Ok(colour(argument).map(Request::Colour)),
            "bg" => Ok(colour(argument).map(Request::Background)),
            "border" => Ok(border(argument)),
            "ws" => Ok(mode(argument)),
            _ => Ok(None),
        }
    }

    /// What it begins, if it begins something.
    pub fn begins(&self) -> Option<Kind>
        ensures { result ≡ begins (request_of self.now) }
    {
        match self {
            Request::Begin(beginning) => Some(beginning.kind()),
            Request::Colour(_) => Some(Kind::Colour),
            Request::Background(_) => Some(Kind::Background),
            _ => None,
        }
    }

    /// What it ends, if it ends something that commands begin.
    pub fn ends(&self) -> Option<Kind>
        ensures { result ≡ ends (request_of self.now) }
    {
        match self {
            Request::End(kind) => Some(*kind),
            _ => None,
        }
    }

    /// Asks a renderer for it. The renderer must not have failed. A preformatted stretch that ends must be open, and so
    /// must a strikeout with strokes.
    ///
    /// It refuses as the renderer's call does, and never where that can't refuse.
    pub fn call<D: TextDecorator, W: CharWidth>(
        &self,
        renderer: &mut SubRenderer<D, W>,
    ) -> Result<(), Error>
        requires live { renderer.old.failure ≡ None }
        requires preformats { request_of self.now ≡ asked.end kind.Preformat → 0 < renderer.old.preformatted }
        requires strikeouts { request_of self.now ≡ asked.end kind.Strikeout →
            renderer.old.options.use_unicode_strikeout ≡ true → 0 < renderer.old.strikeouts }
        ensures ok { let asks = call_of renderer.old.width (request_of self.now) in
            OnOk result (Does W.columns (decoration_of D.TextDecorator D.Annotation.tells) asks renderer.old
            renderer.new) }
        ensures too_narrow { let asks = call_of renderer.old.width (request_of self.now) in
            result ≡ Err E.TooNarrow →
            IsTooNarrow W.columns (decoration_of D.TextDecorator D.Annotation.tells) asks renderer.old }
        ensures free { takes_no_memory (request_of self.now) ≡ true → IsOk result }
    {
        match self {
            Request::Layout(layout) => layout.call(renderer),
            Request::Begin(beginning) => beginning.call(renderer),
            Request::End(kind) => kind.end(renderer),
            Request::Text(text) => renderer.add_inline_text(text.as_str()),
            Request::Fragment(name) => renderer.record_frag_start(name.as_str()),
            Request::Image(image) => {
                renderer.add_image(image.first.as_str(), image.second.as_str())
            }
            Request::Colour(colour) => renderer.push_colour(*colour),
            Request::Background(colour) => renderer.push_bgcolour(*colour),
            Request::Border(None) => renderer.add_horizontal_border(),
            Request::Border(Some(columns)) => renderer.add_horizontal_border_width(*columns),
        }
    }
}

/// The border of as many columns as a number says.
fn border(digits: &str) -> Option<Request>
    ensures { option_map request_of result ≡ option_map (λ n. asked.border (Some n)) (number_read digits.now) }
{
    Some(Request::Border(Some(parse_number(digits)?)))
}

/// The mode of white space that a name asks for.
fn mode(name: &str) -> Option<Request>
    ensures { option_map request_of result
        ≡ option_map (λ mode. asked.begin (beginning.Mode mode)) (looked_up modes name.now) }
{
    let mode = match name {
        "normal" => WhiteSpace::Normal,
        "pre" => WhiteSpace::Pre,
        "prewrap" => WhiteSpace::PreWrap,
        _ => return None,
    };
    Some(Request::Begin(Beginning::Mode(mode)))
}
