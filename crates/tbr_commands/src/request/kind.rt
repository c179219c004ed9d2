//! What commands begin, and the commands that end it.
ghost use Rattle.std.specs.Prelude.{◌≡◌, ◌<◌, true, None, Err, OnOk, IsOk};
ghost use Rattle.tbr_tagged.specs.declared.Error.TheVariants as E;
ghost use Rattle.tbr_decor.specs.Decoration.{decoration_of};
ghost use Rattle.tbr_renderer.specs.Calls.{Does, IsTooNarrow};
ghost use Rattle.tbr_commands.specs.declared.request.kind.Kind.TheVariants as kind;
ghost use Rattle.tbr_commands.specs.Request.{end_of, ends_freely};

use tbr_decor::TextDecorator;
use tbr_model::CharWidth;
use tbr_renderer::{Renderer, SubRenderer};
use tbr_tagged::Error;

/// What one command begins and another ends.
#[derive(Clone, Copy, Debug, PartialEq, Eq)]
pub enum Kind {
    /// A mode of white space.
    Mode,
    /// A preformatted stretch.
    Preformat,
    /// Emphasised text.
    Emphasis,
    /// Strong text.
    Strong,
    /// Struck out text.
    Strikeout,
    /// Code.
    Code,
    /// A superscript.
    Superscript,
    /// Text in a colour.
    Colour,
    /// A background in a colour.
    Background,
}

impl Kind {
    /// Asks a renderer to end it. The renderer must not have failed. A preformatted stretch must be open, and so must a
    /// strikeout with strokes.
    ///
    /// It refuses as the renderer's call does, and never where that can't refuse.
    pub fn end<D: TextDecorator, W: CharWidth>(
        self,
        renderer: &mut SubRenderer<D, W>,
    ) -> Result<(), Error>
        requires live { renderer.old.failure ≡ None }
        requires preformats { self ≡ kind.Preformat → 0 < renderer.old.preformatted }
        requires strikeouts { self ≡ kind.Strikeout → renderer.old.options.use_unicode_strikeout ≡ true →
            0 < renderer.old.strikeouts }
        ensures ok { OnOk result (Does W.columns (decoration_of D.TextDecorator D.Annotation.tells) (end_of self)
            renderer.old renderer.new) }
        ensures too_narrow { result ≡ Err E.TooNarrow →
            IsTooNarrow W.columns (decoration_of D.TextDecorator D.Annotation.tells) (end_of self) renderer.old }
        ensures free { ends_freely self ≡ true → IsOk result }
    {
        match self {
            Kind::Mode => renderer.pop_ws(),
            Kind::Preformat => renderer.pop_preformat(),
            Kind::Colour => renderer.pop_colour(),
            Kind::Background => renderer.pop_bgcolour(),
            Kind::Emphasis => return renderer.end_emphasis(),
            Kind::Strong => return renderer.end_strong(),
            Kind::Strikeout => return renderer.end_strikeout(),
            Kind::Code => return renderer.end_code(),
            Kind::Superscript => return renderer.end_superscript(),
        }
        Ok(())
    }
}
