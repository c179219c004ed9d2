//! Commands without an argument that begin something.
ghost use Rattle.std.specs.Prelude.{◌≡◌, None, Err, OnOk};
ghost use Rattle.tbr_tagged.specs.declared.Error.TheVariants as E;
ghost use Rattle.tbr_decor.specs.Decoration.{decoration_of};
ghost use Rattle.tbr_renderer.specs.Calls.{Does, IsTooNarrow};
ghost use Rattle.tbr_commands.specs.Request.{begun_by};
ghost use Rattle.tbr_commands.specs.Begun.{kind_of};

use crate::request::kind::Kind;
use tbr_decor::TextDecorator;
use tbr_model::{CharWidth, WhiteSpace};
use tbr_renderer::{Renderer, SubRenderer};
use tbr_tagged::Error;

/// What a command begins by its name alone.
#[derive(Clone, Copy, Debug, PartialEq, Eq)]
pub enum Beginning {
    /// A mode of white space.
    Mode(WhiteSpace),
    /// A preformatted stretch.
    Preformat,
    /// Emphasised text.
    Emphasis,
    /// Strong text.
    Strong,
    /// Struck out text.
    Strikeout,
    /// Code.
    Code,
    /// A superscript.
    Superscript,
}

impl Beginning {
    /// What it begins.
    pub fn kind(self) -> Kind
        ensures { result ≡ kind_of self }
    {
        match self {
            Beginning::Mode(_) => Kind::Mode,
            Beginning::Preformat => Kind::Preformat,
            Beginning::Emphasis => Kind::Emphasis,
            Beginning::Strong => Kind::Strong,
            Beginning::Strikeout => Kind::Strikeout,
            Beginning::Code => Kind::Code,
            Beginning::Superscript => Kind::Superscript,
        }
    }

    /// Asks a renderer that hasn't failed for it. It refuses as the renderer's call does.
    pub fn call<D: TextDecorator, W: CharWidth>(
        self,
        renderer: &mut SubRenderer<D, W>,
    ) -> Result<(), Error>
        requires { renderer.old.failure ≡ None }
        ensures ok { OnOk result (Does W.columns (decoration_of D.TextDecorator D.Annotation.tells) (begun_by self)
            renderer.old renderer.new) }
        ensures too_narrow { result ≡ Err E.TooNarrow →
            IsTooNarrow W.columns (decoration_of D.TextDecorator D.Annotation.tells) (begun_by self) renderer.old }
    {
        match self {
            Beginning::Mode(mode) => renderer.push_ws(mode),
            Beginning::Preformat => renderer.push_preformat(),
            Beginning::Emphasis => renderer.start_emphasis(),
            Beginning::Strong => renderer.start_strong(),
            Beginning::Strikeout => renderer.start_strikeout(),
            Beginning::Code => renderer.start_code(),
            Beginning::Superscript => renderer.start_superscript(),
        }
    }
}
