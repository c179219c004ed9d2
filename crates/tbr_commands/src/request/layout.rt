//! Commands that end lines.
ghost use Rattle.std.specs.Prelude.{◌≡◌, true, None, Err, OnOk, IsOk};
ghost use Rattle.tbr_tagged.specs.declared.Error.TheVariants as E;
ghost use Rattle.tbr_decor.specs.Decoration.{decoration_of};
ghost use Rattle.tbr_renderer.specs.Calls.{Does, IsTooNarrow};
ghost use Rattle.tbr_commands.specs.Request.{laid_out, lays_out_freely};

use tbr_decor::TextDecorator;
use tbr_model::CharWidth;
use tbr_renderer::{Renderer, SubRenderer};
use tbr_tagged::Error;

/// What a command does to blocks and lines.
#[derive(Clone, Copy, Debug, PartialEq, Eq)]
pub enum Layout {
    /// A block begins.
    StartBlock,
    /// A block ends.
    EndBlock,
    /// A table begins.
    StartTable,
    /// The open line ends, if there is one.
    NewLine,
    /// The open line ends; where there is none, an empty line follows.
    HardNewLine,
    /// The open line ends, and an empty one follows.
    EmptyLine,
}

impl Layout {
    /// Asks a renderer that hasn't failed for it. It refuses as the renderer's call does, which the end of a block
    /// never does.
    pub fn call<D: TextDecorator, W: CharWidth>(
        self,
        renderer: &mut SubRenderer<D, W>,
    ) -> Result<(), Error>
        requires { renderer.old.failure ≡ None }
        ensures ok { OnOk result (Does W.columns (decoration_of D.TextDecorator D.Annotation.tells) (laid_out self)
            renderer.old renderer.new) }
        ensures too_narrow { result ≡ Err E.TooNarrow →
            IsTooNarrow W.columns (decoration_of D.TextDecorator D.Annotation.tells) (laid_out self) renderer.old }
        ensures free { lays_out_freely self ≡ true → IsOk result }
    {
        match self {
            Layout::StartBlock => renderer.start_block(),
            Layout::StartTable => renderer.start_table(),
            Layout::NewLine => renderer.new_line(),
            Layout::HardNewLine => renderer.new_line_hard(),
            Layout::EmptyLine => renderer.add_empty_line(),
            Layout::EndBlock => {
                renderer.end_block();
                Ok(())
            }
        }
    }
}
