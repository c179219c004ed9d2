//! Images.
ghost use Rattle.std.specs.Prelude.{◌≡◌, ◌≢◌, ◌≤◌, None, Err, OnOk, OnErr, chars};
ghost use Rattle.tbr_tagged.specs.declared.Error.TheVariants as E;
ghost use Rattle.tbr_decor.specs.Decoration.{decoration_of};
ghost use Rattle.tbr_renderer.specs.Renderer.{kept_of, block_width};
ghost use Rattle.tbr_renderer.specs.Decorated.{after_image};
ghost use Rattle.tbr_renderer.specs.Outcomes.{Tries};

use crate::sub::SubRenderer;
use crate::sub::decorated::Start;
use tbr_decor::TextDecorator;
use tbr_model::CharWidth;
use tbr_tagged::Error;

impl<D: TextDecorator, W: CharWidth> SubRenderer<D, W> {
    /// Adds the decorator's text for an image, if one is shown, under an annotation of its own.
    pub(crate) fn try_add_image(&mut self, src: &str, title: &str) -> Result<(), Error>
        requires { self.old.failure ≡ None }
        ensures tries { Tries
            (after_image W.columns (decoration_of D.TextDecorator D.Annotation.tells) (chars src.now) (chars title.now))
            self.old result self.new }
        ensures two_columns { 2 ≤ block_width self.old → result ≢ Err E.TooNarrow }
        ensures kept { kept_of self.new ≡ kept_of self.old }
    {
        let Some(title) = self.options.img_mode.shown_title(src, title) else {
            return Ok(());
        };
        self.try_open(Start::Image(src, title))?;
        self.pop_annotation();
        Ok(())
    }
}
