//! Text and backgrounds in a colour.
ghost use Rattle.std.specs.Prelude.{◌≡◌, IfOk, IfErr, OnOk, OnErr};
ghost use Rattle.std.specs.Option.{option_map};
ghost use Rattle.tbr_tagged.specs.declared.Error.TheVariants as E;
ghost use Rattle.tbr_decor.specs.Decoration.{decoration_of};
ghost use Rattle.tbr_renderer.specs.Renderer.{kept_of};
ghost use Rattle.tbr_renderer.specs.View.{ground_of};
ghost use Rattle.tbr_renderer.specs.Decorated.{asked_for_colour, asked_to_end, coloured, uncoloured};

use crate::sub::SubRenderer;
use tbr_decor::{Colour, TextDecorator};
use tbr_model::CharWidth;
use tbr_tagged::{Error, OutOfMemory};

/// What is coloured.
#[derive(Clone, Copy)]
pub(crate) enum Ground {
    Text,
    Background,
}

impl<D: TextDecorator, W: CharWidth> SubRenderer<D, W> {
    /// The decorator's annotation for a colour, if it has one.
    fn ask_for_colour(
        &mut self,
        ground: Ground,
        colour: Colour,
    ) -> Result<Option<D::Annotation>, OutOfMemory>
        ensures annotation { IfOk result (λ a.
            option_map D.Annotation.meaning a ≡ D.colour_annotation self.old.decorator (ground_of ground) colour) }
        ensures asked { OnOk result (self.new
            ≡ asked_for_colour (decoration_of D.TextDecorator D.Annotation.tells) (ground_of ground) colour self.old) }
        ensures err { OnErr result (self.new ≡ self.old) }
    {
        match ground {
            Ground::Text => self.decorator.push_colour(self.alloc, colour),
            Ground::Background => self.decorator.push_bgcolour(self.alloc, colour),
        }
    }

    /// Adds the annotation of a colour, if it has one, to those of later text.
    pub(crate) fn try_push_colour(&mut self, ground: Ground, colour: Colour) -> Result<(), Error>
        ensures ok { OnOk result (self.new
            ≡ coloured (decoration_of D.TextDecorator D.Annotation.tells) (ground_of ground) colour self.old) }
        ensures memory { IfErr result (λ e. e ≡ E.OutOfMemory) }
        ensures kept { kept_of self.new ≡ kept_of self.old }
    {
        if let Some(annotation) = self.ask_for_colour(ground, colour)? {
            self.push_annotation(annotation)?;
        }
        Ok(())
    }

    /// Whether the decorator says that the end of a colour removes an annotation.
    fn ask_to_end_colour(&mut self, ground: Ground) -> bool
        ensures taken { result ≡ D.ends_colour self.old.decorator (ground_of ground) }
        ensures asked { self.new
            ≡ asked_to_end (decoration_of D.TextDecorator D.Annotation.tells) (ground_of ground) self.old }
    {
        match ground {
            Ground::Text => self.decorator.pop_colour(),
            Ground::Background => self.decorator.pop_bgcolour(),
        }
    }

    /// Removes the last annotation, if the decorator says that the end of a colour does so.
    pub(crate) fn take_colour(&mut self, ground: Ground)
        ensures { self.new
            ≡ uncoloured (decoration_of D.TextDecorator D.Annotation.tells) (ground_of ground) self.old }
    {
        if self.ask_to_end_colour(ground) {
            self.pop_annotation();
        }
    }
}
