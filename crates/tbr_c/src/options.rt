//! What C tells a new renderer.
ghost use Rattle.std.specs.Prelude.{◌≡◌, ◌≢◌, ◌<◌, Some, IfOk};
ghost use Rattle.tbr_c.specs.Arguments.{decorator_named, images_named, opening_asked};

use tbr_c_lines::Fault;
use tbr_commands::{Decorator, Opening};
use tbr_renderer::{ImageRenderMode, RenderOptions};

/// `tbr_options`.
#[repr(C)]
#[derive(Clone, Copy, Drop)]
pub struct Options {
    pub width: usize,
    pub wrap_width: usize,
    pub decorator: u32,
    pub images: u32,
    pub overflow: bool,
    pub pad: bool,
    pub footnotes: bool,
    pub wrap_links: bool,
    pub strikeout_strokes: bool,
    pub draw_borders: bool,
    pub raw: bool,
}

impl Options {
    /// The first command of a script that asks for the same.
    ///
    /// It answers `BadWidth` where the width is 0, and `BadArgument` where the number of the decorator, or of what
    /// images show, is unknown.
    pub fn opening(&self) -> Result<Opening, Fault>
        ensures asked { result ≡ opening_asked self.now }
        ensures width { IfOk result (λ opening. 0 < opening.width) }
        ensures wrap_width { IfOk result (λ opening. opening.options.wrap_width ≢ Some 0) }
    {
        if self.width == 0 {
            return Err(Fault::BadWidth);
        }
        let decorator = decorator(self.decorator)?;
        let img_mode = images(self.images)?;
        Ok(Opening {
            width: self.width,
            decorator,
            options: RenderOptions {
                wrap_width: (self.wrap_width > 0).then_some(self.wrap_width),
                allow_width_overflow: self.overflow,
                pad_block_width: self.pad,
                draw_borders: self.draw_borders,
                wrap_links: self.wrap_links,
                include_link_footnotes: self.footnotes,
                use_unicode_strikeout: self.strikeout_strokes,
                img_mode,
                ..RenderOptions::default()
            },
        })
    }
}

/// The decorator that a number names.
fn decorator(number: u32) -> Result<Decorator, Fault>
    ensures { result ≡ decorator_named number }
{
    match number {
        0 => Ok(Decorator::Plain),
        1 => Ok(Decorator::Trivial),
        2 => Ok(Decorator::Rich),
        _ => Err(Fault::BadArgument),
    }
}

/// What images without a title show, by its number.
fn images(number: u32) -> Result<ImageRenderMode, Fault>
    ensures { result ≡ images_named number }
{
    match number {
        0 => Ok(ImageRenderMode::IgnoreEmpty),
        1 => Ok(ImageRenderMode::ShowAlways),
        2 => Ok(ImageRenderMode::Filename),
        _ => Err(Fault::BadArgument),
    }
}
