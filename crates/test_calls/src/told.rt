//! What renderers are told when they are made.
ghost use Rattle.std.specs.Prelude.{◌<◌, ◌≢◌, Some};

use std::alloc::Global;
use tbr_decor::PlainDecorator;
use tbr_renderer::{ImageRenderMode, RenderOptions, SubRenderer};

/// What a renderer is told apart from the usual options.
#[derive(Clone, Copy)]
pub enum Told {
    Nothing,
    /// A line may be wider than the renderer.
    Overflow,
    /// Blocks have five columns, and lines are padded.
    Padding,
    /// Struck out text has no strokes.
    NoStrokes,
    /// Borders of rows are not drawn.
    NoBorders,
    /// What an image without a title shows.
    Images(ImageRenderMode),
    /// Each option differs from the usual one.
    Unusual,
}

/// A decorator, and what gives the widths of characters.
#[derive(Clone, Copy, Debug)]
pub enum Under {
    Plain,
    Trivial,
    Rich,
    Marked,
    Odd,
    /// The plain decorator, where every character takes one column.
    OneColumnEach,
    /// The odd one, where every character takes one column.
    OddOneColumnEach,
}

/// Options of which each differs from the usual one.
pub const UNUSUAL: RenderOptions = RenderOptions {
    wrap_width: Some(7),
    allow_width_overflow: true,
    pad_block_width: true,
    raw: true,
    draw_borders: false,
    fence_tables: true,
    wrap_links: false,
    include_link_footnotes: true,
    use_unicode_strikeout: false,
    img_mode: ImageRenderMode::Replace("image"),
};

/// The options of a renderer.
pub fn options(told: Told) -> RenderOptions
    ensures { result.wrap_width ≢ Some 0 }
{
    let mut options = RenderOptions::default();
    match told {
        Told::Nothing => {}
        Told::Overflow => options.allow_width_overflow = true,
        Told::Padding => {
            options.wrap_width = Some(5);
            options.pad_block_width = true;
        }
        Told::NoBorders => options.draw_borders = false,
        Told::NoStrokes => options.use_unicode_strikeout = false,
        Told::Images(mode) => options.img_mode = mode,
        Told::Unusual => options = UNUSUAL,
    }
    options
}

/// A renderer that hasn't been called, under the plain decorator.
pub fn plain(alloc: Global, width: usize, told: Told) -> SubRenderer<PlainDecorator>
    requires { 0 < width }
{
    SubRenderer::new(alloc, width, options(told), PlainDecorator::new())
}
