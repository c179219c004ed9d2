//! What a renderer is told to do.
ghost use Rattle.std.specs.Prelude.{◌≡◌, chars, None, Some, IfSome};
ghost use Rattle.tbr_renderer.specs.Image.{file_name, shown_title};
ghost use Rattle.tbr_renderer.specs.Options.{default_options};
ghost use Rattle.tbr_renderer.specs.declared.options.ImageRenderMode.TheVariants.{IgnoreEmpty};

/// What an image without a title shows.
#[derive(Clone, Copy, Debug, PartialEq, Eq)]
pub enum ImageRenderMode {
    /// Nothing.
    IgnoreEmpty,
    /// What the decorator makes of the empty title.
    ShowAlways,
    /// A given title.
    Replace(&'static str),
    /// The name of the image's file, which is what follows the last `/` of its source.
    Filename,
}

impl ImageRenderMode {
    /// The title that is shown for an image, if one is.
    pub(crate) fn shown_title<'a>(self, src: &'a str, title: &'a str) -> Option<&'a str>
        ensures some { IfSome result (λ shown.
            shown_title self (chars src.now) (chars title.now) ≡ Some (chars shown.now)) }
        ensures none { result ≡ None → shown_title self (chars src.now) (chars title.now) ≡ None }
    {
        if !title.is_empty() {
            return Some(title);
        }
        match self {
            ImageRenderMode::IgnoreEmpty => None,
            ImageRenderMode::ShowAlways => Some(title),
            ImageRenderMode::Replace(title) => Some(title),
            ImageRenderMode::Filename => Some(file_name(src)),
        }
    }
}

impl Default for ImageRenderMode {
    ghost is_default = { λ mode. mode ≡ IgnoreEmpty };

    /// An image without a title shows nothing.
    fn default() -> ImageRenderMode {
        ImageRenderMode::IgnoreEmpty
    }
}

/// What a renderer is told to do.
#[derive(Clone, Copy, Debug, PartialEq, Eq)]
pub struct RenderOptions {
    /// The most columns that a line of wrapped text takes, at least 1, if it may take fewer than the renderer has.
    pub wrap_width: Option<usize>,
    /// Whether a character that is wider than a line goes on a line of its own. If not, it is refused.
    pub allow_width_overflow: bool,
    /// Whether lines are filled with spaces up to their width.
    pub pad_block_width: bool,
    /// Kept for callers, and not read.
    pub raw: bool,
    /// Whether borders of tables are drawn.
    pub draw_borders: bool,
    /// Kept for callers, and not read.
    pub fence_tables: bool,
    /// Whether the targets after a document are cut where they don't fit a line.
    pub wrap_links: bool,
    /// Whether links are numbered, and their targets listed after the document.
    pub include_link_footnotes: bool,
    /// Whether struck out text has strokes.
    pub use_unicode_strikeout: bool,
    /// What an image without a title shows.
    pub img_mode: ImageRenderMode,
}

impl Default for RenderOptions {
    ghost is_default = { λ options. options ≡ default_options };

    /// Lines as wide as the renderer, without overflow and padding. Borders are drawn, links are wrapped and have no
    /// footnotes, struck out text has strokes, and an image without a title shows nothing.
    fn default() -> RenderOptions {
        RenderOptions {
            wrap_width: None,
            allow_width_overflow: false,
            pad_block_width: false,
            raw: false,
            draw_borders: true,
            fence_tables: false,
            wrap_links: true,
            include_link_footnotes: false,
            use_unicode_strikeout: true,
            img_mode: ImageRenderMode::IgnoreEmpty,
        }
    }
}

/// What follows the last `/` of a source, or all of it.
fn file_name(src: &str) -> &str
    ensures { chars result.now ≡ file_name (chars src.now) }
{
    match src.rsplit_once('/') {
        Some((_, name)) => name,
        None => src,
    }
}
