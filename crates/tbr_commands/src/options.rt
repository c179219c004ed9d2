//! The options of a script's first command.
ghost use Rattle.std.specs.Prelude.{◌≡◌};
ghost use Rattle.tbr_commands.specs.Options.{with_setting};
ghost use Rattle.tbr_commands.specs.Read.{wrap_read, setting_read, options_read};

use tbr_renderer::{ImageRenderMode, RenderOptions};
use tbr_script::{Words, parse_size};

/// What one word tells the renderer.
#[derive(Clone, Copy, Debug)]
pub enum Setting {
    /// The most columns that a line of wrapped text takes.
    Wrap(usize),
    /// A character that is wider than a line goes on a line of its own.
    Overflow,
    /// Lines are filled with spaces up to their width.
    Pad,
    /// Borders of tables aren't drawn.
    NoBorders,
    /// Targets after the text aren't cut.
    NoWrapLinks,
    /// Links are numbered, and their targets listed after the text.
    Footnotes,
    /// Struck out text has no strokes.
    NoStrike,
    /// What an image without a title shows.
    Images(ImageRenderMode),
}

impl Setting {
    /// The setting that a word is, if it is one.
    fn parse(word: &str) -> Option<Setting>
        ensures { result ≡ setting_read word.now }
    {
        match word {
            "overflow" => Some(Setting::Overflow),
            "pad" => Some(Setting::Pad),
            "noborders" => Some(Setting::NoBorders),
            "nowraplinks" => Some(Setting::NoWrapLinks),
            "footnotes" => Some(Setting::Footnotes),
            "nostrike" => Some(Setting::NoStrike),
            "img=ignore" => Some(Setting::Images(ImageRenderMode::IgnoreEmpty)),
            "img=filename" => Some(Setting::Images(ImageRenderMode::Filename)),
            "img=always" => Some(Setting::Images(ImageRenderMode::ShowAlways)),
            _ => wrap(word),
        }
    }

    /// Sets this one in the options.
    fn set(self, options: &mut RenderOptions)
        ensures { options.new ≡ with_setting options.old self }
    {
        match self {
            Setting::Wrap(columns) => options.wrap_width = Some(columns),
            Setting::Overflow => options.allow_width_overflow = true,
            Setting::Pad => options.pad_block_width = true,
            Setting::NoBorders => options.draw_borders = false,
            Setting::NoWrapLinks => options.wrap_links = false,
            Setting::Footnotes => options.include_link_footnotes = true,
            Setting::NoStrike => options.use_unicode_strikeout = false,
            Setting::Images(mode) => options.img_mode = mode,
        }
    }
}

/// The wrap width that a word is, if it is one.
fn wrap(word: &str) -> Option<Setting>
    ensures { result ≡ wrap_read word.now }
{
    Some(Setting::Wrap(parse_size(word.strip_prefix("wrap=")?)?))
}

/// The options that words give. If two of one kind are given, the later one counts. `None` where a word is no option.
pub fn parse_options(mut words: Words<'_>) -> Option<RenderOptions>
    ensures { result ≡ options_read words.entry }
{
    let mut options = RenderOptions::default();
    while let Some(word) = words.next() {
        Setting::parse(word)?.set(&mut options);
    }
    Some(options)
}
