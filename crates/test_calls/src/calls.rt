//! Renderers that are called call by call, and the lines that they have then.
use crate::inside::{Block, Cell, append_aligned, append_block, append_columns, append_row};
use std::alloc::Global;
use std::collections::LinkedList;
use std::fmt::Debug;
use tbr_decor::{Colour, TextDecorator};
use tbr_lines::{CellAlign, CharWidth, Error, OutOfMemory, RenderLine, WhiteSpace};
use tbr_renderer::{Renderer, SubRenderer};
use test_support::texts::{append_marked_line, append_pieces};

/// A colour for tests.
pub const RED: Colour = Colour { r: 255, g: 0, b: 0 };

/// A call that ends something and can't refuse.
#[derive(Clone, Copy)]
pub enum End {
    Block,
    Mode,
    /// A preformatted stretch, where one is open.
    Preformat,
    Colour,
    Background,
}

/// What a decorator opens.
#[derive(Clone, Copy)]
pub enum Opening<'a> {
    /// A link by its target.
    Link(&'a str),
    Emphasis,
    Strong,
    Strikeout,
    Code,
    Superscript,
}

/// What a decorator closes.
#[derive(Clone, Copy)]
pub enum Closing {
    Link,
    Emphasis,
    Strong,
    /// A strikeout, where one is open or no text has strokes.
    Strikeout,
    Code,
    Superscript,
}

/// A call on a renderer.
#[derive(Clone, Copy)]
pub enum Call<'a> {
    Text(&'a str),
    Marker(&'a str),
    Mode(WhiteSpace),
    Preformat,
    StartBlock,
    StartTable,
    Line,
    HardLine,
    EmptyLine,
    Opens(Opening<'a>),
    Closes(Closing),
    /// An image by its source and title.
    Image(&'a str, &'a str),
    Colour(Colour),
    Background(Colour),
    /// A border of the renderer's width.
    Border,
    BorderWidth(usize),
    /// The lines of a renderer inside, after these prefixes, each of which has a bar after it.
    Append(Block<'a>, &'a str),
    /// Renderers inside, one below another.
    VertRow(&'a [Block<'a>]),
    /// Cells, side by side; whether borders of neighbours are merged.
    Row(&'a [Cell<'a>], bool),
    /// As many cells as there are alignments, side by side.
    AlignedRow(&'a [Cell<'a>], &'a [CellAlign]),
    Ends(End),
}

fn make_end<D: TextDecorator, W: CharWidth>(r: &mut SubRenderer<D, W>, what: End) {
    match what {
        End::Block => r.end_block(),
        End::Mode => r.pop_ws(),
        End::Preformat => {
            if r.preformat_depth() > 0 {
                r.pop_preformat();
            }
        }
        End::Colour => r.pop_colour(),
        End::Background => r.pop_bgcolour(),
    }
}

fn open<D: TextDecorator, W: CharWidth>(
    r: &mut SubRenderer<D, W>,
    what: Opening<'_>,
) -> Result<(), Error> {
    match what {
        Opening::Link(target) => r.start_link(target),
        Opening::Emphasis => r.start_emphasis(),
        Opening::Strong => r.start_strong(),
        Opening::Strikeout => r.start_strikeout(),
        Opening::Code => r.start_code(),
        Opening::Superscript => r.start_superscript(),
    }
}

fn close<D: TextDecorator, W: CharWidth>(
    r: &mut SubRenderer<D, W>,
    what: Closing,
) -> Result<(), Error> {
    match what {
        Closing::Link => r.end_link(),
        Closing::Emphasis => r.end_emphasis(),
        Closing::Strong => r.end_strong(),
        Closing::Strikeout => close_strikeout(r),
        Closing::Code => r.end_code(),
        Closing::Superscript => r.end_superscript(),
    }
}

fn close_strikeout<D: TextDecorator, W: CharWidth>(r: &mut SubRenderer<D, W>) -> Result<(), Error> {
    if r.options().use_unicode_strikeout && r.strikeout_depth() == 0 {
        return Ok(());
    }
    r.end_strikeout()
}

/// Makes a call.
pub fn make<D: TextDecorator, W: CharWidth>(
    alloc: Global,
    r: &mut SubRenderer<D, W>,
    call: Call<'_>,
) -> Result<(), Error> {
    match call {
        Call::Text(text) => r.add_inline_text(text),
        Call::Marker(name) => r.record_frag_start(name),
        Call::Mode(mode) => r.push_ws(mode),
        Call::Preformat => r.push_preformat(),
        Call::StartBlock => r.start_block(),
        Call::StartTable => r.start_table(),
        Call::Line => r.new_line(),
        Call::HardLine => r.new_line_hard(),
        Call::EmptyLine => r.add_empty_line(),
        Call::Opens(what) => open(r, what),
        Call::Closes(what) => close(r, what),
        Call::Image(src, title) => r.add_image(src, title),
        Call::Colour(colour) => r.push_colour(colour),
        Call::Background(colour) => r.push_bgcolour(colour),
        Call::Border => r.add_horizontal_border(),
        Call::BorderWidth(width) => r.add_horizontal_border_width(width),
        Call::Append(block, prefixes) => append_block(alloc, r, block, prefixes),
        Call::VertRow(blocks) => append_row(alloc, r, blocks),
        Call::Row(cells, collapse) => append_columns(alloc, r, cells, collapse),
        Call::AlignedRow(cells, aligns) => append_aligned(alloc, r, cells, aligns),
        Call::Ends(what) => {
            make_end(r, what);
            Ok(())
        }
    }
}

/// Makes calls, up to the first that refuses.
pub fn make_all<D: TextDecorator, W: CharWidth>(
    alloc: Global,
    r: &mut SubRenderer<D, W>,
    calls: &[Call<'_>],
) -> Result<(), Error> {
    for call in calls {
        make(alloc, r, *call)?;
    }
    Ok(())
}

/// What lines show.
#[derive(Clone, Copy)]
pub enum Shown {
    /// Their text.
    Text,
    /// Their text with markers, as `<name>`.
    Markers,
    /// Their pieces, each with its annotations; only the text of a border.
    Pieces,
}

/// Appends a border, and a newline.
fn append_border<T>(all: &mut String, line: &RenderLine<T>) -> Result<(), OutOfMemory> {
    all.push_str(line.to_text()?.as_str())?;
    all.push('\n')?;
    Ok(())
}

/// Appends a line, and a newline.
fn append_line<T: Debug + Drop>(
    all: &mut String,
    alloc: Global,
    shown: Shown,
    line: &RenderLine<T>,
) -> Result<(), OutOfMemory> {
    match (shown, line) {
        (Shown::Pieces, RenderLine::Text(line)) => append_pieces(all, alloc, line),
        (_, RenderLine::Text(line)) => append_marked_line(all, line),
        (_, RenderLine::Line(_)) => append_border(all, line),
    }
}

/// What lines show, each with a newline.
fn shown_lines<T: Debug + Drop>(
    alloc: Global,
    shown: Shown,
    lines: LinkedList<RenderLine<T>>,
) -> Result<String, OutOfMemory> {
    let mut all = String::new(alloc);
    for line in lines {
        append_line(&mut all, alloc, shown, &line)?;
    }
    Ok(all)
}

/// What the lines of a renderer show, each with a newline.
fn shown_of<D: TextDecorator, W: CharWidth>(
    alloc: Global,
    shown: Shown,
    r: SubRenderer<D, W>,
) -> Result<String, Error> {
    match shown {
        Shown::Text => r.into_string(),
        Shown::Markers | Shown::Pieces => Ok(shown_lines(alloc, shown, r.into_lines()?)?),
    }
}

/// What the lines after calls show, each with a newline.
pub fn handed_out<D: TextDecorator, W: CharWidth>(
    alloc: Global,
    shown: Shown,
    mut r: SubRenderer<D, W>,
    calls: &[Call<'_>],
) -> Result<String, Error> {
    make_all(alloc, &mut r, calls)?;
    shown_of(alloc, shown, r)
}

/// A renderer's failure, whether it is empty, its columns, and how many preformatted stretches and strikeouts are open.
pub fn tells<D: TextDecorator, W: CharWidth>(
    r: &SubRenderer<D, W>,
) -> (Option<Error>, bool, usize, usize, usize) {
    (
        r.failure(),
        r.empty(),
        r.width(),
        r.preformat_depth(),
        r.strikeout_depth(),
    )
}
