//! Lines in a format.
ghost use Rattle.std.specs.Prelude.{◌≡◌, ◌++◌, ◌∷◌, [], List, ℕ, IfOk, OnOk};
ghost use Rattle.tbr_model.specs.Codes.{newline_character};
ghost use Rattle.tbr_tagged.specs.View.{chars_of};
ghost use Rattle.tbr_tagged.specs.Mapped.{MapsElements};
ghost use Rattle.tbr_decor.specs.declared.annotation.RichAnnotation.{RichAnnotation as Rich};
ghost use Rattle.tbr_view.specs.Shown as model;

use crate::script::Format;
use std::alloc::Global;
use tbr_annotations::{Annotations, written_out};
use tbr_border::RenderLine;
use tbr_decor::RichAnnotation;
use tbr_model::CharWidth;
use tbr_show::{ansi, html, ndjson};
use tbr_tagged::{OutOfMemory, TaggedLine};
use tbr_tags::Tag;

/// Annotations whose lines can be shown.
pub trait Annotation: Tag {
    // What is shown of a list of them.
    ghost rich: { List Self → List Rich };

    /// These annotations as rich ones.
    fn into_rich(alloc: Global, annotations: Vec<Self>) -> Vec<RichAnnotation>
        ensures { result.items ≡ Self.rich annotations.items };
}

impl Annotation for () {
    ghost rich = { model.none };

    fn into_rich(alloc: Global, _annotations: Vec<()>) -> Vec<RichAnnotation>
        ensures { result.items ≡ model.none _annotations.items }
    {
        Vec::new(alloc)
    }
}

impl Annotation for RichAnnotation {
    ghost rich = { model.themselves };

    fn into_rich(_alloc: Global, annotations: Vec<RichAnnotation>) -> Vec<RichAnnotation>
        ensures { result.items ≡ annotations.items }
    {
        annotations
    }
}

/// The lines in a format. It refuses where memory is refused, and where a line's columns pass `usize`.
pub fn show<T: Annotation, W: CharWidth>(
    alloc: Global,
    lines: Vec<RenderLine<Annotations<T>>>,
    format: Format,
) -> Result<String, OutOfMemory>
    ensures { IfOk result (λ text.
        model.AreShown (model.ShowsLine T.meaning T.eq T.rich W.columns format) lines.items (chars_of text)) }
{
    let mut text = String::new(alloc);
    for line in lines {
        push_line::<T, W>(alloc, &mut text, line, format)?;
    }
    Ok(text)
}

/// Appends a line in a format. If the format shows annotations, only those of this line are copied into vectors.
fn push_line<T: Annotation, W: CharWidth>(
    alloc: Global,
    text: &mut String,
    line: RenderLine<Annotations<T>>,
    format: Format,
) -> Result<(), OutOfMemory>
    ensures { OnOk result ((cs : List ℕ) × model.ShowsLine T.meaning T.eq T.rich W.columns format line cs
        × (chars_of text.new ≡ chars_of text.old ++ cs)) }
{
    if is_text(format) {
        return push_characters(text, &line);
    }
    let line = written_out(alloc, line)?;
    push_annotated::<T, W>(alloc, text, line, format)
}

/// Appends a line whose annotations are in vectors, in a format that shows them.
fn push_annotated<T: Annotation, W: CharWidth>(
    alloc: Global,
    text: &mut String,
    line: RenderLine<Vec<T>>,
    format: Format,
) -> Result<(), OutOfMemory>
    ensures { OnOk result ((cs : List ℕ) × model.ShowsAnnotated T.eq T.rich W.columns format line cs
        × (chars_of text.new ≡ chars_of text.old ++ cs)) }
{
    let is_border = is_border(&line);
    let tagged = line.into_tagged_line()?;
    let rich = rich_line(alloc, tagged)?;
    push_elements::<W>(text, &rich, is_border, format)
}

/// Whether the format is the characters of lines alone.
fn is_text(format: Format) -> bool
    ensures { result ≡ model.is_text format }
{
    matches!(format, Format::Text)
}

/// Whether a line is a border.
fn is_border<T>(line: &RenderLine<T>) -> bool
    ensures { result ≡ model.is_border line.now }
{
    matches!(line, RenderLine::Line(_))
}

/// Appends the characters of a line, and a newline.
fn push_characters<T>(text: &mut String, line: &RenderLine<T>) -> Result<(), OutOfMemory>
    ensures { OnOk result (chars_of text.new ≡ chars_of text.old ++ model.line_text line.now) }
{
    line.append_to(text)?;
    end_line(text)
}

/// Appends a newline.
fn end_line(text: &mut String) -> Result<(), OutOfMemory>
    ensures { OnOk result (chars_of text.new ≡ chars_of text.old ++ newline_character ∷ []) }
{
    text.push('\n')?;
    Ok(())
}

/// These elements under rich annotations.
fn rich_line<T: Annotation>(
    alloc: Global,
    line: TaggedLine<Vec<T>>,
) -> Result<TaggedLine<Vec<RichAnnotation>>, OutOfMemory>
    ensures { IfOk result (λ rich. MapsElements (model.IsRich T.rich) line rich) }
{
    line.map_tag(
        &|tag: Vec<T>| -> Vec<RichAnnotation>
            ensures { result.items ≡ T.rich tag.items }
        { T::into_rich(alloc, tag) },
    )
}

/// Appends elements in a format.
fn push_elements<W: CharWidth>(
    text: &mut String,
    line: &TaggedLine<Vec<RichAnnotation>>,
    is_border: bool,
    format: Format,
) -> Result<(), OutOfMemory>
    ensures { OnOk result (chars_of text.new
        ≡ chars_of text.old ++ model.elements_in W.columns format is_border line.now) }
{
    match format {
        Format::Text => {
            line.append_to(text)?;
            end_line(text)
        }
        Format::Bare => ansi::push_bare_line(text, line),
        Format::Ansi => ansi::push_line(text, line),
        Format::Ndjson => ndjson::push_line::<W>(text, line, is_border),
        Format::Html => html::push_line::<W>(text, line),
    }
}
