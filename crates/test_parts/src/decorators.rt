//! What the shipped decorators answer, and one that has only the usual answers.
use std::alloc::Global;
use std::fmt::Debug;
use std::process::Abort;
use std::test::Fail;
use tbr_decor::{
    Colour, PlainDecorator, RichAnnotation, RichDecorator, TextDecorator, TrivialDecorator,
};
use tbr_lines::{OutOfMemory, TaggedLine, TaggedString};
use test_support::marked::{Mark, MarkedDecorator};

/// The text is the one that is expected.
fn shows<E: Debug + Drop>(rt: &impl Abort, text: Result<String, E>, expected: &str) {
    match text {
        Ok(text) => assert_eq!(rt; text.as_str(), expected),
        Err(error) => panic!(rt; "{error:?}"),
    }
}

fn two_targets(alloc: Global) -> Result<Vec<String>, OutOfMemory> {
    let first = String::from_str(alloc, "a")?;
    let second = String::from_str(alloc, "b")?;
    Ok(vec![in alloc; first, second]?)
}

/// The texts of lines, each with a newline.
fn texts<A: Drop>(
    alloc: Global,
    lines: Result<Vec<TaggedLine<A>>, OutOfMemory>,
) -> Result<String, OutOfMemory> {
    let mut texts = String::new(alloc);
    for line in &lines? {
        texts.push_str(line.to_text()?.as_str())?;
        texts.push('\n')?;
    }
    Ok(texts)
}

/// Appends a bar and the text.
fn append(all: &mut String, text: Result<String, OutOfMemory>) -> Result<(), OutOfMemory> {
    all.push('|')?;
    all.push_str(text?.as_str())?;
    Ok(())
}

/// The texts before a header, a quote, an item and a numbered item, with bars between.
fn prefixes<D: TextDecorator>(
    alloc: Global,
    decorator: D,
    level: usize,
    number: i64,
) -> Result<String, OutOfMemory> {
    let mut all = decorator.header_prefix(alloc, level)?;
    append(&mut all, decorator.quote_prefix(alloc))?;
    append(&mut all, decorator.unordered_item_prefix(alloc))?;
    append(&mut all, decorator.ordered_item_prefix(alloc, number))?;
    Ok(all)
}

#[test]
fn prefixes_are_plain_characters(rt: HostRuntime) {
    let alloc = rt.alloc();
    shows(
        &rt,
        prefixes(alloc, PlainDecorator::new(), 3, -1),
        "### |> |* |-1. ",
    );
    shows(
        &rt,
        prefixes(alloc, RichDecorator::new(), 0, 12),
        " |> |* |12. ",
    );
    shows(&rt, prefixes(alloc, TrivialDecorator::new(), 3, -1), "|||");
}

#[test]
fn least_number_has_a_prefix(rt: HostRuntime) {
    let least = PlainDecorator::new().ordered_item_prefix(rt.alloc(), i64::MIN);
    shows(&rt, least, "-9223372036854775808. ");
}

/// The text before a header of the greatest level.
fn greatest_header<D: TextDecorator>(alloc: Global, decorator: D) -> Result<String, OutOfMemory> {
    decorator.header_prefix(alloc, usize::MAX)
}

#[test]
fn header_whose_text_passes_every_size_is_refused(rt: HostRuntime) {
    let alloc = rt.alloc();
    assert!(rt; greatest_header(alloc, PlainDecorator::new()).is_err());
    assert!(rt; greatest_header(alloc, RichDecorator::new()).is_err());
    shows(&rt, greatest_header(alloc, TrivialDecorator::new()), "");
}

/// The text that shows an image.
fn image<D: TextDecorator>(alloc: Global, mut decorator: D) -> Result<String, OutOfMemory> {
    Ok(decorator.decorate_image(alloc, "s", "t")?.0)
}

/// Whether the rich annotation of an image has the image's source.
fn rich_image_has_its_source(alloc: Global) -> Result<bool, OutOfMemory> {
    let annotation = RichDecorator::new().decorate_image(alloc, "s", "t")?.1;
    Ok(annotation == RichAnnotation::Image(String::from_str(alloc, "s")?))
}

#[test]
fn image_shows_its_title(rt: HostRuntime) -> Result<(), Fail> {
    let alloc = rt.alloc();
    shows(&rt, image(alloc, RichDecorator::new()), "t");
    assert!(rt; rich_image_has_its_source(alloc)?);
    shows(&rt, image(alloc, PlainDecorator::new()), "[t]");
    shows(&rt, image(alloc, TrivialDecorator::new()), "t");
    Ok(())
}

/// The lines after a document with two targets.
fn footnotes<D: TextDecorator>(alloc: Global, mut decorator: D) -> Result<String, OutOfMemory> {
    let targets = two_targets(alloc)?;
    texts(alloc, decorator.finalise(alloc, targets))
}

#[test]
fn targets_are_numbered_lines(rt: HostRuntime) -> Result<(), Fail> {
    let alloc = rt.alloc();
    shows(
        &rt,
        footnotes(alloc, RichDecorator::new()),
        "[1]: a\n[2]: b\n",
    );
    let none = PlainDecorator::new().finalise(alloc, Vec::new(alloc))?;
    assert!(rt; none.is_empty());
    Ok(())
}

/// A superscript of the marked decorator.
fn marks_superscript(rt: &impl Abort, alloc: Global) -> Result<(), Fail> {
    let marked = MarkedDecorator::new();
    let (start, annotation) = marked.decorate_superscript_start(alloc)?;
    assert_eq!(rt; start.as_str(), "^{");
    assert!(rt; annotation == Mark::Nothing);
    shows(rt, marked.decorate_superscript_end(alloc), "}");
    Ok(())
}

#[test]
fn decorator_without_answers_of_its_own_has_the_usual_ones(rt: HostRuntime) -> Result<(), Fail> {
    let alloc = rt.alloc();
    marks_superscript(&rt, alloc)?;
    let mut marked = MarkedDecorator::new();
    let red = Colour { r: 255, g: 0, b: 0 };
    assert!(rt; marked.push_colour(alloc, red)?.is_none());
    assert!(rt; !marked.pop_colour());
    assert!(rt; marked.push_bgcolour(alloc, red)?.is_none());
    assert!(rt; !marked.pop_bgcolour());
    shows(&rt, footnotes(alloc, marked), "[1]: a\n[2]: b\n");
    Ok(())
}

fn rich_piece(
    alloc: Global,
    text: &str,
    tag: RichAnnotation,
) -> Result<TaggedString<RichAnnotation>, OutOfMemory> {
    let s = String::from_str(alloc, text)?;
    Ok(TaggedString { s, tag })
}

fn rich_line(alloc: Global) -> Result<TaggedLine<RichAnnotation>, OutOfMemory> {
    let mut line = TaggedLine::new(alloc);
    line.push_str(rich_piece(alloc, "plain ", RichAnnotation::Default)?)?;
    line.push_str(rich_piece(alloc, "strong", RichAnnotation::Strong)?)?;
    Ok(line)
}

fn mark_of(annotation: RichAnnotation) -> Mark {
    match annotation {
        RichAnnotation::Default => Mark::Nothing,
        _ => Mark::Marked,
    }
}

fn marked_line(alloc: Global) -> Result<TaggedLine<Mark>, OutOfMemory> {
    rich_line(alloc)?.map_tag(&|annotation| mark_of(annotation))
}

fn marks(alloc: Global, line: &TaggedLine<Mark>) -> Result<Vec<Mark>, OutOfMemory> {
    let mut marks = Vec::new(alloc);
    for piece in line.tagged_strings() {
        marks.push(piece.tag)?;
    }
    Ok(marks)
}

#[test]
fn rich_line_takes_another_annotation(rt: HostRuntime) -> Result<(), Fail> {
    let alloc = rt.alloc();
    let line = marked_line(alloc)?;
    let marks = marks(alloc, &line)?;
    assert_eq!(rt; marks.as_slice(), [Mark::Nothing, Mark::Marked].as_slice());
    shows(&rt, line.to_text(), "plain strong");
    Ok(())
}
