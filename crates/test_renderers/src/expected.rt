//! Worked examples as tables: calls on a new renderer, and what it is expected to have then.
ghost use Rattle.std.specs.Prelude.{◌<◌};

use std::alloc::Global;
use std::process::Abort;
use tbr_decor::{PlainDecorator, RichDecorator, TextDecorator, TrivialDecorator};
use tbr_lines::{CharWidth, Error, UnicodeColumns};
use tbr_renderer::SubRenderer;
use test_calls::calls::{Call, Shown, handed_out};
use test_calls::told::{Told, Under, options};
use test_support::columns::EveryOne;
use test_support::marked::MarkedDecorator;
use test_support::odd::OddDecorator;

const EACH: [Under; 4] = [Under::Plain, Under::Trivial, Under::Rich, Under::Marked];

/// What is expected after calls.
#[derive(Clone, Copy)]
pub enum Expected {
    /// The lines, under each shipped decorator and one that has only the usual answers.
    Lines(&'static str),
    LinesUnder(Under, &'static str),
    /// The lines with their markers, as `<name>`, under the plain decorator.
    Markers(&'static str),
    /// The pieces of the lines, each with its annotations.
    Pieces(Under, &'static str),
    /// A refusal, under the plain decorator.
    Refused(Error),
}

/// Calls on a new renderer, and what is expected then.
#[derive(Clone, Copy)]
pub struct Example {
    pub name: &'static str,
    pub told: Told,
    pub width: usize,
    pub calls: &'static [Call<'static>],
    pub expected: &'static [Expected],
}

/// What the lines after an example's calls show.
fn shown_by<D: TextDecorator, W: CharWidth>(
    alloc: Global,
    example: Example,
    shown: Shown,
    decorator: D,
) -> Result<String, Error>
    requires { 0 < example.width }
{
    let r: SubRenderer<D, W> = SubRenderer::new(
        alloc,
        example.width,
        options(example.told),
        decorator,
    );
    handed_out(alloc, shown, r, example.calls)
}

/// What the lines after an example's calls show under one decorator.
fn shown_under(alloc: Global, example: Example, shown: Shown, under: Under) -> Result<String, Error>
    requires { 0 < example.width }
{
    match under {
        Under::Plain => shown_by::<_, UnicodeColumns>(alloc, example, shown, PlainDecorator::new()),
        Under::Trivial => {
            shown_by::<_, UnicodeColumns>(alloc, example, shown, TrivialDecorator::new())
        }
        Under::Rich => shown_by::<_, UnicodeColumns>(alloc, example, shown, RichDecorator::new()),
        Under::Marked => {
            shown_by::<_, UnicodeColumns>(alloc, example, shown, MarkedDecorator::new())
        }
        Under::Odd => shown_by::<_, UnicodeColumns>(alloc, example, shown, OddDecorator::new()),
        Under::OneColumnEach => {
            shown_by::<_, EveryOne>(alloc, example, shown, PlainDecorator::new())
        }
        Under::OddOneColumnEach => {
            shown_by::<_, EveryOne>(alloc, example, shown, OddDecorator::new())
        }
    }
}

/// The text is shown, or the example of that name fails.
pub fn compare(
    rt: &impl Abort,
    name: &str,
    under: Under,
    shown: Result<String, Error>,
    text: &str,
) {
    match shown {
        Ok(shown) => assert_eq!(rt; shown.as_str(), text, "{name} ({under:?})"),
        Err(error) => panic!(rt; "{name} ({under:?}): {error:?}"),
    }
}

/// The example shows a text.
fn shows(rt: &impl Abort, alloc: Global, example: Example, shown: Shown, under: Under, text: &str) {
    assert!(rt; 0 < example.width);
    let shown = shown_under(alloc, example, shown, under);
    compare(rt, example.name, under, shown, text);
}

/// The example has these lines under each decorator.
fn shows_lines(rt: &impl Abort, alloc: Global, example: Example, lines: &str) {
    for under in EACH {
        shows(rt, alloc, example, Shown::Text, under, lines);
    }
}

/// The example is refused.
fn refuses(rt: &impl Abort, alloc: Global, example: Example, refusal: Error) {
    assert!(rt; 0 < example.width);
    let seen = shown_under(alloc, example, Shown::Text, Under::Plain);
    assert!(rt; seen.err() == Some(refusal), "{}", example.name);
}

fn meets(rt: &impl Abort, alloc: Global, example: Example, expected: Expected) {
    match expected {
        Expected::Lines(lines) => shows_lines(rt, alloc, example, lines),
        Expected::LinesUnder(under, lines) => shows(rt, alloc, example, Shown::Text, under, lines),
        Expected::Markers(lines) => shows(rt, alloc, example, Shown::Markers, Under::Plain, lines),
        Expected::Pieces(under, pieces) => shows(rt, alloc, example, Shown::Pieces, under, pieces),
        Expected::Refused(refusal) => refuses(rt, alloc, example, refusal),
    }
}

/// The example has all that is expected.
fn meets_each(rt: &impl Abort, alloc: Global, example: Example) {
    for expected in example.expected {
        meets(rt, alloc, example, *expected);
    }
}

/// Each example has all that is expected.
pub fn meet_all(rt: &impl Abort, alloc: Global, examples: &[Example]) {
    for example in examples {
        meets_each(rt, alloc, *example);
    }
}
