//! Worked examples of narrow renderers, and of characters that take two columns or none.
ghost use Rattle.std.specs.Prelude.{◌<◌};

use crate::expected::Expected::{Lines, LinesUnder, Refused};
use crate::expected::{Example, meet_all};
use crate::wrapping::BREAKS;
use std::alloc::Global;
use std::process::Abort;
use tbr_decor::{PlainDecorator, TextDecorator};
use tbr_lines::{CharWidth, Error, UnicodeColumns};
use tbr_renderer::{Renderer, SubRenderer};
use test_calls::calls::Call::Text;
use test_calls::calls::{Shown, handed_out};
use test_calls::told::{Told, Under, options};
use test_support::columns::EveryOne;
use test_support::odd::OddDecorator;

const EXAMPLES: &[Example] = &[
    Example {
        name: "a wide character is on a line of two columns",
        told: Told::Nothing,
        width: 2,
        calls: &[Text("a漢b")],
        expected: &[
            Lines("a\n漢\nb\n"),
            LinesUnder(Under::OneColumnEach, "a漢\nb\n"),
            LinesUnder(Under::Odd, "a\n漢\nb\n"),
        ],
    },
    Example {
        name: "a wide character overflows one column",
        told: Told::Overflow,
        width: 1,
        calls: &[Text("a漢b")],
        expected: &[
            LinesUnder(Under::Plain, "a\n漢\nb\n"),
            LinesUnder(Under::OneColumnEach, "a\n漢\nb\n"),
            LinesUnder(Under::Odd, "a\n漢\nb\n"),
        ],
    },
    Example {
        name: "a wide character is refused at one column",
        told: Told::Nothing,
        width: 1,
        calls: &[Text("a漢b")],
        expected: &[
            Refused(Error::TooNarrow),
            LinesUnder(Under::OneColumnEach, "a\n漢\nb\n"),
        ],
    },
    Example {
        name: "characters of no width stay with what is before",
        told: Told::Nothing,
        width: 2,
        calls: &[Text("a\u{336}b\u{336}c")],
        expected: &[
            Lines("a\u{336}b\u{336}\nc\n"),
            LinesUnder(Under::OneColumnEach, "a\u{336}b\u{336}\nc\n"),
            LinesUnder(Under::Odd, "a\u{336}b\u{336}\nc\n"),
        ],
    },
    Example {
        name: "a space after a character of no width begins no line",
        told: Told::Nothing,
        width: 9,
        calls: &[Text("\u{336} a")],
        expected: &[
            Lines("\u{336}a\n"),
            LinesUnder(Under::OneColumnEach, "\u{336}a\n"),
            LinesUnder(Under::Odd, "\u{336}a\n"),
        ],
    },
    Example {
        name: "a character of no width is after a space",
        told: Told::Nothing,
        width: 9,
        calls: &[Text("b \u{336} a")],
        expected: &[
            Lines("b \u{336}a\n"),
            LinesUnder(Under::OneColumnEach, "b \u{336}a\n"),
            LinesUnder(Under::Odd, "b \u{336}a\n"),
        ],
    },
    Example {
        name: "a zero width space vanishes, and a no-break space does not",
        told: Told::Nothing,
        width: 9,
        calls: &[Text("a\u{200b}b\u{a0}c")],
        expected: &[
            Lines("ab\u{a0}c\n"),
            LinesUnder(Under::OneColumnEach, "ab\u{a0}c\n"),
            LinesUnder(Under::Odd, "ab\u{a0}c\n"),
        ],
    },
    Example {
        name: "a character of no width is before a wide one that overflows",
        told: Told::Overflow,
        width: 1,
        calls: &[Text("\u{336}漢b")],
        expected: &[
            LinesUnder(Under::Plain, "\u{336}漢\nb\n"),
            LinesUnder(Under::OneColumnEach, "\u{336}漢\nb\n"),
            LinesUnder(Under::Odd, "\u{336}漢\nb\n"),
        ],
    },
];

#[test]
fn narrow_lines_have_wide_characters_and_those_of_no_width(rt: HostRuntime) {
    meet_all(&rt, rt.alloc(), EXAMPLES);
}

/// Texts in `Normal`, with wide characters, those of no width, and words that are cut.
const TEXTS: &[&str] = &[
    "Hello, world.  Superlongwordreally",
    "Hello there boo",
    BREAKS,
    "Don't break a line between the words Foo\u{a0}and\u{a0}Bar",
    "http://example.org/blah/ one two three",
    "漢漢漢",
    "漢",
    "",
    "   ",
    "a b",
    "a漢b",
    "\u{336}漢b",
    "a\u{336}b\u{336}c",
    "\u{336} a",
    "b \u{336} a",
    "a\u{200b}b\u{a0}c",
    "xxxxxxxxxxxxxxxxxxxxxxxxxxxxxxxxxxxxxxxxxxxxxxxxxxxxxxxxxxxxxxxxxxxxxxxxxxxxxxxx",
];

/// A renderer has room for the text: it doesn't refuse it.
fn has_room<D: TextDecorator, W: CharWidth>(
    rt: &impl Abort,
    alloc: Global,
    r: SubRenderer<D, W>,
    text: &str,
) {
    let width = r.width();
    let lines = handed_out(alloc, Shown::Text, r, &[Text(text)]);
    assert!(rt; lines.is_ok(), "{text:?} at width {width}");
}

/// No text is refused at a width.
fn all_have_room<D: TextDecorator, W: CharWidth>(
    rt: &impl Abort,
    alloc: Global,
    width: usize,
    decorator: D,
)
    requires { 0 < width }
{
    let r: SubRenderer<D, W> = SubRenderer::new(alloc, width, options(Told::Nothing), decorator);
    for text in TEXTS {
        if let Ok(inside) = r.new_sub_renderer(width) {
            has_room(rt, alloc, inside, text);
        }
    }
}

#[test]
fn two_columns_are_room_for_every_text(rt: HostRuntime) {
    let alloc = rt.alloc();
    for width in 2..10 {
        all_have_room::<_, UnicodeColumns>(&rt, alloc, width, PlainDecorator::new());
        all_have_room::<_, EveryOne>(&rt, alloc, width, PlainDecorator::new());
        all_have_room::<_, UnicodeColumns>(&rt, alloc, width, OddDecorator::new());
    }
}
