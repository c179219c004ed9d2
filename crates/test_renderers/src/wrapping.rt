//! Worked examples of text that is wrapped.
use crate::expected::Expected::{Lines, LinesUnder, Refused};
use crate::expected::{Example, meet_all};
use tbr_lines::Error;
use test_calls::calls::Call::{Line, Text};
use test_calls::told::{Told, Under};

/// Words between which a line may break without a space.
pub const BREAKS: &str =
    "Do break a line somewhere in foo\u{200b}bar\u{200b}foo\u{200b}bar\u{200b}foo\u{200b}bar\
    \u{200b}foo\u{200b}bar\u{200b}foo\u{200b}bar\u{200b}foo\u{200b}bar";

const EXAMPLES: &[Example] = &[
    Example {
        name: "words go where they fit, and wider ones are cut",
        told: Told::Nothing,
        width: 8,
        calls: &[Text("Hello, world.  Superlongwordreally")],
        expected: &[Lines("Hello,\nworld.\nSuperlon\ngwordrea\nlly\n")],
    },
    Example {
        name: "a wider word never fills the line after another",
        told: Told::Nothing,
        width: 4,
        calls: &[Text("Hello there boo")],
        expected: &[Lines("Hell\no\nther\ne\nboo\n")],
    },
    Example {
        name: "two texts make one run",
        told: Told::Nothing,
        width: 9,
        calls: &[Text("ab"), Text("c d")],
        expected: &[Lines("abc d\n")],
    },
    Example {
        name: "a zero width space breaks",
        told: Told::Nothing,
        width: 40,
        calls: &[Text(BREAKS)],
        expected: &[Lines("Do break a line somewhere in foobarfoo\nbarfoobarfoobarfoobarfoobar\n")],
    },
    Example {
        name: "a no-break space does not break",
        told: Told::Nothing,
        width: 40,
        calls: &[Text("Don't break a line between the words Foo\u{a0}and\u{a0}Bar")],
        expected: &[Lines("Don't break a line between the words\nFoo\u{a0}and\u{a0}Bar\n")],
    },
    Example {
        name: "wide characters take two columns, or one by another width instance",
        told: Told::Nothing,
        width: 3,
        calls: &[Text("漢漢漢")],
        expected: &[
            Lines("漢\n漢\n漢\n"),
            LinesUnder(Under::OneColumnEach, "漢漢漢\n"),
        ],
    },
    Example {
        name: "no text gives no line",
        told: Told::Nothing,
        width: 5,
        calls: &[Text("")],
        expected: &[Lines("")],
    },
    Example {
        name: "white space alone gives no line",
        told: Told::Nothing,
        width: 5,
        calls: &[Text("   ")],
        expected: &[Lines("")],
    },
    Example {
        name: "a character wider than the renderer is refused",
        told: Told::Nothing,
        width: 1,
        calls: &[Text("漢")],
        expected: &[Refused(Error::TooNarrow)],
    },
    Example {
        name: "a character wider than the renderer overflows",
        told: Told::Overflow,
        width: 1,
        calls: &[Text("漢")],
        expected: &[LinesUnder(Under::Plain, "漢\n")],
    },
    Example {
        name: "each line may overflow",
        told: Told::Overflow,
        width: 1,
        calls: &[Text("漢"), Line, Text("漢")],
        expected: &[LinesUnder(Under::Plain, "漢\n漢\n")],
    },
];

#[test]
fn text_is_wrapped(rt: HostRuntime) {
    meet_all(&rt, rt.alloc(), EXAMPLES);
}
