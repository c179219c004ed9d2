//! Worked examples of struck out text.
use crate::expected::Expected::{Lines, LinesUnder, Pieces};
use crate::expected::{Example, meet_all};
use test_calls::calls::Call::{Closes, Opens, Text};
use test_calls::calls::{Closing, Opening};
use test_calls::told::{Told, Under};

const EXAMPLES: &[Example] = &[
    Example {
        name: "a stroke is after each character",
        told: Told::Nothing,
        width: 3,
        calls: &[
            Opens(Opening::Strikeout),
            Text("a b"),
            Closes(Closing::Strikeout),
        ],
        expected: &[Lines("a\u{336} \u{336}b\u{336}\n")],
    },
    Example {
        name: "a space that begins no line leaves its stroke",
        told: Told::Nothing,
        width: 1,
        calls: &[
            Opens(Opening::Strikeout),
            Text("a "),
            Closes(Closing::Strikeout),
        ],
        expected: &[Lines("a\u{336}\n\u{336}\n")],
    },
    Example {
        name: "a wide character has one stroke",
        told: Told::Nothing,
        width: 3,
        calls: &[
            Opens(Opening::Strikeout),
            Text("漢a"),
            Closes(Closing::Strikeout),
        ],
        expected: &[Lines("漢\u{336}a\u{336}\n")],
    },
    Example {
        name: "struck out text ends",
        told: Told::Nothing,
        width: 9,
        calls: &[
            Text("a"),
            Opens(Opening::Strikeout),
            Text("b"),
            Closes(Closing::Strikeout),
            Text("c"),
        ],
        expected: &[Pieces(Under::Rich, "a:[] b\u{336}:[Strikeout] c:[] \n")],
    },
    Example {
        name: "each strikeout has a stroke",
        told: Told::Nothing,
        width: 9,
        calls: &[
            Opens(Opening::Strikeout),
            Opens(Opening::Strikeout),
            Text("a"),
        ],
        expected: &[Lines("a\u{336}\u{336}\n")],
    },
    Example {
        name: "a combining character has none",
        told: Told::Nothing,
        width: 9,
        calls: &[
            Opens(Opening::Strikeout),
            Opens(Opening::Strikeout),
            Text("a\u{336}b"),
        ],
        expected: &[Lines("a\u{336}\u{336}\u{336}b\u{336}\u{336}\n")],
    },
    Example {
        name: "a zero width space has none",
        told: Told::Nothing,
        width: 9,
        calls: &[
            Opens(Opening::Strikeout),
            Opens(Opening::Strikeout),
            Text("a\u{200b}b"),
        ],
        expected: &[Lines("a\u{336}\u{336}b\u{336}\u{336}\n")],
    },
    Example {
        name: "strokes take no column",
        told: Told::Nothing,
        width: 3,
        calls: &[Opens(Opening::Strikeout), Text("漢漢漢")],
        expected: &[LinesUnder(Under::OneColumnEach, "漢\u{336}漢\u{336}漢\u{336}\n")],
    },
    Example {
        name: "text has no strokes where they are off",
        told: Told::NoStrokes,
        width: 9,
        calls: &[Opens(Opening::Strikeout), Text("a b")],
        expected: &[LinesUnder(Under::Plain, "a b\n")],
    },
    Example {
        name: "without strokes a strikeout that nothing began may end",
        told: Told::NoStrokes,
        width: 9,
        calls: &[Closes(Closing::Strikeout), Text("a")],
        expected: &[LinesUnder(Under::Plain, "a\n")],
    },
];

#[test]
fn struck_out_text_has_strokes(rt: HostRuntime) {
    meet_all(&rt, rt.alloc(), EXAMPLES);
}
