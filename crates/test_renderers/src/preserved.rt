//! Worked examples of the modes that preserve white space, and of preformatted stretches.
use crate::expected::Expected::{Lines, Pieces};
use crate::expected::{Example, meet_all};
use tbr_lines::WhiteSpace::{Normal, Pre, PreWrap};
use test_calls::calls::Call::{Ends, Mode, Preformat, Text};
use test_calls::calls::End;
use test_calls::told::{Told, Under};

const EXAMPLES: &[Example] = &[
    Example {
        name: "newlines end lines",
        told: Told::Nothing,
        width: 20,
        calls: &[Mode(Pre), Text("foo\nbar\nwib   asdf;\n")],
        expected: &[Lines("foo\nbar\nwib   asdf;\n")],
    },
    Example {
        name: "newlines end empty lines",
        told: Told::Nothing,
        width: 5,
        calls: &[Mode(Pre), Text("a\n\nb")],
        expected: &[Lines("a\n\nb\n")],
    },
    Example {
        name: "spaces alone are an empty line",
        told: Told::Nothing,
        width: 5,
        calls: &[Mode(Pre), Text("   \n")],
        expected: &[Lines("\n")],
    },
    Example {
        name: "a line that spaces fill before a word isn't written",
        told: Told::Nothing,
        width: 5,
        calls: &[Mode(Pre), Text("       ab")],
        expected: &[Lines("  ab\n")],
    },
    Example {
        name: "a tab fills a line",
        told: Told::Nothing,
        width: 5,
        calls: &[Mode(Pre), Text("\tb")],
        expected: &[Lines("     \nb\n")],
    },
    Example {
        name: "a tab fills the rest of a line",
        told: Told::Nothing,
        width: 5,
        calls: &[Mode(Pre), Text("ab\tc")],
        expected: &[Lines("ab   \nc\n")],
    },
    Example {
        name: "a tab goes to the next eighth column",
        told: Told::Nothing,
        width: 20,
        calls: &[Mode(Pre), Text("ab\tc")],
        expected: &[Lines("ab      c\n")],
    },
    Example {
        name: "white space vanishes where a word is moved",
        told: Told::Nothing,
        width: 5,
        calls: &[Mode(PreWrap), Text("ab  cd")],
        expected: &[Lines("ab\ncd\n")],
    },
    Example {
        name: "white space before a no-break space vanishes too",
        told: Told::Nothing,
        width: 5,
        calls: &[Mode(PreWrap), Text("ab \u{a0}cdef")],
        expected: &[Lines("ab\ncdef\n")],
    },
    Example {
        name: "the mode before holds where one ended",
        told: Told::Nothing,
        width: 5,
        calls: &[Mode(Pre), Text("  "), Ends(End::Mode), Text("abcd")],
        expected: &[Lines("  \nabcd\n")],
    },
    Example {
        name: "the mode that was pushed last holds",
        told: Told::Nothing,
        width: 5,
        calls: &[Mode(Pre), Text("  "), Mode(Normal), Text("abcd")],
        expected: &[Lines("  \nabcd\n")],
    },
    Example {
        name: "a preformatted line goes on under another annotation",
        told: Told::Nothing,
        width: 3,
        calls: &[Preformat, Mode(Pre), Text("abcde\nf")],
        expected: &[Pieces(
            Under::Rich,
            "abc:[Preformat(false)] \nde:[Preformat(true)] \nf:[Preformat(false)] \n",
        )],
    },
    Example {
        name: "a preformatted line goes on after a space",
        told: Told::Nothing,
        width: 3,
        calls: &[Preformat, Mode(Pre), Text(" abcd")],
        expected: &[Pieces(
            Under::Rich,
            " :[Preformat(false)] \nab:[Preformat(false)] c:[Preformat(true)] \nd:[Preformat(true)] \n",
        )],
    },
    Example {
        name: "outside of preformatted stretches there is none",
        told: Told::Nothing,
        width: 9,
        calls: &[Preformat, Text("ab "), Ends(End::Preformat), Text("cd")],
        expected: &[Pieces(Under::Rich, "ab :[Preformat(false)] cd:[] \n")],
    },
];

#[test]
fn white_space_is_preserved(rt: HostRuntime) {
    meet_all(&rt, rt.alloc(), EXAMPLES);
}
