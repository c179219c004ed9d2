//! Worked examples of fragment markers among a block's text.
use crate::expected::Expected::Lines;
use crate::expected::On::{Columns, Overflowing};
use crate::expected::{Example, meet_all};
use crate::steps::Step;
use crate::steps::Step::{Ask, Flush, Marker, Normal, Pre, PreWrap, Take};

const AMONG_WORDS: &[Step<'_>] = &[
    Marker("x"),
    Normal("ab"),
    Marker("y"),
    Normal(" cd"),
    Marker("z"),
    Normal("ef"),
];

const BEFORE_A_BREAK: &[Step<'_>] = &[Normal("ab"), Marker("x"), Normal("\u{200b}cd")];

const EXAMPLES: &[Example] = &[
    Example {
        name: "a marker goes where its word goes",
        on: Columns(3),
        steps: &[Normal("ab "), Marker("x"), Normal("cde")],
        expected: Lines("ab\n<x>cde\n"),
    },
    Example {
        name: "where the word is cut it stays after the character before",
        on: Columns(3),
        steps: &[Normal("abc"), Marker("x"), Normal("def")],
        expected: Lines("abc<x>\ndef\n"),
    },
    Example {
        name: "markers are between the same characters on one line",
        on: Columns(9),
        steps: AMONG_WORDS,
        expected: Lines("<x>ab<y> cd<z>ef\n"),
    },
    Example {
        name: "markers are between the same characters on two lines",
        on: Columns(4),
        steps: AMONG_WORDS,
        expected: Lines("<x>ab<y>\ncd<z>ef\n"),
    },
    Example {
        name: "markers are between the same characters where a word is cut",
        on: Columns(3),
        steps: AMONG_WORDS,
        expected: Lines("<x>ab<y>\ncd<z>e\nf\n"),
    },
    Example {
        name: "a marker after a space joins the next word",
        on: Columns(9),
        steps: &[Normal("ab "), Marker("x"), Normal(" cd")],
        expected: Lines("ab <x>cd\n"),
    },
    Example {
        name: "a marker ends no word",
        on: Columns(9),
        steps: BEFORE_A_BREAK,
        expected: Lines("ab<x>cd\n"),
    },
    Example {
        name: "what ends a word doesn't move a marker",
        on: Columns(3),
        steps: BEFORE_A_BREAK,
        expected: Lines("ab<x>\ncd\n"),
    },
    Example {
        name: "a marker alone is not placed",
        on: Columns(9),
        steps: &[Marker("x")],
        expected: Lines(""),
    },
    Example {
        name: "two markers with white space between them are not placed",
        on: Columns(9),
        steps: &[Marker("x"), Normal("  "), Marker("y")],
        expected: Lines(""),
    },
    Example {
        name: "a marker after the last word is not placed",
        on: Columns(9),
        steps: &[Normal("ab "), Marker("x")],
        expected: Lines("ab\n"),
    },
    Example {
        name: "a newline leaves a marker to the next word",
        on: Columns(9),
        steps: &[Marker("x"), Pre("\na")],
        expected: Lines("\n<x>a\n"),
    },
    Example {
        name: "a tab leaves a marker to the next word",
        on: Columns(20),
        steps: &[Marker("x"), Pre("\ta")],
        expected: Lines("        <x>a\n"),
    },
    Example {
        name: "markers that trail can be taken, and are gone then",
        on: Columns(9),
        steps: &[
            Normal("ab "),
            Marker("x"),
            Marker("y"),
            Flush,
            Take,
            Take,
            Normal("cd"),
        ],
        expected: Lines("taken x,y,\ntaken \nab\ncd\n"),
    },
    Example {
        name: "markers that nobody takes begin the next run, whose word has a character",
        on: Columns(9),
        steps: &[Normal("ab "), Marker("x"), Flush, Normal("cd"), Take],
        expected: Lines("taken \nab\n<x>cd\n"),
    },
    Example {
        name: "markers of a line without a character wait, those of the line first",
        on: Overflowing,
        steps: &[
            Normal("漢"),
            Marker("x"),
            Normal(" "),
            Marker("y"),
            Flush,
            Take,
        ],
        expected: Lines("taken x,y,\n漢\n"),
    },
    Example {
        name: "white space is removed up to a marker",
        on: Columns(6),
        steps: &[Pre("cdefgh "), Marker("i"), PreWrap("    za")],
        expected: Lines("cdefgh\n <i>\nza\n"),
    },
    Example {
        name: "white space without a marker in it is removed as a whole",
        on: Columns(6),
        steps: &[Pre("cdefgh "), PreWrap("    za")],
        expected: Lines("cdefgh\nza\n"),
    },
    Example {
        name: "a word that lost its characters keeps its markers",
        on: Columns(2),
        steps: &[PreWrap("ab "), PreWrap("\u{a0}"), Marker("x"), Flush, Take],
        expected: Lines("taken x,\nab\n"),
    },
    Example {
        name: "a line of markers is no line",
        on: Columns(9),
        steps: &[Marker("x"), Ask, Normal("a"), Ask],
        expected: Lines("empty start blank \n\n<x>a\n"),
    },
];

#[test]
fn markers_stand_among_text(rt: HostRuntime) {
    meet_all(&rt, rt.alloc(), EXAMPLES)
}
