//! Worked examples of the modes that preserve white space, by calls on a block.
use crate::expected::Expected::{Lines, Pieces};
use crate::expected::On::{Columns, EveryOne, NoEmSpace};
use crate::expected::{Example, meet_all};
use crate::steps::Step;
use crate::steps::Step::{Normal, Pre, PreWrap};

const AFTER_AN_EM_SPACE: &[Step<'_>] = &[PreWrap("ab\u{2003}"), Pre("\u{a0}cd")];

const WHITE_SPACE: &[Example] = &[
    Example {
        name: "newlines end lines",
        on: Columns(20),
        steps: &[Pre("foo\nbar\nwib   asdf;\n")],
        expected: Lines("foo\nbar\nwib   asdf;\n"),
    },
    Example {
        name: "a newline ends an empty line",
        on: Columns(5),
        steps: &[Pre("a\n\nb")],
        expected: Lines("a\n\nb\n"),
    },
    Example {
        name: "spaces alone are an empty line",
        on: Columns(5),
        steps: &[Pre("   \n")],
        expected: Lines("\n"),
    },
    Example {
        name: "a full line of spaces before a word isn't written",
        on: Columns(5),
        steps: &[Pre("       ab")],
        expected: Lines("  ab\n"),
    },
    Example {
        name: "fewer spaces are written at the line's end",
        on: Columns(5),
        steps: &[Pre("  "), Normal("abcd")],
        expected: Lines("  \nabcd\n"),
    },
    Example {
        name: "a tab goes to the next multiple of eight",
        on: Columns(20),
        steps: &[Pre("ab\tc")],
        expected: Lines("ab      c\n"),
    },
    Example {
        name: "a tab goes to the line's end where that comes first",
        on: Columns(5),
        steps: &[Pre("ab\tc")],
        expected: Lines("ab   \nc\n"),
    },
    Example {
        name: "a tab fills a line that is shorter than a stop",
        on: Columns(5),
        steps: &[Pre("\tb")],
        expected: Lines("     \nb\n"),
    },
    Example {
        name: "a tab after a full line goes from the first column of the next",
        on: Columns(8),
        steps: &[Pre("abcdefgh\tb")],
        expected: Lines("abcdefgh\n        \nb\n"),
    },
    Example {
        name: "white space vanishes where a word is moved",
        on: Columns(5),
        steps: &[PreWrap("ab  cd")],
        expected: Lines("ab\ncd\n"),
    },
    Example {
        name: "white space vanishes where a word of wide characters is moved",
        on: Columns(5),
        steps: &[PreWrap("漢字  é")],
        expected: Lines("漢字\né\n"),
    },
    Example {
        name: "white space at a moved word's beginning vanishes too",
        on: Columns(5),
        steps: &[PreWrap("ab \u{a0}cdef")],
        expected: Lines("ab\ncdef\n"),
    },
    Example {
        name: "white space of no width is no pending space, and takes nothing from the word after it",
        on: NoEmSpace(3),
        steps: AFTER_AN_EM_SPACE,
        expected: Lines("ab\n\u{a0}cd\n"),
    },
    Example {
        name: "white space of a column takes white space from the word after it",
        on: EveryOne(3),
        steps: AFTER_AN_EM_SPACE,
        expected: Lines("ab\ncd\n"),
    },
];

const CONTINUED: &[Example] = &[
    Example {
        name: "a hard line goes on under the continuation tag up to its newline",
        on: Columns(3),
        steps: &[Pre("abcde\nf")],
        expected: Pieces("abc:First \nde:Second \nf:First \n"),
    },
    Example {
        name: "a newline that collapses doesn't switch back",
        on: Columns(3),
        steps: &[Pre("abcd"), Normal("\nef")],
        expected: Pieces("abc:First \nd:Second \nef:Second \n"),
    },
    Example {
        name: "a call begins under the main tag after a word that fits",
        on: Columns(9),
        steps: &[Pre("abcdefghij\tx\t"), Pre("y")],
        expected: Pieces("abcdefghi:First \nj       x:Second \n        :Second y:First \n"),
    },
    Example {
        name: "a word fills the line",
        on: Columns(3),
        steps: &[Pre("abc")],
        expected: Pieces("abc:First \n"),
    },
    Example {
        name: "a word passes the line by a column",
        on: Columns(3),
        steps: &[Pre("abcd")],
        expected: Pieces("abc:First \nd:Second \n"),
    },
    Example {
        name: "a space and a word fill the line",
        on: Columns(3),
        steps: &[Pre(" ab")],
        expected: Pieces(" ab:First \n"),
    },
    Example {
        name: "a space and a word pass the line by a column",
        on: Columns(3),
        steps: &[Pre(" abc")],
        expected: Pieces(" :First \nab:First c:Second \n"),
    },
    Example {
        name: "a space and a word pass the line by two columns",
        on: Columns(3),
        steps: &[Pre(" abcd")],
        expected: Pieces(" :First \nab:First c:Second \nd:Second \n"),
    },
    Example {
        name: "a space in a word fills the line with it",
        on: Columns(3),
        steps: &[Pre("a b")],
        expected: Pieces("a b:First \n"),
    },
    Example {
        name: "a space in a word passes the line with it by a column",
        on: Columns(3),
        steps: &[Pre("a bc")],
        expected: Pieces("a b:First \nc:Second \n"),
    },
    Example {
        name: "a space that passes the line doesn't begin the continuation tag",
        on: Columns(3),
        steps: &[Pre("abc ")],
        expected: Pieces("abc:First \n :First \n"),
    },
    Example {
        name: "the character after a space that passes the line begins the continuation tag",
        on: Columns(3),
        steps: &[Pre("abc d")],
        expected: Pieces("abc:First \n :First d:Second \n"),
    },
    Example {
        name: "a space under the continuation tag",
        on: Columns(3),
        steps: &[Pre("abcd ef")],
        expected: Pieces("abc:First \nd e:Second \nf:Second \n"),
    },
    Example {
        name: "columns of the open line count too",
        on: Columns(9),
        steps: &[Pre("a\tb")],
        expected: Pieces("a       b:First \n"),
    },
    Example {
        name: "a word passes the line by a column after columns of the open line",
        on: Columns(9),
        steps: &[Pre("a\tbc")],
        expected: Pieces("a       :First \nb:First c:Second \n"),
    },
    Example {
        name: "both columns of a wide character fit",
        on: Columns(4),
        steps: &[Pre("漢漢")],
        expected: Pieces("漢漢:First \n"),
    },
    Example {
        name: "one column of a wide character passes the line",
        on: Columns(3),
        steps: &[Pre("漢漢")],
        expected: Pieces("漢:First \n漢:Second \n"),
    },
    Example {
        name: "one column of a wide character passes the line after a no-break space",
        on: Columns(3),
        steps: &[Pre("漢\u{a0}漢")],
        expected: Pieces("漢\u{a0}:First \n漢:Second \n"),
    },
];

#[test]
fn white_space_is_preserved(rt: HostRuntime) {
    meet_all(&rt, rt.alloc(), WHITE_SPACE)
}

#[test]
fn a_hard_line_goes_on_under_the_continuation_tag(rt: HostRuntime) {
    meet_all(&rt, rt.alloc(), CONTINUED)
}
