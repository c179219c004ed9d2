//! Worked examples of blocks that pad, overflow, and hand out their lines one at a time.
use crate::compared::counts;
use crate::expected::Expected::{Lines, Pieces};
use crate::expected::On::{Columns, Overflowing, Padding};
use crate::expected::{Example, meet_all};
use crate::steps::Step::{Ask, Flush, Next, Normal, Pre};
use crate::steps::{plain, told};
use std::alloc::{AllocError, Global};
use std::test::Fail;
use tbr_lines::UnicodeColumns;

const EXAMPLES: &[Example] = &[
    Example {
        name: "lines are padded under the default tag",
        on: Padding,
        steps: &[Normal("ab")],
        expected: Pieces("ab:First    :Second \n"),
    },
    Example {
        name: "a wide character overflows",
        on: Overflowing,
        steps: &[Normal("漢")],
        expected: Lines("漢\n"),
    },
    Example {
        name: "a wide character that overflows is on a line of its own",
        on: Overflowing,
        steps: &[Normal("a漢b")],
        expected: Lines("a\n漢\nb\n"),
    },
    Example {
        name: "a wide character that overflows is after characters of no width",
        on: Overflowing,
        steps: &[Normal("\u{336}漢b")],
        expected: Lines("\u{336}漢\nb\n"),
    },
    Example {
        name: "characters of no width after one that overflows begin the next line",
        on: Overflowing,
        steps: &[Normal("漢\u{336}b")],
        expected: Lines("漢\n\u{336}b\n"),
    },
    Example {
        name: "ended lines come one at a time: at first the last word isn't placed, and at the end nothing is flushed",
        on: Columns(5),
        steps: &[Normal("ab cd ef"), Next, Normal(" "), Next, Next],
        expected: Lines("next none\nnext ab cd\nnext none\nef\n"),
    },
    Example {
        name: "a stroke takes no column, but is a character, and a line that has ended counts, also where it is handed out",
        on: Columns(5),
        steps: &[
            Ask,
            Normal("\u{336}"),
            Ask,
            Normal("ab"),
            Ask,
            Flush,
            Ask,
            Next,
            Ask,
        ],
        expected: Lines("empty start blank \nempty start \n\nstart \nnext \u{336}ab\nstart \n"),
    },
    Example {
        name: "a newline begins a line",
        on: Columns(5),
        steps: &[Pre("a\n"), Ask],
        expected: Lines("start \na\n"),
    },
];

#[test]
fn blocks_pad_overflow_and_hand_out_lines(rt: HostRuntime) {
    meet_all(&rt, rt.alloc(), EXAMPLES)
}

/// A word of that many letters.
fn letters(alloc: Global, count: usize) -> Result<String, AllocError> {
    let mut word = String::with_capacity(alloc, count)?;
    for _ in 0..count {
        word.push('x')?;
    }
    Ok(word)
}

#[test]
fn a_word_of_many_letters_is_cut_into_full_lines(rt: HostRuntime) -> Result<(), Fail> {
    let alloc = rt.alloc();
    let word = letters(alloc, 100_000)?;
    let block = plain::<UnicodeColumns>(alloc, 7)?;
    let lines = told(alloc, block, &[Normal(word.as_str())])?;
    // Each line ends in a newline.
    counts(&rt, lines.len(), 100_000 + 14_286);
    assert!(rt; lines.as_str().ends_with("\nxxxxx\n"));
    Ok(())
}
