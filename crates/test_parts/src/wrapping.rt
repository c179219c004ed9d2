//! Worked examples of wrapping, by calls on a block.
use crate::compared::counts;
use crate::expected::Expected::Lines;
use crate::expected::On::{Columns, EveryOne};
use crate::expected::{Example, meet_all};
use crate::steps::Step::{Flush, Normal};
use crate::steps::{plain, told};
use std::alloc::Global;
use std::process::Abort;
use std::test::Fail;
use tbr_lines::{Error, OutOfMemory, TaggedLine, UnicodeColumns, WhiteSpace, WrappedBlock};
use test_support::texts::{Voice, piece};

const EXAMPLES: &[Example] = &[
    Example {
        name: "words go where they fit, and wider ones are cut",
        on: Columns(8),
        steps: &[Normal("Hello, world.  Superlongwordreally")],
        expected: Lines("Hello,\nworld.\nSuperlon\ngwordrea\nlly\n"),
    },
    Example {
        name: "a wider word never fills the line after another",
        on: Columns(4),
        steps: &[Normal("Hello there boo")],
        expected: Lines("Hell\no\nther\ne\nboo\n"),
    },
    Example {
        name: "two texts make one run",
        on: Columns(9),
        steps: &[Normal("ab"), Normal("c d")],
        expected: Lines("abc d\n"),
    },
    Example {
        name: "a flush ends the run",
        on: Columns(9),
        steps: &[Normal("ab "), Flush, Normal("cd")],
        expected: Lines("ab\ncd\n"),
    },
    Example {
        name: "a zero width space breaks",
        on: Columns(40),
        steps: &[Normal(
            "Do break a line somewhere in foo\u{200b}bar\u{200b}foo\u{200b}bar\u{200b}foo\u{200b}bar\u{200b}foo\u{200b}bar\u{200b}foo\u{200b}bar\u{200b}foo\u{200b}bar",
        )],
        expected: Lines("Do break a line somewhere in foobarfoo\nbarfoobarfoobarfoobarfoobar\n"),
    },
    Example {
        name: "a no-break space does not",
        on: Columns(40),
        steps: &[Normal("Don't break a line between the words Foo\u{a0}and\u{a0}Bar")],
        expected: Lines("Don't break a line between the words\nFoo\u{a0}and\u{a0}Bar\n"),
    },
    Example {
        name: "wide characters take two columns",
        on: Columns(3),
        steps: &[Normal("漢漢漢")],
        expected: Lines("漢\n漢\n漢\n"),
    },
    Example {
        name: "wide characters take one column by the second width instance",
        on: EveryOne(3),
        steps: &[Normal("漢漢漢")],
        expected: Lines("漢漢漢\n"),
    },
    Example {
        name: "a wide character fills a line of two columns",
        on: Columns(2),
        steps: &[Normal("a漢b")],
        expected: Lines("a\n漢\nb\n"),
    },
    Example {
        name: "words of wide characters end at white space of any width",
        on: Columns(7),
        steps: &[Normal("a漢 b漢\u{3000}漢c")],
        expected: Lines("a漢 b漢\n漢c\n"),
    },
    Example {
        name: "words of wide characters end at a zero width space",
        on: Columns(4),
        steps: &[Normal("漢\u{200b}字é")],
        expected: Lines("漢\n字é\n"),
    },
    Example {
        name: "characters of no width stay with what is before",
        on: Columns(2),
        steps: &[Normal("a\u{336}b\u{336}c")],
        expected: Lines("a\u{336}b\u{336}\nc\n"),
    },
    Example {
        name: "a space after a character of no width begins no line",
        on: Columns(9),
        steps: &[Normal("\u{336} a")],
        expected: Lines("\u{336}a\n"),
    },
    Example {
        name: "a character of no width is after a space",
        on: Columns(9),
        steps: &[Normal("b \u{336} a")],
        expected: Lines("b \u{336}a\n"),
    },
    Example {
        name: "a zero width space vanishes, and a no-break space stays",
        on: Columns(9),
        steps: &[Normal("a\u{200b}b\u{a0}c")],
        expected: Lines("ab\u{a0}c\n"),
    },
    Example {
        name: "a last word of no width",
        on: Columns(1),
        steps: &[Normal("a\u{336} \u{336}")],
        expected: Lines("a\u{336}\n\u{336}\n"),
    },
    Example {
        name: "the empty text gives no line",
        on: Columns(5),
        steps: &[Normal("")],
        expected: Lines(""),
    },
    Example {
        name: "white space alone gives no line",
        on: Columns(5),
        steps: &[Normal("   ")],
        expected: Lines(""),
    },
];

#[test]
fn text_is_wrapped(rt: HostRuntime) {
    meet_all(&rt, rt.alloc(), EXAMPLES)
}

/// Whether a call refused, since a character is too wide.
fn is_too_narrow<T: Drop>(answer: Result<T, Error>) -> bool {
    matches!(answer, Err(Error::TooNarrow))
}

/// A block that has refused a text.
fn refusing(alloc: Global) -> Result<WrappedBlock<u8>, Fail> {
    let mut block: WrappedBlock<u8> = WrappedBlock::new(alloc, 1, false, false, 1)?;
    block.add_text("漢", WhiteSpace::Normal, &1, &1)?;
    Ok(block)
}

#[test]
fn a_character_wider_than_the_block_is_refused_for_good(rt: HostRuntime) -> Result<(), Fail> {
    let alloc = rt.alloc();
    let block = plain::<UnicodeColumns>(alloc, 1)?;
    assert!(rt; is_too_narrow(told(alloc, block, &[Normal("漢")])));
    refuses_for_good(&rt, refusing(alloc)?);
    Ok(())
}

/// The block refuses as its word is placed, and from then on.
fn refuses_for_good(rt: &impl Abort, mut block: WrappedBlock<u8>) {
    assert!(rt; block.failure().is_none(), "the word isn't placed yet");
    assert!(rt; is_too_narrow(block.flush()));
    assert!(rt; block.failure() == Some(Error::TooNarrow));
    assert!(rt; is_too_narrow(block.add_text("a", WhiteSpace::Normal, &1, &1)));
    assert!(rt; is_too_narrow(block.into_lines()));
}

/// The lines of two texts under tags of their own.
fn under_two_tags(alloc: Global) -> Result<Vec<TaggedLine<Voice>>, Error> {
    let mut block = plain(alloc, 9)?;
    add_under(&mut block, "ab", Voice::First)?;
    add_under(&mut block, "c d", Voice::Second)?;
    block.into_lines()
}

/// A text joins the run, under a tag.
fn add_under(block: &mut WrappedBlock<Voice>, text: &str, tag: Voice) -> Result<(), Error> {
    block.add_text(text, WhiteSpace::Normal, &tag, &Voice::First)
}

/// The line that they make, by itself.
fn line_of_two_tags(alloc: Global) -> Result<TaggedLine<Voice>, OutOfMemory> {
    let mut line: TaggedLine<Voice> = TaggedLine::new(alloc);
    line.push_str(piece(alloc, "ab", Voice::First)?)?;
    line.push_char('c', &Voice::Second)?;
    line.push_str(piece(alloc, " d", Voice::Second)?)?;
    Ok(line)
}

/// Whether two lines are written alike for debugging.
fn are_debugged_alike(
    alloc: Global,
    a: &TaggedLine<Voice>,
    b: &TaggedLine<Voice>,
) -> Result<bool, Fail> {
    let a = format!(in alloc; "{a:?}")?;
    let b = format!(in alloc; "{b:?}")?;
    Ok(a.as_str() == b.as_str())
}

#[test]
fn characters_stay_under_their_tags(rt: HostRuntime) -> Result<(), Fail> {
    let alloc = rt.alloc();
    let lines = under_two_tags(alloc)?;
    assert_eq!(rt; lines.len(), 1);
    let line = &lines[0];
    let expected = line_of_two_tags(alloc)?;
    assert!(rt; are_debugged_alike(alloc, line, &expected)?);
    counts(&rt, line.width::<UnicodeColumns>()?, 5);
    assert!(rt; !line.is_empty());
    Ok(())
}
