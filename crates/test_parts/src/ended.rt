//! Lines that a block has ended, in its one text.
ghost use Rattle.std.specs.Prelude.{◌<◌};

use crate::compared::counts;
use crate::steps::{add, mark_with, plain};
use std::alloc::Global;
use std::test::Fail;
use tbr_lines::{
    CharWidth, EndedLines, Error, OutOfMemory, TaggedLine, UnicodeColumns, WhiteSpace, WrappedBlock,
};
use test_support::columns::EveryOne;
use test_support::texts::{Voice, append_marked_line};

/// What is expected of a text in eight columns.
const WRAPPED: &str = "Hello,\nworld.\nSuperlon\ngwordrea\nlly\n";

/// A marker and a text join the run.
fn fill<W: CharWidth + Drop>(
    block: &mut WrappedBlock<Voice, W>,
    alloc: Global,
    text: &str,
) -> Result<(), Error> {
    mark_with(block, alloc, "m")?;
    add(block, WhiteSpace::Normal, text)
}

/// The lines of a text after a marker.
fn ended<W: CharWidth + Drop>(
    alloc: Global,
    width: usize,
    text: &str,
) -> Result<EndedLines<Voice>, Error>
    requires { 0 < width }
{
    let mut block = plain::<W>(alloc, width)?;
    fill(&mut block, alloc, text)?;
    block.flush()?;
    Ok(block.into_ended())
}

/// A line of one piece.
fn line_of(alloc: Global, text: &str) -> Result<TaggedLine<Voice>, OutOfMemory> {
    let mut line = TaggedLine::new(alloc);
    line.push_text(text, Voice::First)?;
    Ok(line)
}

/// The text of lines.
fn text_of(alloc: Global, lines: EndedLines<Voice>) -> Result<String, Error> {
    let mut text = String::new(alloc);
    lines.append_after(&mut text, "", "")?;
    Ok(text)
}

#[test]
fn lines_in_one_text_are_counted_shown_and_appended(rt: HostRuntime) -> Result<(), Fail> {
    let alloc = rt.alloc();
    let lines = ended::<UnicodeColumns>(alloc, 8, "Hello, world.  Superlongwordreally")?;
    counts(&rt, lines.len(), 5);
    assert!(rt; lines.has_character() && !lines.is_empty());
    let shown = format!(in alloc; "{lines}")?;
    assert_eq!(rt;
        shown.as_str(),
        "<Hello,>\n<world.>\n<Superlon>\n<gwordrea>\n<lly>\n"
    );
    assert_eq!(rt; text_of(alloc, lines)?.as_str(), WRAPPED);
    Ok(())
}

#[test]
fn the_first_line_comes_after_its_own_prefix_and_each_other_one_after_theirs(
    rt: HostRuntime,
) -> Result<(), Fail> {
    let alloc = rt.alloc();
    let mut text = String::new(alloc);
    let lines = ended::<UnicodeColumns>(alloc, 6, "an item in lines")?;
    lines.append_after(&mut text, "* ", "  ")?;
    assert_eq!(rt; text.as_str(), "* an\n  item\n  in\n  lines\n");
    Ok(())
}

#[test]
fn a_line_is_moved_with_its_marker_after_another_and_the_rest_appended(
    rt: HostRuntime,
) -> Result<(), Fail> {
    let alloc = rt.alloc();
    let mut lines = ended::<EveryOne>(alloc, 2, "a 漢字 d")?;
    let mut line = line_of(alloc, "> ")?;
    lines.move_line(&mut line)?;
    let mut first = String::new(alloc);
    append_marked_line(&mut first, &line)?;
    assert_eq!(rt; first.as_str(), "> <m>a\n");
    assert_eq!(rt; text_of(alloc, lines)?.as_str(), "漢字\nd\n");
    Ok(())
}

#[test]
fn a_line_lacks_the_columns_that_its_characters_leave_of_a_width(
    rt: HostRuntime,
) -> Result<(), Fail> {
    let alloc = rt.alloc();
    let lines = ended::<UnicodeColumns>(alloc, 6, "an item in 漢字")?;
    let mut missing = lines.missing::<UnicodeColumns>(alloc, 3)?;
    for expected in [1, 0, 1, 0] {
        assert!(rt; missing.pop_front() == Some(expected));
    }
    assert!(rt; missing.is_empty());
    Ok(())
}

#[test]
fn a_block_without_text_has_no_line(rt: HostRuntime) -> Result<(), Fail> {
    let alloc = rt.alloc();
    let mut lines = ended::<UnicodeColumns>(alloc, 8, " ")?;
    let mut line = line_of(alloc, "> ")?;
    lines.move_line(&mut line)?;
    assert!(rt; lines.is_empty() && !lines.has_character());
    assert_eq!(rt; line.to_text()?.as_str(), "> ");
    Ok(())
}

#[test]
fn lines_in_one_text_are_appended_or_refused_when_out_of_memory(rt: HostRuntime) {
    let alloc = rt.alloc();
    let text = ended::<UnicodeColumns>(alloc, 8, "Hello, world.  Superlongwordreally");
    if let Ok(lines) = text
        && let Ok(shown) = text_of(alloc, lines)
    {
        assert_eq!(rt; shown.as_str(), WRAPPED);
    }
}
