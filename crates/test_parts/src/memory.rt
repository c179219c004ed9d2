//! Blocks, lines and borders where memory may be refused: `tools/refused --test` refuses each request of these tests in
//! turn.
use crate::edits::Edit;
use crate::joins::Join;
use crate::steps::{Step, add, mark_with, plain, take_step};
use crate::{edits, joins};
use std::alloc::Global;
use std::process::Abort;
use tbr_lines::{
    BorderHoriz, CellAlign, Error, OutOfMemory, TaggedLine, UnicodeColumns, WhiteSpace,
    WrappedBlock,
};
use test_support::texts::{Voice, append_marked_line};

/// Steps on a block, and the lines that they leave.
const BLOCKS: &[(usize, &[Step<'static>], &str)] = &[
    (
        8,
        &[Step::Normal("Hello, world.  Superlongwordreally")],
        "Hello,\nworld.\nSuperlon\ngwordrea\nlly\n",
    ),
    (
        3,
        &[
            Step::Normal("ab "),
            Step::Marker("x"),
            Step::Normal("cde"),
            Step::Flush,
        ],
        "ab\n<x>cde\n",
    ),
    (
        8,
        &[
            Step::Pre("\ta\n b"),
            Step::PreWrap("c  "),
            Step::Flush,
            Step::Take,
            Step::Normal("d"),
        ],
        "        \na\n bc\nd\n",
    ),
];

/// The block keeps its refusal.
fn block_keeps(rt: &impl Abort, alloc: Global, block: &mut WrappedBlock<Voice>, refusal: Error) {
    for mode in [WhiteSpace::Normal, WhiteSpace::Pre, WhiteSpace::PreWrap] {
        assert!(rt; add(block, mode, "a") == Err(refusal));
    }
    assert!(rt; mark_with(block, alloc, "m") == Err(refusal));
    assert!(rt; block.flush() == Err(refusal));
    assert!(rt; block.take_trailing_fragments().is_err() && block.next_line().is_err());
    assert!(rt; block.failure() == Some(refusal) && !block.is_empty());
}

/// Takes the steps, up to one that refuses. The refusal may be of what was made for it, and not of the block.
fn take_steps(
    block: &mut WrappedBlock<Voice>,
    alloc: Global,
    steps: &[Step<'_>],
) -> Result<(), Error> {
    let mut told = String::new(alloc);
    for step in steps {
        take_step(block, alloc, *step, &mut told)?;
    }
    Ok(())
}

/// The block's lines after the steps.
fn lines_after(
    rt: &impl Abort,
    alloc: Global,
    width: usize,
    steps: &[Step<'_>],
) -> Result<String, Error> {
    assert!(rt; 0 < width);
    let mut block = plain::<UnicodeColumns>(alloc, width)?;
    if let Err(refusal) = take_steps(&mut block, alloc, steps) {
        if block.failure().is_none() {
            return Err(refusal);
        }
        block_keeps(rt, alloc, &mut block, refusal);
        assert!(rt; block.into_lines().is_err());
        return Err(refusal);
    }
    let mut all = String::new(alloc);
    for line in &block.into_lines()? {
        append_marked_line(&mut all, line)?;
    }
    Ok(all)
}

#[test]
fn blocks_have_their_lines_or_refuse_for_good(rt: HostRuntime) {
    for (width, steps, lines) in BLOCKS {
        match lines_after(&rt, rt.alloc(), *width, *steps) {
            Ok(shown) => assert_eq!(rt; shown.as_str(), *lines),
            Err(error) => assert!(rt; error == Error::OutOfMemory),
        }
    }
}

const EDITS: &[Edit<'static>] = &[
    Edit::Text("ab", Voice::First),
    Edit::Marker("m"),
    Edit::Character('c', Voice::Second),
    Edit::Front("d", Voice::Second),
    Edit::Front("e", Voice::Second),
    Edit::FrontStr("f", Voice::Second),
    Edit::FrontStr("g", Voice::First),
    Edit::Pad(9, Voice::First),
    Edit::Align(13, CellAlign::Centre, Voice::Second),
];

/// Edits the line, which stays as it was if that is refused.
fn edit_or_stay(
    rt: &impl Abort,
    alloc: Global,
    line: &mut TaggedLine<Voice>,
    edit: Edit<'_>,
) -> Result<(), OutOfMemory> {
    let before = line.clone()?;
    if edits::apply::<UnicodeColumns>(line, alloc, edit).is_err() {
        assert!(rt; *line == before);
    }
    Ok(())
}

const JOINS: &[Join<'static>] = &[
    Join::Below(1),
    Join::Above(3),
    Join::Text(4, "漢"),
    Join::Marker(7, "m"),
    Join::Below(9),
    Join::Stretch(12),
    Join::Below(usize::MAX),
];

/// The borders say the same of themselves, and show it if there is memory.
fn are_alike(
    rt: &impl Abort,
    a: &BorderHoriz<Voice>,
    b: &BorderHoriz<Voice>,
) -> Result<(), OutOfMemory> {
    assert!(rt; a.len() == b.len() && a.span_end() == b.span_end());
    assert_eq!(rt; a.to_text()?.as_str(), b.to_text()?.as_str());
    Ok(())
}

/// Changes the border, which stays as it was if that is refused.
fn join_or_stay(
    rt: &impl Abort,
    alloc: Global,
    line: &mut BorderHoriz<Voice>,
    join: Join<'_>,
) -> Result<(), OutOfMemory> {
    let before = line.clone()?;
    if joins::apply::<UnicodeColumns>(line, alloc, join).is_err() {
        are_alike(rt, line, &before)?;
    }
    Ok(())
}

/// Merges a border with joins, from above and from below.
fn merge_or_stay(
    rt: &impl Abort,
    line: &mut BorderHoriz<Voice>,
    other: &BorderHoriz<Voice>,
) -> Result<(), OutOfMemory> {
    let before = line.clone()?;
    if line.merge_from_below(other, 10).is_err() {
        are_alike(rt, line, &before)?;
    }
    let before = line.clone()?;
    if line.merge_from_above(other, 20).is_err() {
        are_alike(rt, line, &before)?;
    }
    Ok(())
}

fn change_line_and_border(rt: &impl Abort, alloc: Global) -> Result<(), OutOfMemory> {
    let mut line = TaggedLine::new(alloc);
    for edit in EDITS {
        edit_or_stay(rt, alloc, &mut line, *edit)?;
    }
    let mut border = joins::border(alloc, 5)?;
    for join in JOINS {
        join_or_stay(rt, alloc, &mut border, *join)?;
    }
    let other = joins::joined::<UnicodeColumns>(alloc, 3, &[Join::Above(1), Join::Below(2)])?;
    merge_or_stay(rt, &mut border, &other)
}

#[test]
fn lines_and_borders_that_are_refused_stay(rt: HostRuntime) {
    let _ = change_line_and_border(&rt, rt.alloc());
}
