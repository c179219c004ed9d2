//! Worked examples of borders and of lines as a renderer keeps them.
use crate::compared::{counts, shows};
use crate::joins::Join::{Above, Below, Marker, Stretch, Text};
use crate::joins::{Join, border, joined, shown};
use std::alloc::Global;
use std::process::Abort;
use std::test::Fail;
use tbr_lines::{
    BorderHoriz, BorderSegHoriz, CharWidth, OutOfMemory, RenderLine, TaggedLine, UnicodeColumns,
};
use test_support::columns::EveryOne;
use test_support::texts::{Voice, elements, marker, piece};

/// A cell as it is drawn.
fn drawn(alloc: Global, cell: BorderSegHoriz) -> Result<String, OutOfMemory> {
    BorderHoriz::new_type(alloc, 1, cell, Voice::First)?.to_text()
}

/// A border of one cell, joined above, as it is drawn.
fn above(alloc: Global, cell: BorderSegHoriz) -> Result<String, OutOfMemory> {
    let mut line = BorderHoriz::new_type(alloc, 1, cell, Voice::Second)?;
    line.join_above(0)?;
    line.to_text()
}

fn below(alloc: Global, cell: BorderSegHoriz) -> Result<String, OutOfMemory> {
    let mut line = BorderHoriz::new_type(alloc, 1, cell, Voice::Second)?;
    line.join_below(0)?;
    line.to_text()
}

fn left(cell: BorderSegHoriz) -> BorderSegHoriz {
    let mut chopped = cell;
    chopped.chop_left();
    chopped
}

fn right(cell: BorderSegHoriz) -> BorderSegHoriz {
    let mut chopped = cell;
    chopped.chop_right();
    chopped
}

/// A cell, joined above, joined below, chopped left and chopped right.
fn changed(alloc: Global, cell: BorderSegHoriz) -> Result<String, OutOfMemory> {
    let mut all = drawn(alloc, cell)?;
    all.push_str(above(alloc, cell)?.as_str())?;
    all.push_str(below(alloc, cell)?.as_str())?;
    all.push_str(drawn(alloc, left(cell))?.as_str())?;
    all.push_str(drawn(alloc, right(cell))?.as_str())?;
    Ok(all)
}

#[test]
fn joins_and_chops_of_all_twelve_cells(rt: HostRuntime) {
    let alloc = rt.alloc();
    for (cell, want) in [
        (BorderSegHoriz::Horiz, "─┴┬──"),
        (BorderSegHoriz::JoinAbove, "┴┴┼└┘"),
        (BorderSegHoriz::JoinBelow, "┬┼┬┌┐"),
        (BorderSegHoriz::JoinCross, "┼┼┼├┤"),
        (BorderSegHoriz::Vert, "│││││"),
        (BorderSegHoriz::HorizVert, "/////"),
        (BorderSegHoriz::JoinLeft, "┤┤┤│┤"),
        (BorderSegHoriz::JoinRight, "├├├├│"),
        (BorderSegHoriz::CornerTL, "┌├┌┌│"),
        (BorderSegHoriz::CornerTR, "┐┤┐│┐"),
        (BorderSegHoriz::CornerBL, "└└├└│"),
        (BorderSegHoriz::CornerBR, "┘┘┤│┘"),
    ] {
        shows(&rt, changed(alloc, cell), want);
    }
}

#[test]
fn chops_one_after_the_other(rt: HostRuntime) {
    let alloc = rt.alloc();
    for (cell, want) in [
        (left(BorderSegHoriz::JoinCross), "├"),
        (right(left(BorderSegHoriz::JoinCross)), "│"),
        (left(BorderSegHoriz::JoinBelow), "┌"),
        (right(left(BorderSegHoriz::JoinBelow)), "│"),
    ] {
        shows(&rt, drawn(alloc, cell), want);
    }
}

/// After each call a border of that width shows what is on that line of the expected text.
fn expect(rt: &impl Abort, alloc: Global, width: usize, joins: &[Join<'_>], expected: &str) {
    shows(rt, shown::<UnicodeColumns>(alloc, width, joins), expected)
}

#[test]
fn joins_stretch_and_keep_other_arms(rt: HostRuntime) -> Result<(), Fail> {
    let alloc = rt.alloc();
    // Joined twice is joined once, and it never gets shorter.
    expect(
        &rt,
        alloc,
        5,
        &[
            Below(1),
            Below(3),
            Above(1),
            Above(1),
            Below(6),
            Stretch(9),
            Stretch(2),
        ],
        "─┬───\n─┬─┬─\n─┼─┬─\n─┼─┬─\n─┼─┬──┬\n─┼─┬──┬──\n─┼─┬──┬──\n",
    );
    shows(&rt, border(alloc, 0)?.to_text(), "");
    refuses_a_join(&rt, alloc)
}

/// A border that refuses a join stays as it was.
fn refuses_a_join(rt: &impl Abort, alloc: Global) -> Result<(), Fail> {
    let joins = [Below(1), Below(3), Above(1), Below(6), Stretch(9)];
    let mut line = joined::<UnicodeColumns>(alloc, 5, &joins)?;
    counts(rt, line.len(), 9);
    assert!(rt; line.join_above(usize::MAX).is_err());
    shows(rt, line.to_text(), "─┼─┬──┬──");
    Ok(())
}

#[test]
fn text_hides_cells_and_chops_its_neighbours(rt: HostRuntime) -> Result<(), Fail> {
    let alloc = rt.alloc();
    // The first cell is under the text.
    expect(
        &rt,
        alloc,
        5,
        &[Above(1), Text(0, "B"), Below(1), Below(0)],
        "─┴───\nB└───\nB├───\nB├───\n",
    );
    assert!(rt; !border(alloc, 5)?.has_holes());
    let line = joined::<UnicodeColumns>(alloc, 5, &[Above(1), Text(0, "B")])?;
    assert!(rt; line.has_holes());
    counts(&rt, line.span_end(), 1);
    Ok(())
}

fn spanned<W: CharWidth>(alloc: Global) -> Result<BorderHoriz<Voice>, OutOfMemory> {
    joined::<W>(alloc, 3, &[Marker(1, "m"), Text(2, "漢"), Stretch(6)])
}

/// Its elements as a line, under its own tag.
fn spanned_line(alloc: Global) -> Result<String, OutOfMemory> {
    let line = spanned::<UnicodeColumns>(alloc)?.clone()?;
    elements(alloc, &line.into_tagged_line()?)
}

/// Its elements as a line, under another tag.
fn spanned_line_with(alloc: Global, tag: Voice) -> Result<String, OutOfMemory> {
    let line = spanned::<UnicodeColumns>(alloc)?;
    elements(alloc, &line.into_tagged_line_with(&tag)?)
}

#[test]
fn text_in_a_border_keeps_its_tag_and_its_width(rt: HostRuntime) -> Result<(), Fail> {
    let alloc = rt.alloc();
    shows(&rt, spanned::<UnicodeColumns>(alloc)?.to_text(), "──漢──");
    shows(&rt, spanned_line(alloc), "1─|#m|1─|2漢|1──");
    // Neighbours under an equal tag are one piece.
    shows(&rt, spanned_line_with(alloc, Voice::Second), "2─|#m|2─漢──");
    // By the second width instance.
    shows(&rt, spanned::<EveryOne>(alloc)?.to_text(), "──漢───");
    Ok(())
}

/// A border of five cells, into which one with such a join in its middle is merged from below.
fn merged_from_below(alloc: Global) -> Result<BorderHoriz<Voice>, OutOfMemory> {
    let other = joined::<UnicodeColumns>(alloc, 3, &[Below(1)])?;
    let mut line = border(alloc, 5)?;
    line.merge_from_below(&other, 0)?;
    Ok(line)
}

fn merged_from_above(
    alloc: Global,
    other: &BorderHoriz<Voice>,
) -> Result<BorderHoriz<Voice>, OutOfMemory> {
    let mut line = border(alloc, 5)?;
    line.merge_from_above(other, 2)?;
    Ok(line)
}

#[test]
fn merges_join_where_the_other_border_has_joins(rt: HostRuntime) -> Result<(), Fail> {
    let alloc = rt.alloc();
    shows(&rt, merged_from_below(alloc)?.to_text(), "─┬───");
    let other = joined::<UnicodeColumns>(alloc, 3, &[Above(1)])?;
    let mut line = merged_from_above(alloc, &other)?;
    shows(&rt, line.to_text(), "───┴─");
    // As far as joins come.
    line.merge_from_below(&other, 6)?;
    shows(&rt, line.to_text(), "───┴───┬");
    assert!(rt; line.merge_from_below(&other, usize::MAX).is_err());
    shows(&rt, line.to_text(), "───┴───┬");
    Ok(())
}

#[test]
fn vertical_lines_stand_above_arms_that_go_up(rt: HostRuntime) -> Result<(), Fail> {
    let alloc = rt.alloc();
    let joins = [
        Above(4),
        Marker(4, "m"),
        Above(1),
        Above(3),
        Below(3),
        Below(5),
    ];
    let line = joined::<UnicodeColumns>(alloc, 6, &joins)?;
    shows(&rt, line.to_text(), "─┴─┼└┬");
    shows(&rt, line.to_vertical_lines_above(), " │ ││ ");
    Ok(())
}

/// A kept line of a text, or of only a marker.
fn text_line(alloc: Global, text: &str) -> Result<RenderLine<Voice>, OutOfMemory> {
    let mut line = TaggedLine::new(alloc);
    if text.is_empty() {
        line.push(marker(alloc, "m")?)?;
    } else {
        line.push_str(piece(alloc, text, Voice::Second)?)?;
    }
    Ok(RenderLine::Text(line))
}

/// A kept line shows this text, and becomes a line of these elements.
fn expect_line(
    rt: &impl Abort,
    alloc: Global,
    line: RenderLine<Voice>,
    text: &str,
    expected: &str,
) -> Result<(), Fail> {
    shows(rt, line.to_text(), text);
    let tagged = line.clone()?.into_tagged_line()?;
    shows(rt, elements(alloc, &tagged), expected);
    Ok(())
}

/// Whether a kept line counts as content.
fn has_content(line: RenderLine<Voice>) -> bool {
    line.has_content()
}

#[test]
fn content_is_a_piece_or_a_border_without_text(rt: HostRuntime) -> Result<(), Fail> {
    let alloc = rt.alloc();
    assert!(rt; !has_content(text_line(alloc, "")?), "a marker alone");
    assert!(rt; has_content(text_line(alloc, "a")?));
    assert!(rt; has_content(RenderLine::Line(border(alloc, 2)?)));
    assert!(rt; !has_content(RenderLine::Line(spanned::<UnicodeColumns>(alloc)?)));
    lines_become_tagged_lines(&rt, alloc)
}

fn lines_become_tagged_lines(rt: &impl Abort, alloc: Global) -> Result<(), Fail> {
    expect_line(rt, alloc, text_line(alloc, "a")?, "a", "2a")?;
    let plain = RenderLine::Line(border(alloc, 2)?);
    expect_line(rt, alloc, plain, "──", "1──")?;
    let spanned = RenderLine::Line(spanned::<UnicodeColumns>(alloc)?);
    expect_line(rt, alloc, spanned, "──漢──", "1─|#m|1─|2漢|1──")
}
