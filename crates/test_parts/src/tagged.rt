//! Worked examples of tagged lines.
ghost use Rattle.std.specs.Iterator.{IsFinite};

use crate::compared::{counts, shows};
use crate::edits::Edit::{Align, Character, Front, FrontStr, Marker, Pad, Text};
use crate::edits::{Edit, edited, line_after};
use std::alloc::Global;
use std::process::Abort;
use std::test::Fail;
use tbr_lines::{
    CellAlign, CharWidth, OutOfMemory, TaggedLine, TaggedLineElement, UnicodeColumns, text_width,
};
use test_support::columns::EveryOne;
use test_support::texts::{Voice, elements, marker, piece};

/// After each edit the line has what is on that line of the expected text.
fn expect<W: CharWidth>(rt: &impl Abort, alloc: Global, edits: &[Edit<'_>], expected: &str) {
    shows(rt, edited::<W>(alloc, edits), expected)
}

/// Two pieces with a marker between them.
fn marked_line(alloc: Global) -> Result<TaggedLine<Voice>, OutOfMemory> {
    let edits = [
        Text("a", Voice::First),
        Marker("m"),
        Text("b", Voice::First),
    ];
    line_after::<EveryOne>(alloc, &edits)
}

#[test]
fn text_extends_its_neighbour_under_an_equal_tag(rt: HostRuntime) {
    expect::<EveryOne>(
        &rt,
        rt.alloc(),
        &[
            Text("ab", Voice::First),
            Text("", Voice::Second),
            Text("c", Voice::First),
            Character('d', Voice::Second),
            Front("x", Voice::First),
            Front("", Voice::First),
            Front("", Voice::Second),
            FrontStr("y", Voice::Second),
            FrontStr("z", Voice::First),
        ],
        "1ab\n1ab\n1abc\n1abc|2d\n1xabc|2d\n1xabc|2d\n2|1xabc|2d\n2y|1xabc|2d\n1z|2y|1xabc|2d\n",
    );
}

/// The characters of a line, each with a comma.
fn characters(alloc: Global, line: &TaggedLine<Voice>) -> Result<String, OutOfMemory> {
    let mut all = String::new(alloc);
    for c in line.chars() {
        all.push(c)?;
        all.push(',')?;
    }
    Ok(all)
}

#[test]
fn markers_stand_between_pieces(rt: HostRuntime) -> Result<(), Fail> {
    let alloc = rt.alloc();
    // It is padded where it isn't as wide already.
    expect::<UnicodeColumns>(
        &rt,
        alloc,
        &[
            Text("a", Voice::First),
            Marker("m"),
            Text("b", Voice::First),
            Pad(4, Voice::First),
            Pad(3, Voice::Second),
            Pad(5, Voice::Second),
        ],
        "1a\n1a|#m\n1a|#m|1b\n1a|#m|1b  \n1a|#m|1b  \n1a|#m|1b  |2 \n",
    );
    let line = marked_line(alloc)?;
    shows(&rt, characters(alloc, &line), "a,b,");
    counts(&rt, how_many(line.tagged_strings()), 2);
    counts(&rt, how_many(line.iter()), 3);
    counts(&rt, line.width::<UnicodeColumns>()?, 2);
    Ok(())
}

#[test]
fn a_line_of_the_empty_text_has_a_piece(rt: HostRuntime) -> Result<(), Fail> {
    let alloc = rt.alloc();
    let line = TaggedLine::from_string(alloc, String::new(alloc), &Voice::First)?;
    shows(&rt, elements(alloc, &line), "1");
    counts(&rt, line.width::<UnicodeColumns>()?, 0);
    assert!(rt; !line.is_empty());
    Ok(())
}

/// The elements of a marker and `漢` after it, aligned to a width.
fn aligned<W: CharWidth>(
    alloc: Global,
    width: usize,
    align: CellAlign,
) -> Result<String, OutOfMemory> {
    let edits = [
        Marker("m"),
        Text("漢", Voice::First),
        Align(width, align, Voice::First),
    ];
    elements(alloc, &line_after::<W>(alloc, &edits)?)
}

/// Aligned so, they are those that are expected.
fn expect_aligned<W: CharWidth>(
    rt: &impl Abort,
    alloc: Global,
    width: usize,
    align: CellAlign,
    expected: &str,
) {
    shows(rt, aligned::<W>(alloc, width, align), expected)
}

#[test]
fn the_odd_column_of_the_middle_is_on_the_right(rt: HostRuntime) {
    let alloc = rt.alloc();
    // Spaces in front come before markers.
    expect_aligned::<UnicodeColumns>(&rt, alloc, 5, CellAlign::Centre, "1 |#m|1漢  ");
    expect_aligned::<UnicodeColumns>(&rt, alloc, 5, CellAlign::default(), "#m|1漢   ");
    expect_aligned::<UnicodeColumns>(&rt, alloc, 5, CellAlign::Right, "1   |#m|1漢");
    expect_aligned::<UnicodeColumns>(&rt, alloc, 2, CellAlign::Right, "#m|1漢");
    // By the second width instance.
    expect_aligned::<EveryOne>(&rt, alloc, 5, CellAlign::Centre, "1  |#m|1漢  ");
}

#[test]
fn padding_joins_pieces_under_an_equal_tag(rt: HostRuntime) {
    expect::<EveryOne>(
        &rt,
        rt.alloc(),
        &[
            Text("a", Voice::First),
            Align(4, CellAlign::Centre, Voice::First),
            Align(6, CellAlign::Centre, Voice::Second),
        ],
        "1a\n1 a  \n2 |1 a  |2 \n",
    );
}

fn other(voice: Voice) -> Voice {
    match voice {
        Voice::First => Voice::Second,
        Voice::Second => Voice::First,
    }
}

fn are_same<T: PartialEq>(a: &T, b: &T) -> bool {
    a == b
}

fn how_many<I: Iterator + Drop>(walk: I) -> usize
where
    I::Item: Drop,
    requires can { I.can_next walk }
    requires ends { IsFinite (I.remaining walk) }
{
    let mut count = 0usize;
    for _ in walk {
        count = count.saturating_add(1);
    }
    count
}

#[test]
fn walks_end(rt: HostRuntime) -> Result<(), Fail> {
    let alloc = rt.alloc();
    let line = marked_line(alloc)?;
    counts(&rt, how_many(line.iter()), 3);
    counts(&rt, how_many(line.tagged_strings()), 2);
    counts(&rt, how_many(line.chars()), 2);
    counts(&rt, how_many(line.into_iter()), 3);
    Ok(())
}

#[test]
fn tags_are_mapped_and_texts_stay(rt: HostRuntime) -> Result<(), Fail> {
    let alloc = rt.alloc();
    let line = marked_line(alloc)?;
    let copy = line.clone()?;
    assert!(rt; are_same(&line, &copy));
    let mapped = line.map_tag(&|voice| other(voice))?;
    assert!(rt; !are_same(&mapped, &copy));
    shows(&rt, elements(alloc, &mapped), "2a|#m|2b");
    shows(&rt, mapped.to_text(), "ab");
    Ok(())
}

/// A piece by itself has these widths, and its copy is the same.
fn look_at_piece(rt: &impl Abort, alloc: Global) -> Result<(), Fail> {
    let wide = piece(alloc, "漢", Voice::First)?;
    counts(rt, wide.width::<UnicodeColumns>()?, 2);
    counts(rt, wide.width::<EveryOne>()?, 1);
    let copy = wide.clone()?;
    assert!(rt; are_same(&copy, &wide));
    Ok(())
}

fn text_element(
    alloc: Global,
    text: &str,
    tag: Voice,
) -> Result<TaggedLineElement<Voice>, OutOfMemory> {
    Ok(TaggedLineElement::Str(piece(alloc, text, tag)?))
}

/// A piece as an element, whose tag is mapped and mapped back.
fn look_at_element(rt: &impl Abort, alloc: Global) -> Result<(), Fail> {
    let wide = piece(alloc, "漢", Voice::First)?;
    let element = TaggedLineElement::Str(wide.map_tag(&|voice| other(voice)));
    assert_eq!(rt; element.as_str(), "漢");
    counts(rt, element.width::<UnicodeColumns>()?, 2);
    let back = element.map_tag(&|voice| other(voice));
    let expected = text_element(alloc, "漢", Voice::First)?;
    assert!(rt; are_same(&back, &expected));
    Ok(())
}

/// A marker by itself.
fn look_at_marker(rt: &impl Abort, alloc: Global) -> Result<(), Fail> {
    let marker = marker(alloc, "m")?;
    assert_eq!(rt; marker.as_str(), "");
    counts(rt, marker.width::<UnicodeColumns>()?, 0);
    let element = text_element(alloc, "漢", Voice::Second)?;
    let copy = marker.clone()?;
    assert!(rt; !are_same(&copy, &element));
    Ok(())
}

/// What a walk over a line's own elements gives.
fn look_at_walk(rt: &impl Abort, alloc: Global) -> Result<(), Fail> {
    let text = text_element(alloc, "a", Voice::First)?;
    let marker = marker(alloc, "m")?;
    let mut walk = marked_line(alloc)?.into_iter();
    assert!(rt; are_same(&walk.next(), &Some(text)));
    assert!(rt; are_same(&walk.next(), &Some(marker)));
    counts(rt, walk.len(), 1);
    Ok(())
}

#[test]
fn elements_have_widths_texts_and_copies(rt: HostRuntime) -> Result<(), Fail> {
    let alloc = rt.alloc();
    counts(&rt, text_width::<EveryOne>("漢a")?, 2);
    look_at_piece(&rt, alloc)?;
    look_at_element(&rt, alloc)?;
    look_at_marker(&rt, alloc)?;
    look_at_walk(&rt, alloc)
}
