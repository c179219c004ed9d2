//! Lists of annotations that share their common part.
use crate::compared::counts;
use std::alloc::Global;
use std::process::Abort;
use std::test::Fail;
use tbr_annotations::{Annotations, OpenAnnotations, written_out};
use tbr_lines::{
    BorderHoriz, OutOfMemory, RenderLine, TaggedLine, TaggedLineElement, TaggedString,
};
use tbr_tags::Tag;

/// The list has these annotations.
fn expect(
    rt: &impl Abort,
    alloc: Global,
    list: &Annotations<char>,
    expected: &[char],
) -> Result<(), OutOfMemory> {
    let copies = list.to_vec(alloc)?;
    assert!(rt; copies.as_slice() == expected);
    counts(rt, list.len(), expected.len());
    Ok(())
}

#[test]
fn what_opens_and_closes_leaves_other_lists_as_they_are(rt: HostRuntime) -> Result<(), Fail> {
    let alloc = rt.alloc();
    let mut open = OpenAnnotations::new();
    open.push(alloc, 'a')?;
    let outer = open.list()?;
    open.push(alloc, 'b')?;
    let inner = open.list()?;
    open.pop();
    open.push(alloc, 'a')?;
    expect(&rt, alloc, &open.list()?, &['a', 'a'])?;
    expect(&rt, alloc, &inner, &['a', 'b'])?;
    expect(&rt, alloc, &outer, &['a'])?;
    Ok(())
}

#[test]
fn what_opens_again_is_an_equal_list(rt: HostRuntime) -> Result<(), Fail> {
    let alloc = rt.alloc();
    let mut open = OpenAnnotations::new();
    open.pop();
    open.push(alloc, 'a')?;
    open.push(alloc, 'b')?;
    let inner = open.list()?;
    open.pop();
    open.push(alloc, 'b')?;
    assert!(rt; open.list()? == inner);
    open.pop();
    open.push(alloc, 'a')?;
    assert!(rt; open.list()? != inner);
    Ok(())
}

#[test]
fn lists_with_one_more_are_of_what_is_open(rt: HostRuntime) -> Result<(), Fail> {
    let alloc = rt.alloc();
    let mut open = OpenAnnotations::new();
    open.push(alloc, 'a')?;
    open.push(alloc, 'b')?;
    let (first, second) = open.with_each(alloc, 'c', 'd')?;
    expect(&rt, alloc, &first, &['a', 'b', 'c'])?;
    expect(&rt, alloc, &second, &['a', 'b', 'd'])?;
    let (first, second) = open.with_each(alloc, 'c', 'e')?;
    expect(&rt, alloc, &first, &['a', 'b', 'c'])?;
    expect(&rt, alloc, &second, &['a', 'b', 'e'])?;
    open.pop();
    let (first, second) = open.with_each(alloc, 'c', 'e')?;
    expect(&rt, alloc, &first, &['a', 'c'])?;
    expect(&rt, alloc, &second, &['a', 'e'])?;
    Ok(())
}

#[test]
fn a_long_list_is_dropped_in_little_stack(rt: HostRuntime) -> Result<(), Fail> {
    let alloc = rt.alloc();
    let mut open = OpenAnnotations::new();
    for _ in 0..1_000_000 {
        open.push(alloc, 'a')?;
    }
    counts(&rt, open.list()?.len(), 1_000_000);
    Ok(())
}

/// The list of these two annotations.
fn list_of(alloc: Global, first: char, second: char) -> Result<Annotations<char>, OutOfMemory> {
    Annotations::new().with(alloc, first)?.with(alloc, second)
}

/// `ab`, a marker and `c`, under these tags.
fn line_under<T: Tag>(alloc: Global, ab: T, c: T) -> Result<TaggedLine<T>, OutOfMemory> {
    let mut line = TaggedLine::new(alloc);
    let s = String::from_str(alloc, "ab")?;
    line.push_str(TaggedString { s, tag: ab })?;
    line.push(TaggedLineElement::FragmentStart(String::from_str(alloc, "m")?))?;
    let s = String::from_str(alloc, "c")?;
    line.push_str(TaggedString { s, tag: c })?;
    Ok(line)
}

/// A line of text is written out, and a border.
fn write_out(rt: &impl Abort, alloc: Global) -> Result<(), OutOfMemory> {
    let one = list_of(alloc, 'a', 'b')?;
    let other = list_of(alloc, 'b', 'b')?;
    let expected = line_under(alloc, one.to_vec(alloc)?, other.to_vec(alloc)?)?;
    let border = BorderHoriz::new(alloc, 3, list_of(alloc, 'a', 'a')?)?;
    match written_out(alloc, RenderLine::Text(line_under(alloc, one, other)?))? {
        RenderLine::Text(line) => assert!(rt; line == expected),
        RenderLine::Line(_) => assert!(rt; false),
    }
    let written = written_out(alloc, RenderLine::Line(border))?;
    assert!(rt; written.to_text()?.as_str() == "───");
    Ok(())
}

#[test]
fn lines_are_written_out_with_vectors(rt: HostRuntime) -> Result<(), Fail> {
    write_out(&rt, rt.alloc())?;
    Ok(())
}

#[test]
fn lines_are_written_out_or_refused_memory(rt: HostRuntime) {
    let _ = write_out(&rt, rt.alloc());
}
