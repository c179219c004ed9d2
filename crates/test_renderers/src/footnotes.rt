//! Worked examples of the targets of links after a document.
ghost use Rattle.std.specs.Prelude.{◌<◌};

use crate::compared::shows;
use std::alloc::Global;
use std::process::Abort;
use std::test::Fail;
use tbr_decor::{RichAnnotation, RichDecorator};
use tbr_lines::{Error, OutOfMemory, TaggedLine, TaggedLineElement, TaggedString};
use tbr_renderer::{RenderOptions, Renderer, SubRenderer};
use test_calls::calls::Call::{Line, Marker, Text};
use test_calls::calls::{Call, Shown, handed_out, make_all};
use test_support::marked::{Mark, MarkedDecorator};
use test_support::texts::append_pieces;

/// The pieces of the footnotes of two targets.
fn footnotes(alloc: Global, listed: bool) -> Result<String, Error> {
    let options = RenderOptions {
        include_link_footnotes: listed,
        ..RenderOptions::default()
    };
    let mut r: SubRenderer<RichDecorator> = SubRenderer::new(
        alloc,
        9,
        options,
        RichDecorator::new(),
    );
    let targets = vec![in alloc;
        String::from_str(alloc, "a")?,
        String::from_str(alloc, "b")?,
    ]?;
    let mut pieces = String::new(alloc);
    for line in &r.finalise(targets)? {
        append_pieces(&mut pieces, alloc, line)?;
    }
    Ok(pieces)
}

#[test]
fn footnotes_are_listed_where_there_are_any(rt: HostRuntime) {
    let alloc = rt.alloc();
    shows(
        &rt,
        footnotes(alloc, true),
        "[1]: a:Default \n[2]: b:Default \n",
    );
    shows(&rt, footnotes(alloc, false), "");
}

/// A piece of a footnote, or a marker.
#[derive(Clone, Copy)]
enum Part<'a> {
    Plain(&'a str),
    Strong(&'a str),
    Name(&'a str),
}

use Part::{Name, Plain, Strong};

/// Footnotes after calls on a new renderer, and what its lines show then.
#[derive(Clone, Copy)]
struct Example<'a> {
    name: &'a str,
    width: usize,
    wraps: bool,
    pads: bool,
    calls: &'a [Call<'a>],
    footnotes: &'a [&'a [Part<'a>]],
    shown: Shown,
    lines: &'a str,
}

const TARGET: Example<'static> = Example {
    name: "a target is cut at the width",
    width: 10,
    wraps: true,
    pads: false,
    calls: &[],
    footnotes: &[&[Plain("[1]: http://www.example.com/")]],
    shown: Shown::Text,
    lines: "[1]: http:\n//www.exam\nple.com/\n",
};

const EXAMPLES: &[Example<'static>] = &[
    TARGET,
    Example {
        name: "an empty line ends too before a character that is wider than the renderer",
        width: 1,
        footnotes: &[&[Plain("漢")]],
        lines: "\n漢\n",
        ..TARGET
    },
    Example {
        name: "where links aren't wrapped a footnote is one line",
        wraps: false,
        lines: "[1]: http://www.example.com/\n",
        ..TARGET
    },
    Example {
        name: "each footnote begins a line, and an empty one is an empty line",
        width: 4,
        footnotes: &[&[Plain("ab")], &[], &[Plain("cdefg")]],
        lines: "ab\n\ncdef\ng\n",
        ..TARGET
    },
    Example {
        name: "characters that take no columns go on in a full line",
        width: 2,
        footnotes: &[&[Plain("ab\u{301}c")]],
        lines: "ab\u{301}\nc\n",
        ..TARGET
    },
    Example {
        name: "newlines are spaces, and markers are dropped",
        footnotes: &[&[Plain("a\nb"), Name("x"), Plain("\n\nc")]],
        shown: Shown::Markers,
        lines: "a b  c\n",
        ..TARGET
    },
    Example {
        name: "lines are padded to the renderer's width",
        width: 4,
        pads: true,
        footnotes: &[&[Plain("abcde")], &[]],
        lines: "abcd\ne   \n    \n",
        ..TARGET
    },
    Example {
        name: "each piece is under its one annotation, and pieces don't matter where a line is cut",
        width: 8,
        footnotes: &[&[
            Plain("plain "),
            Strong("st"),
            Name("x"),
            Strong("rong"),
            Plain("!"),
        ]],
        shown: Shown::Pieces,
        lines: "plain :[Default] st:[Strong] \nrong:[Strong] !:[Default] \n",
        ..TARGET
    },
    Example {
        name: "footnotes come after the markers that wait",
        calls: &[Marker("x"), Line],
        footnotes: &[&[Plain("a")], &[Plain("b")]],
        shown: Shown::Markers,
        lines: "<x>a\nb\n",
        ..TARGET
    },
    Example {
        name: "text that is open stays open",
        calls: &[Text("ab"), Line, Text("cd")],
        footnotes: &[&[Plain("x")]],
        lines: "ab\nx\ncd\n",
        ..TARGET
    },
    Example {
        name: "no footnote adds no line",
        calls: &[Text("ab"), Line],
        footnotes: &[],
        lines: "ab\n",
        ..TARGET
    },
];

fn piece<A: Drop>(alloc: Global, text: &str, tag: A) -> Result<TaggedLineElement<A>, OutOfMemory> {
    let s = String::from_str(alloc, text)?;
    Ok(TaggedLineElement::Str(TaggedString { s, tag }))
}

fn element(
    alloc: Global,
    part: Part<'_>,
) -> Result<TaggedLineElement<RichAnnotation>, OutOfMemory> {
    match part {
        Plain(text) => piece(alloc, text, RichAnnotation::Default),
        Strong(text) => piece(alloc, text, RichAnnotation::Strong),
        Name(name) => Ok(TaggedLineElement::FragmentStart(String::from_str(alloc, name)?)),
    }
}

fn footnote(alloc: Global, parts: &[Part<'_>]) -> Result<TaggedLine<RichAnnotation>, OutOfMemory> {
    let mut line = TaggedLine::new(alloc);
    for part in parts {
        line.push(element(alloc, *part)?)?;
    }
    Ok(line)
}

fn footnotes_of(
    alloc: Global,
    footnotes: &[&[Part<'_>]],
) -> Result<Vec<TaggedLine<RichAnnotation>>, OutOfMemory> {
    let mut lines = Vec::new(alloc);
    for parts in footnotes {
        lines.push(footnote(alloc, parts)?)?;
    }
    Ok(lines)
}

/// What the lines after an example's calls and footnotes show.
fn shown_by(alloc: Global, example: &Example<'_>) -> Result<String, Error>
    requires { 0 < example.now.width }
{
    let options = RenderOptions {
        wrap_links: example.wraps,
        pad_block_width: example.pads,
        ..RenderOptions::default()
    };
    let mut r: SubRenderer<RichDecorator> = SubRenderer::new(
        alloc,
        example.width,
        options,
        RichDecorator::new(),
    );
    make_all(alloc, &mut r, example.calls)?;
    r.fmt_links(footnotes_of(alloc, example.footnotes)?)?;
    handed_out(alloc, example.shown, r, &[])
}

fn meets(rt: &impl Abort, alloc: Global, example: &Example<'_>) {
    assert!(rt; 0 < example.width);
    match shown_by(alloc, example) {
        Ok(shown) => assert_eq!(rt; shown.as_str(), example.lines, "{}", example.name),
        Err(error) => panic!(rt; "{}: {error:?}", example.name),
    }
}

#[test]
fn footnotes_are_cut_into_lines(rt: HostRuntime) {
    for example in EXAMPLES {
        meets(&rt, rt.alloc(), example);
    }
}

/// The pieces of a footnote under marks.
fn marked(alloc: Global) -> Result<String, Error> {
    let mut r: SubRenderer<MarkedDecorator> = SubRenderer::new(
        alloc,
        3,
        RenderOptions::default(),
        MarkedDecorator::new(),
    );
    let mut line = TaggedLine::new(alloc);
    line.push(piece(alloc, "a\nb", Mark::Nothing)?)?;
    line.push(piece(alloc, "c", Mark::Marked)?)?;
    r.fmt_links(vec![in alloc; line]?)?;
    handed_out(alloc, Shown::Pieces, r, &[])
}

#[test]
fn footnotes_stand_under_annotations_of_any_decorator(rt: HostRuntime) {
    shows(&rt, marked(rt.alloc()), "a b:[Nothing] \nc:[Marked] \n");
}

/// A renderer of one column, which a character of two has made fail, or a refusal of memory.
fn failed(alloc: Global, refusal: Error) -> SubRenderer<RichDecorator> {
    let mut r: SubRenderer<RichDecorator> = SubRenderer::new(
        alloc,
        1,
        RenderOptions::default(),
        RichDecorator::new(),
    );
    match refusal {
        Error::OutOfMemory => r.fail(OutOfMemory),
        Error::TooNarrow => {
            let _ = r.add_inline_text("\u{6f22}");
            let _ = r.new_line();
        }
    }
    r
}

#[test]
fn failed_renderer_adds_no_footnote(rt: HostRuntime) -> Result<(), Fail> {
    let alloc = rt.alloc();
    for refusal in [Error::TooNarrow, Error::OutOfMemory] {
        let mut r = failed(alloc, refusal);
        assert!(rt; r.failure() == Some(refusal));
        let lines = footnotes_of(alloc, TARGET.footnotes)?;
        assert!(rt; r.fmt_links(lines) == Err(refusal));
        assert!(rt; r.failure() == Some(refusal));
    }
    Ok(())
}
