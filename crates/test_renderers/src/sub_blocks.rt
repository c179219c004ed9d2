//! Worked examples of blocks inside, whose lines come after prefixes.
use crate::expected::Expected::{Lines, LinesUnder, Markers, Pieces, Refused};
use crate::expected::{Example, meet_all};
use std::alloc::Global;
use std::iter;
use std::test::Fail;
use tbr_decor::PlainDecorator;
use tbr_lines::Error;
use tbr_renderer::{Renderer, SubRenderer};
use test_calls::calls::Call::{Append, Ends, Marker, Opens, StartBlock, Text};
use test_calls::calls::{End, Opening};
use test_calls::inside::{Block, Inner};
use test_calls::told::{Told, Under, plain};

const LETTERS: Block<'static> = Block(
    4,
    &[
        Inner::Text("a"),
        Inner::Line,
        Inner::Text("b"),
        Inner::Line,
        Inner::Text("c"),
    ],
);

/// It has no room for its text.
const NARROW: Block<'static> = Block(1, &[Inner::Text("漢")]);

/// Where lines are padded, there is no memory for a line of its own.
const HUGE: Block<'static> = Block(usize::MAX, &[Inner::Text("a")]);

const ITEM: &str = "* |  |  |";

const LINES: Example = Example {
    name: "lines without prefixes are dropped",
    told: Told::Nothing,
    width: 8,
    calls: &[Append(LETTERS, "1 |2 |")],
    expected: &[Lines("1 a\n2 b\n")],
};

const EXAMPLES: &[Example] = &[
    LINES,
    Example {
        name: "a quote is between two blocks",
        width: 12,
        calls: &[
            Text("Hello"),
            Ends(End::Block),
            StartBlock,
            Append(Block(10, &[Inner::Text("One, two, three")]), "> |> |> |"),
            Ends(End::Block),
            Text("foo"),
        ],
        expected: &[Lines("Hello\n\n> One, two,\n> three\n\nfoo\n")],
        ..LINES
    },
    Example {
        name: "items of a list",
        width: 20,
        calls: &[
            Append(Block(18, &[Inner::Text("Item one")]), ITEM),
            Append(Block(18, &[Inner::Text("Item two")]), ITEM),
            Append(Block(18, &[Inner::Text("Item three")]), ITEM),
        ],
        expected: &[Lines("* Item one\n* Item two\n* Item three\n")],
        ..LINES
    },
    Example {
        name: "prefixes without lines are not used",
        calls: &[Append(LETTERS, "1 |2 |3 |4 |")],
        expected: &[Lines("1 a\n2 b\n3 c\n")],
        ..LINES
    },
    Example {
        name: "a prefix may be empty",
        calls: &[Append(LETTERS, "|2 ||")],
        expected: &[Lines("a\n2 b\nc\n")],
        ..LINES
    },
    Example {
        name: "without prefixes no line comes, and the open line is ended",
        calls: &[Text("x"), Append(LETTERS, ""), Text("y")],
        expected: &[Lines("x\ny\n")],
        ..LINES
    },
    Example {
        name: "a block without lines has none",
        calls: &[Text("x"), Append(Block(4, &[]), ITEM), Text("y")],
        expected: &[Lines("x\ny\n")],
        ..LINES
    },
    Example {
        name: "lines of others begin no block",
        calls: &[
            Text("x"),
            Ends(End::Block),
            Append(LETTERS, "1 |"),
            Text("y"),
        ],
        expected: &[Lines("x\n1 a\n\ny\n")],
        ..LINES
    },
    Example {
        name: "empty lines have prefixes, and lines are not cut",
        width: 3,
        calls: &[Append(
            Block(3, &[Inner::Text("abc"), Inner::EmptyLine]),
            "---|>>>>|",
        )],
        expected: &[Lines("---abc\n>>>>\n")],
        ..LINES
    },
    Example {
        name: "a border is after its prefix",
        width: 10,
        calls: &[Append(Block(4, &[Inner::Border]), "-|+|")],
        expected: &[Lines("-────\n"), Pieces(Under::Plain, "-────:[] \n")],
        ..LINES
    },
    Example {
        name: "prefixes and borders are under the annotations, and texts keep their own",
        calls: &[
            Opens(Opening::Emphasis),
            Append(
                Block(4, &[Inner::Strong, Inner::Text("a"), Inner::Border]),
                "> |> |",
            ),
        ],
        expected: &[Pieces(
            Under::Rich,
            "> :[Emphasis] a:[Emphasis, Strong] \n> ────:[Emphasis] \n",
        )],
        ..LINES
    },
    Example {
        name: "where lines are padded borders are text, which keeps its annotations",
        told: Told::Padding,
        calls: &[Append(
            Block(4, &[Inner::Strong, Inner::Border, Inner::Text("a")]),
            "> |> |",
        )],
        expected: &[Pieces(
            Under::Rich,
            "> :[] ────:[Strong]   :[] \n> :[] a   :[Strong]   :[] \n",
        )],
        ..LINES
    },
    Example {
        name: "a marker that waits is before the prefix, and one of the line after it",
        calls: &[
            Marker("x"),
            Append(
                Block(
                    4,
                    &[Inner::Marker("y"), Inner::Text("a "), Inner::Marker("z")],
                ),
                ITEM,
            ),
            Text("b"),
        ],
        expected: &[Markers("<x>* <y>a\nb\n")],
        ..LINES
    },
    Example {
        name: "a border after a prefix is text, also for a marker that waits",
        calls: &[Marker("x"), Append(Block(4, &[Inner::Border]), "-|")],
        expected: &[Markers("<x>-────\n")],
        ..LINES
    },
    Example {
        name: "a block passes on that it is too narrow",
        calls: &[Append(NARROW, ITEM)],
        expected: &[
            Refused(Error::TooNarrow),
            LinesUnder(Under::OneColumnEach, "* 漢\n"),
        ],
        ..LINES
    },
    Example {
        name: "a block that no prefix asks for passes on that it is too narrow",
        calls: &[Append(NARROW, "")],
        expected: &[Refused(Error::TooNarrow)],
        ..LINES
    },
    Example {
        name: "the open line comes before the block",
        told: Told::Padding,
        width: 1,
        calls: &[Text("漢"), Append(HUGE, ITEM)],
        expected: &[Refused(Error::TooNarrow)],
        ..LINES
    },
    Example {
        name: "the open line comes before the block, also where it wants more memory than there is",
        told: Told::Padding,
        width: usize::MAX,
        calls: &[
            Text("a"),
            Append(Block(1, &[Inner::Text("漢"), Inner::Line]), ITEM),
        ],
        expected: &[Refused(Error::OutOfMemory)],
        ..LINES
    },
];

#[test]
fn lines_of_blocks_stand_after_prefixes(rt: HostRuntime) {
    meet_all(&rt, rt.alloc(), EXAMPLES);
}

/// An item of a list, in a quote.
fn quoted_item(alloc: Global) -> Result<String, Error> {
    let mut document = plain(alloc, 8, Told::Nothing);
    let mut quote = document.new_sub_renderer(6)?;
    let mut item = quote.new_sub_renderer(4)?;
    item.add_inline_text("a b c d")?;
    quote.append_subrender(item, iter::once("- ").chain(iter::repeat("  ")))?;
    document.append_subrender(quote, iter::repeat("> "))?;
    document.into_string()
}

/// A renderer of one column that takes the lines of another after a prefix.
fn around(
    alloc: Global,
    inside: SubRenderer<PlainDecorator>,
) -> Result<SubRenderer<PlainDecorator>, Error> {
    let mut around = plain(alloc, 1, Told::Nothing);
    around.append_subrender(inside, iter::once(">"))?;
    Ok(around)
}

/// A line after as many prefixes, each of another renderer.
fn nested(alloc: Global, depth: usize) -> Result<String, Error> {
    let mut r = plain(alloc, 1, Told::Nothing);
    r.add_inline_text("a")?;
    for _ in 0..depth {
        r = around(alloc, r)?;
    }
    r.into_string()
}

/// A line of as many prefixes and a letter.
fn after_prefixes(alloc: Global, depth: usize) -> Result<String, Error> {
    let mut line = String::new(alloc);
    for _ in 0..depth {
        line.push('>')?;
    }
    line.push_str("a\n")?;
    Ok(line)
}

#[test]
fn blocks_nest_to_any_depth(rt: HostRuntime) -> Result<(), Fail> {
    let alloc = rt.alloc();
    assert_eq!(rt; quoted_item(alloc)?.as_str(), "> - a b\n>   c d\n");
    for depth in [200, 2000] {
        let line = after_prefixes(alloc, depth)?;
        assert_eq!(rt; nested(alloc, depth)?.as_str(), line.as_str());
    }
    Ok(())
}
