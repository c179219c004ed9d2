//! Calls on a renderer where memory may be refused: `tools/refused --test` refuses each request of these tests in turn.
use crate::compared::shows;
use crate::prefixes::prefixes_under;
use crate::refusals::keeps;
use std::alloc::Global;
use std::process::Abort;
use tbr_decor::{PlainDecorator, RichDecorator, TextDecorator, TrivialDecorator};
use tbr_lines::{Error, WhiteSpace};
use tbr_renderer::{ImageRenderMode, RenderOptions, Renderer, SubRenderer};
use test_calls::calls::Call::{
    Append, Background, Border, BorderWidth, Closes, Colour, EmptyLine, Ends, HardLine, Image,
    Line, Marker, Mode, Opens, Preformat, Row, StartBlock, StartTable, Text, VertRow,
};
use test_calls::calls::{Call, Closing, End, Opening, RED, Shown, handed_out, make_all};
use test_calls::inside::{Block, Cell, Inner};
use test_calls::told::{Told, Under, options};

const CALLS: &[Call<'static>] = &[
    Text("ab cd ef gh"),
    Marker("x"),
    Line,
    Ends(End::Block),
    Text("  "),
    StartBlock,
    Marker("y"),
    Line,
    Preformat,
    Mode(WhiteSpace::Pre),
    Text("p q"),
    HardLine,
    Ends(End::Mode),
    Ends(End::Preformat),
    HardLine,
    EmptyLine,
    StartTable,
    Text("end"),
];

const LINES: &str =
    "ab cd ef \ngh<x>       \n         \n<y>p q      \n         \n         \n         \nend      \n";

const DECORATED: &[Call<'static>] = &[
    Opens(Opening::Link("t")),
    Text("a"),
    Closes(Closing::Link),
    Opens(Opening::Emphasis),
    Text("b"),
    Closes(Closing::Emphasis),
    Opens(Opening::Strong),
    Text("c"),
    Closes(Closing::Strong),
    Opens(Opening::Strikeout),
    Text("d"),
    Closes(Closing::Strikeout),
    Opens(Opening::Code),
    Text("e"),
    Closes(Closing::Code),
    Text(" "),
    Opens(Opening::Superscript),
    Text("f"),
    Closes(Closing::Superscript),
    Image("s", "g"),
    Colour(RED),
    Background(RED),
    Text("h"),
    Ends(End::Background),
    Ends(End::Colour),
];

const DECORATED_LINES: &str = "abcd\u{336}e    \n^{f}gh   \n";

/// Lines of others, with a marker that waits across a border.
const APPENDED: &[Call<'static>] = &[
    Text("ab"),
    Border,
    Opens(Opening::Emphasis),
    Append(
        Block(
            4,
            &[Inner::Marker("x"), Inner::Border, Inner::Text("c d e")],
        ),
        "- |  |  |",
    ),
    VertRow(&[Block(3, &[Inner::Text("f")]), Block(3, &[Inner::Text("g")])]),
];

const APPENDED_LINES: &str = "ab\n─────────\n- ────\n  <x>c d\n  e\nf\n/////////\ng\n─────────\n";

const PADDED_LINES: &str =
    "ab       \n─────────\n- ────   \n  <x>c d    \n  e      \nf        \n/////////\ng        \n─────────\n";

const EXAMPLES: &[(Told, &[Call<'static>], &str)] = &[
    (Told::Padding, CALLS, LINES),
    (Told::Padding, DECORATED, DECORATED_LINES),
    (Told::Nothing, APPENDED, APPENDED_LINES),
    (Told::Padding, APPENDED, PADDED_LINES),
];

/// A renderer of nine columns whose blocks have eight.
fn renderer<D: TextDecorator>(alloc: Global, told: Told, decorator: D) -> SubRenderer<D> {
    let options = RenderOptions {
        wrap_width: Some(8),
        ..options(told)
    };
    SubRenderer::new(alloc, 9, options, decorator)
}

/// What lines show after calls, one of which may refuse; the refusal is kept.
fn shown_or_refused<D: TextDecorator>(
    rt: &impl Abort,
    alloc: Global,
    mut r: SubRenderer<D>,
    calls: &[Call<'_>],
) -> Result<String, Error> {
    if let Err(refusal) = make_all(alloc, &mut r, calls) {
        // What is made for a call may be refused too, and that isn't kept.
        if r.failure().is_none() {
            return Err(refusal);
        }
        keeps(rt, alloc, &mut r, refusal);
        assert!(rt; handed_out(alloc, Shown::Text, r, &[]).err() == Some(refusal));
        return Err(refusal);
    }
    handed_out(alloc, Shown::Markers, r, &[])
}

/// The text is the one that is expected, or memory is refused.
fn shows_or_refuses(rt: &impl Abort, text: Result<String, Error>, expected: &str) {
    match text {
        Err(Error::OutOfMemory) => {}
        text => shows(rt, text, expected),
    }
}

#[test]
fn every_call_leaves_its_lines_or_refuses_for_good(rt: HostRuntime) {
    let alloc = rt.alloc();
    for (told, calls, lines) in EXAMPLES {
        let r = renderer(alloc, *told, RichDecorator::new());
        let shown = shown_or_refused(&rt, alloc, r, calls);
        shows_or_refuses(&rt, shown, lines);
    }
}

/// The lines of a sub-renderer after calls, one of which may refuse, as the sub-renderer may itself.
fn shown_inside<D: TextDecorator>(
    alloc: Global,
    decorator: D,
    calls: &[Call<'_>],
) -> Result<String, Error> {
    let mut r = renderer(alloc, Told::Padding, decorator);
    let _ = make_all(alloc, &mut r, calls);
    handed_out(alloc, Shown::Text, r.new_sub_renderer(5)?, &[])
}

#[test]
fn prefixes_and_sub_renderers_may_be_refused_and_that_is_not_kept(rt: HostRuntime) {
    let alloc = rt.alloc();
    let shown = prefixes_under(&rt, alloc, RichDecorator::new(), false, 2);
    shows_or_refuses(&rt, shown, "## |> |* |-1. ");
    let inside = shown_inside(alloc, RichDecorator::new(), &[Opens(Opening::Link("t"))]);
    shows_or_refuses(&rt, inside, "");
}

/// Calls on a new renderer under a decorator, and the lines that they leave.
#[derive(Clone, Copy)]
struct Worked {
    under: Under,
    told: Told,
    width: usize,
    calls: &'static [Call<'static>],
    lines: &'static str,
}

const WORDS: Worked = Worked {
    under: Under::Plain,
    told: Told::Nothing,
    width: 8,
    calls: &[Text("Hello, world.  Superlongwordreally")],
    lines: "Hello,\nworld.\nSuperlon\ngwordrea\nlly\n",
};

const WORKED: &[Worked] = &[
    WORDS,
    Worked {
        under: Under::Trivial,
        width: 3,
        calls: &[
            Opens(Opening::Strikeout),
            Text("a b"),
            Closes(Closing::Strikeout),
        ],
        lines: "a\u{336} \u{336}b\u{336}\n",
        ..WORDS
    },
    Worked {
        under: Under::Trivial,
        width: 1,
        calls: &[
            Opens(Opening::Strikeout),
            Text("a "),
            Closes(Closing::Strikeout),
        ],
        lines: "a\u{336}\n\u{336}\n",
        ..WORDS
    },
    Worked {
        width: 12,
        calls: &[BorderWidth(5), FIRST_ROW, SECOND_ROW],
        lines: "─┬───\nA│one\nB├───\nC│two\n─┴───\n",
        ..WORDS
    },
    Worked {
        told: Told::NoBorders,
        width: 12,
        calls: &[FIRST_ROW, SECOND_ROW],
        lines: "A one\nB two\nC    \n",
        ..WORDS
    },
    Worked {
        width: 12,
        calls: &[
            BorderWidth(3),
            Row(&[LONG, Cell(1, Block(1, &[Inner::Text("a")]))], false),
            Row(
                &[
                    Cell(1, Block(1, &[])),
                    Cell(1, Block(1, &[Inner::Text("b")])),
                ],
                false,
            ),
        ],
        lines: "─┬─\nv│a\nw│ \nx├─\ny│b\nz│ \n─┴─\n",
        ..WORDS
    },
    Worked {
        width: 3,
        calls: &[Text("ab "), Marker("x"), Text("cde")],
        lines: "ab\n<x>cde\n",
        ..WORDS
    },
    Worked {
        width: 3,
        calls: &[Text("abc"), Marker("x"), Text("def")],
        lines: "abc<x>\ndef\n",
        ..WORDS
    },
    Worked {
        width: 4,
        calls: &[VertRow(&[Block(4, &[Inner::Text("a")]), Block(4, &[Inner::Text("b")])])],
        lines: "a\n////\nb\n────\n",
        ..WORDS
    },
    Worked {
        width: 5,
        calls: &[
            Border,
            Row(&[NESTED, Cell(1, Block(1, &[Inner::Text("xy")]))], true),
        ],
        lines: "─┬─┬─\n1│2│x\n │ │y\n─┴─┴─\n",
        ..WORDS
    },
    Worked {
        told: Told::Images(ImageRenderMode::Filename),
        width: 80,
        calls: &[
            Text("Hello x"),
            Image("http://www.example.com/path/foo.jpg", ""),
            Text("y"),
        ],
        lines: "Hello x[foo.jpg]y\n",
        ..WORDS
    },
];

/// A cell of two rows, and one of three columns beside it.
const FIRST_ROW: Call<'static> = Row(
    &[
        Cell(2, Block(1, &[Inner::Text("ABC")])),
        Cell(1, Block(3, &[Inner::Text("one")])),
    ],
    false,
);

const SECOND_ROW: Call<'static> = Row(
    &[
        Cell(1, Block(1, &[])),
        Cell(1, Block(3, &[Inner::Text("two")])),
    ],
    false,
);

/// A cell of two rows, whose five lines one block has ended.
const LONG: Cell<'static> = Cell(2, Block(1, &[Inner::Text("v w x y z")]));

/// A cell with a border and a row.
const NESTED: Cell<'static> = Cell(1, Block(3, &[Inner::Border, Inner::Row("1", "2")]));

/// The lines after an example's calls, or a refusal that is kept.
fn worked_or_refused<D: TextDecorator>(
    rt: &impl Abort,
    alloc: Global,
    worked: Worked,
    decorator: D,
) -> Result<String, Error> {
    assert!(rt; 0 < worked.width);
    let r = SubRenderer::new(alloc, worked.width, options(worked.told), decorator);
    shown_or_refused(rt, alloc, r, worked.calls)
}

#[test]
fn worked_calls_leave_their_lines_or_refuse_for_good(rt: HostRuntime) {
    let alloc = rt.alloc();
    for worked in WORKED {
        let shown = match worked.under {
            Under::Trivial => worked_or_refused(&rt, alloc, *worked, TrivialDecorator::new()),
            _ => worked_or_refused(&rt, alloc, *worked, PlainDecorator::new()),
        };
        shows_or_refuses(&rt, shown, worked.lines);
    }
}
