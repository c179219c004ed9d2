//! What a renderer does that has refused.
use crate::compared::shows;
use crate::prefixes::prefixes_of;
use std::alloc::Global;
use std::process::Abort;
use tbr_decor::{PlainDecorator, TextDecorator};
use tbr_lines::{CharWidth, Error, WhiteSpace};
use tbr_renderer::{Renderer, SubRenderer};
use test_calls::calls::Call::{
    Append, Background, Border, BorderWidth, Closes, Colour, EmptyLine, Ends, HardLine, Image,
    Line, Marker, Mode, Opens, Preformat, Row, StartBlock, StartTable, Text, VertRow,
};
use test_calls::calls::{
    Call, Closing, End, Opening, RED, Shown, handed_out, make, make_all, tells,
};
use test_calls::inside::{Block, Inner};
use test_calls::told::{Told, options};

/// Each call that can refuse, but the end of a strikeout, which may be called where one is open.
const REFUSING: &[Call<'static>] = &[
    Text("a"),
    Marker("x"),
    Mode(WhiteSpace::Pre),
    Preformat,
    StartBlock,
    StartTable,
    Line,
    HardLine,
    EmptyLine,
    Opens(Opening::Link("t")),
    Opens(Opening::Emphasis),
    Opens(Opening::Strong),
    Opens(Opening::Strikeout),
    Opens(Opening::Code),
    Opens(Opening::Superscript),
    Closes(Closing::Link),
    Closes(Closing::Emphasis),
    Closes(Closing::Strong),
    Closes(Closing::Code),
    Closes(Closing::Superscript),
    Image("s", "t"),
    Image("s", ""),
    Colour(RED),
    Background(RED),
    Border,
    BorderWidth(1),
    Append(Block(1, &[]), "> |"),
    VertRow(&[]),
    Row(&[], false),
];

/// Each call that can't.
const ENDS: &[Call<'static>] = &[
    Ends(End::Block),
    Ends(End::Mode),
    Ends(End::Preformat),
    Ends(End::Colour),
    Ends(End::Background),
];

/// Each call answers the refusal.
fn refuses_each<D: TextDecorator, W: CharWidth>(
    rt: &impl Abort,
    alloc: Global,
    r: &mut SubRenderer<D, W>,
    refusal: Error,
) {
    for call in REFUSING {
        assert!(rt; make(alloc, r, *call).err() == Some(refusal));
    }
    if r.strikeout_depth() > 0 {
        assert!(rt; make(alloc, r, Closes(Closing::Strikeout)).err() == Some(refusal));
    }
}

/// The renderer keeps the refusal, and what can't refuse still answers.
pub fn keeps<D: TextDecorator, W: CharWidth>(
    rt: &impl Abort,
    alloc: Global,
    r: &mut SubRenderer<D, W>,
    refusal: Error,
) {
    let before = tells(r);
    refuses_each(rt, alloc, r, refusal);
    assert!(rt; make_all(alloc, r, ENDS).is_ok());
    assert!(rt; r.width_minus(0, 1).is_ok());
    assert!(rt; before.0 == Some(refusal) && !before.1);
    assert!(rt; tells(r) == before);
}

/// Calls that a renderer answers, one that it refuses, how many strikeouts are open then, and what is asked for at the
/// end.
#[derive(Clone, Copy)]
struct Refusal {
    name: &'static str,
    told: Told,
    width: usize,
    answered: &'static [Call<'static>],
    refused: Call<'static>,
    error: Error,
    struck: usize,
    asked: Shown,
}

const REFUSALS: &[Refusal] = &[
    Refusal {
        name: "a line that is too narrow",
        told: Told::Nothing,
        width: 1,
        answered: &[Text("漢")],
        refused: Line,
        error: Error::TooNarrow,
        struck: 0,
        asked: Shown::Text,
    },
    Refusal {
        name: "a struck out line that is too narrow",
        told: Told::Nothing,
        width: 1,
        answered: &[Opens(Opening::Strikeout), Text("漢")],
        refused: Line,
        error: Error::TooNarrow,
        struck: 1,
        asked: Shown::Text,
    },
    Refusal {
        name: "lines of a renderer inside that is too narrow",
        told: Told::Nothing,
        width: 1,
        answered: &[Text("a")],
        refused: Append(Block(1, &[Inner::Text("漢")]), "> |"),
        error: Error::TooNarrow,
        struck: 0,
        asked: Shown::Pieces,
    },
    Refusal {
        name: "a cell that has refused",
        told: Told::Nothing,
        width: 1,
        answered: &[Opens(Opening::Strikeout)],
        refused: VertRow(&[Block(1, &[]), Block(1, &[Inner::Text("漢"), Inner::Line])]),
        error: Error::TooNarrow,
        struck: 1,
        asked: Shown::Text,
    },
    Refusal {
        name: "a border that takes more columns than there is memory",
        told: Told::Nothing,
        width: 5,
        answered: &[],
        refused: BorderWidth(usize::MAX),
        error: Error::OutOfMemory,
        struck: 0,
        asked: Shown::Text,
    },
    Refusal {
        name: "a line that is padded to more columns than there is memory",
        told: Told::Padding,
        width: usize::MAX,
        answered: &[Text("a")],
        refused: StartBlock,
        error: Error::OutOfMemory,
        struck: 0,
        asked: Shown::Pieces,
    },
];

/// What looks at no failure answers.
fn still_answers<D: TextDecorator, W: CharWidth>(rt: &impl Abort, r: &mut SubRenderer<D, W>) {
    let width = r.width();
    assert!(rt; r.width_minus(0, width).ok() == Some(width));
    assert!(rt; r.width_minus(1, width).is_err());
    shows(rt, prefixes_of(rt, r, 3), "### |> |* |-1. ");
}

/// The calls are answered up to the one that is refused, and the refusal is kept; this is what is shown at the end.
fn refuses_for_good<D: TextDecorator>(
    rt: &impl Abort,
    alloc: Global,
    decorator: D,
    refusal: Refusal,
) -> Result<String, Error> {
    assert!(rt; 0 < refusal.width);
    let mut r: SubRenderer<D> = SubRenderer::new(
        alloc,
        refusal.width,
        options(refusal.told),
        decorator,
    );
    assert!(rt; make_all(alloc, &mut r, refusal.answered).is_ok());
    assert!(rt;
        make(alloc, &mut r, refusal.refused).err() == Some(refusal.error),
        "{}",
        refusal.name
    );
    assert_eq!(rt; r.strikeout_depth(), refusal.struck);
    still_answers(rt, &mut r);
    keeps(rt, alloc, &mut r, refusal.error);
    handed_out(alloc, refusal.asked, r, &[])
}

#[test]
fn a_refusal_is_kept(rt: HostRuntime) {
    let alloc = rt.alloc();
    for refusal in REFUSALS {
        let shown = refuses_for_good(&rt, alloc, PlainDecorator::new(), *refusal);
        assert!(rt; shown.err() == Some(refusal.error), "{}", refusal.name);
    }
}
