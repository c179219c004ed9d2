//! Worked examples of vertical rows.
use crate::expected::Expected::{Lines, LinesUnder, Markers, Pieces, Refused};
use crate::expected::{Example, meet_all};
use tbr_lines::Error;
use test_calls::calls::Call::{Marker, Opens, StartBlock, Text, VertRow};
use test_calls::calls::Opening;
use test_calls::inside::{Block, Inner};
use test_calls::told::{Told, Under};

const A: Block<'static> = Block(4, &[Inner::Text("a")]);

const B: Block<'static> = Block(4, &[Inner::Text("b")]);

const EMPTY: Block<'static> = Block(4, &[]);

/// It has no room for its text.
const NARROW: Block<'static> = Block(1, &[Inner::Text("漢")]);

/// Where lines are padded, there is no memory for a line of its own.
const HUGE: Block<'static> = Block(usize::MAX, &[Inner::Text("a")]);

const ROW: Example = Example {
    name: "slashes are between cells, and a border after the last",
    told: Told::Nothing,
    width: 4,
    calls: &[VertRow(&[A, B])],
    expected: &[Lines("a\n////\nb\n────\n")],
};

const WITHOUT_CELLS: Example = Example {
    name: "a row without cells is a border",
    calls: &[VertRow(&[])],
    expected: &[Lines("────\n")],
    ..ROW
};

const EXAMPLES: &[Example] = &[
    ROW,
    WITHOUT_CELLS,
    Example {
        name: "without drawn borders there are only the cells",
        told: Told::NoBorders,
        expected: &[Lines("a\nb\n")],
        ..ROW
    },
    Example {
        name: "without drawn borders a row without cells is nothing",
        told: Told::NoBorders,
        expected: &[Lines("")],
        ..WITHOUT_CELLS
    },
    Example {
        name: "the open line is ended, and borders are as wide as the renderer",
        width: 6,
        calls: &[Text("x"), VertRow(&[A, EMPTY, B])],
        expected: &[Lines("x\na\n//////\n//////\nb\n──────\n")],
        ..ROW
    },
    Example {
        name: "the border of a row is content",
        calls: &[VertRow(&[]), StartBlock, Text("x")],
        expected: &[Lines("────\n\nx\n")],
        ..ROW
    },
    Example {
        name: "a border in a cell is text under the annotations, and texts keep their own",
        calls: &[
            Opens(Opening::Emphasis),
            VertRow(&[
                Block(2, &[Inner::Strong, Inner::Border]),
                Block(2, &[Inner::Strong, Inner::Text("a")]),
            ]),
        ],
        expected: &[Pieces(
            Under::Rich,
            "──:[Emphasis] \n////\na:[Emphasis, Strong] \n────\n",
        )],
        ..ROW
    },
    Example {
        name: "a marker that waits goes to the first line of a cell, after borders",
        calls: &[Marker("x"), VertRow(&[EMPTY, B])],
        expected: &[Markers("////\n<x>b\n────\n")],
        ..ROW
    },
    Example {
        name: "a marker that waits goes before a cell's border",
        calls: &[Marker("x"), VertRow(&[Block(2, &[Inner::Border])])],
        expected: &[Markers("<x>──\n────\n")],
        ..ROW
    },
    Example {
        name: "a marker waits across a row without cells",
        calls: &[Marker("x"), VertRow(&[]), Text("a")],
        expected: &[Markers("────\n<x>a\n")],
        ..ROW
    },
    Example {
        name: "markers after the lines of a cell are dropped",
        calls: &[VertRow(&[
            Block(
                4,
                &[Inner::Marker("x"), Inner::Text("a "), Inner::Marker("y")],
            ),
            B,
        ])],
        expected: &[Markers("<x>a\n////\nb\n────\n")],
        ..ROW
    },
    Example {
        name: "all lines are padded",
        told: Told::Padding,
        width: 6,
        expected: &[Lines("a     \n//////\nb     \n──────\n")],
        ..ROW
    },
    Example {
        name: "a cell passes on that it is too narrow",
        width: 1,
        calls: &[VertRow(&[A, NARROW])],
        expected: &[
            Refused(Error::TooNarrow),
            LinesUnder(Under::OneColumnEach, "a\n/\n漢\n─\n"),
        ],
        ..ROW
    },
    Example {
        name: "of two cells that refuse the first counts, here a narrow one",
        told: Told::Padding,
        calls: &[VertRow(&[A, NARROW, HUGE])],
        expected: &[Refused(Error::TooNarrow)],
        ..ROW
    },
    Example {
        name: "of two cells that refuse the first counts, here one without memory",
        told: Told::Padding,
        calls: &[VertRow(&[A, HUGE, NARROW])],
        expected: &[Refused(Error::OutOfMemory)],
        ..ROW
    },
    Example {
        name: "the open line comes before the cells",
        told: Told::Padding,
        width: usize::MAX,
        calls: &[Text("x"), VertRow(&[NARROW])],
        expected: &[Refused(Error::OutOfMemory)],
        ..ROW
    },
];

#[test]
fn cells_stand_below_one_another(rt: HostRuntime) {
    meet_all(&rt, rt.alloc(), EXAMPLES);
}
