//! Worked examples of rows of cells side by side.
use crate::expected::Expected::{Lines, LinesUnder, Markers, Pieces, Refused};
use crate::expected::{Example, meet_all};
use tbr_lines::{CellAlign, Error};
use test_calls::calls::Call::{AlignedRow, BorderWidth, Marker, Opens, Row, Text};
use test_calls::calls::Opening;
use test_calls::inside::{Block, Cell, Inner};
use test_calls::told::{Told, Under};

const A: Cell<'static> = Cell(1, Block(1, &[Inner::Text("a")]));

const B: Cell<'static> = Cell(1, Block(1, &[Inner::Text("b")]));

const EMPTY: Cell<'static> = Cell(1, Block(1, &[]));

/// It has three lines, for two rows.
const OF_TWO_ROWS: Cell<'static> = Cell(2, Block(1, &[Inner::Text("x y z")]));

/// It has five lines, which one block ends.
const LONG: Cell<'static> = Cell(1, Block(4, &[Inner::Text("a bcd efgh ijk l")]));

/// So it is over two rows.
const LONG_OF_TWO_ROWS: Cell<'static> = Cell(2, Block(1, &[Inner::Text("v w x y z")]));

/// A character of two columns, and room for it.
const WIDE: Cell<'static> = Cell(1, Block(2, &[Inner::Text("漢")]));

/// It has no room for its text.
const NARROW: Cell<'static> = Cell(1, Block(1, &[Inner::Text("漢")]));

/// Where lines are padded, there is no memory for a line of its own.
const HUGE: Cell<'static> = Cell(1, Block(usize::MAX, &[Inner::Text("a")]));

const ROW: Example = Example {
    name: "a vertical line is between cells, and a border below, which is plain where none is above",
    told: Told::Nothing,
    width: 9,
    calls: &[Row(&[A, B], false)],
    expected: &[Lines("a│b\n───\n")],
};

const EXAMPLES: &[Example] = &[
    ROW,
    Example {
        name: "without drawn borders a space is between cells, and nothing below",
        told: Told::NoBorders,
        expected: &[Lines("a b\n")],
        ..ROW
    },
    Example {
        name: "a cell is filled by the widths of its characters",
        calls: &[Row(&[WIDE, B], false)],
        expected: &[
            Lines("漢│b\n────\n"),
            LinesUnder(Under::OneColumnEach, "漢 │b\n────\n"),
            LinesUnder(Under::OddOneColumnEach, "漢 │b\n────\n"),
        ],
        ..ROW
    },
    Example {
        name: "cells are aligned, each for itself",
        calls: &[AlignedRow(
            &[
                Cell(1, Block(3, &[Inner::Text("l")])),
                Cell(1, Block(3, &[Inner::Text("c")])),
                Cell(1, Block(3, &[Inner::Text("r")])),
            ],
            &[CellAlign::Left, CellAlign::Centre, CellAlign::Right],
        )],
        expected: &[
            Lines("l  │ c │  r\n───────────\n"),
            LinesUnder(Under::OneColumnEach, "l  │ c │  r\n───────────\n"),
        ],
        ..ROW
    },
    Example {
        name: "the borders above and below a row join its vertical lines",
        calls: &[BorderWidth(3), Row(&[A, B], false)],
        expected: &[Lines("─┬─\na│b\n─┴─\n")],
        ..ROW
    },
    Example {
        name: "a cell of two rows shows a line in the border between them",
        calls: &[
            BorderWidth(3),
            Row(&[OF_TWO_ROWS, A], false),
            Row(&[EMPTY, B], false),
        ],
        expected: &[
            Lines("─┬─\nx│a\ny├─\nz│b\n─┴─\n"),
            LinesUnder(Under::OneColumnEach, "─┬─\nx│a\ny├─\nz│b\n─┴─\n"),
        ],
        ..ROW
    },
    Example {
        name: "each line of a long cell is aligned",
        width: 14,
        calls: &[AlignedRow(
            &[LONG, LONG, LONG],
            &[CellAlign::Left, CellAlign::Centre, CellAlign::Right],
        )],
        expected: &[Lines(
            "a   │ a  │   a\nbcd │bcd │ bcd\nefgh│efgh│efgh\nijk │ijk │ ijk\nl   │ l  │   l\n──────────────\n",
        )],
        ..ROW
    },
    Example {
        name: "a long cell of two rows shows the line after those of the first in the border between them",
        calls: &[
            BorderWidth(3),
            Row(&[LONG_OF_TWO_ROWS, A], false),
            Row(&[EMPTY, B], false),
        ],
        expected: &[Lines("─┬─\nv│a\nw│ \nx├─\ny│b\nz│ \n─┴─\n")],
        ..ROW
    },
    Example {
        name: "the open line is ended before a row",
        calls: &[Text("x"), Row(&[A, B], false)],
        expected: &[Lines("x\na│b\n───\n")],
        ..ROW
    },
    Example {
        name: "texts keep their annotations, and what is drawn has those of the row",
        calls: &[
            Opens(Opening::Emphasis),
            Row(
                &[Cell(1, Block(1, &[Inner::Strong, Inner::Text("a")])), B],
                false,
            ),
        ],
        expected: &[Pieces(Under::Rich, "a:[Emphasis, Strong] │b:[Emphasis] \n───\n")],
        ..ROW
    },
    Example {
        name: "a marker that waits goes to the first line of a row",
        calls: &[Marker("x"), Row(&[A, B], false)],
        expected: &[Markers("<x>a│b\n───\n")],
        ..ROW
    },
    Example {
        name: "a marker of a cell is before the cell's text",
        calls: &[Row(
            &[
                A,
                Cell(1, Block(1, &[Inner::Marker("y"), Inner::Text("b")])),
            ],
            false,
        )],
        expected: &[Markers("a│<y>b\n───\n")],
        ..ROW
    },
    Example {
        name: "a row and its border are padded to the renderer's width",
        told: Told::Padding,
        width: 6,
        expected: &[Lines("a│b   \n───   \n")],
        ..ROW
    },
    Example {
        name: "a row passes on that a cell is too narrow",
        calls: &[Row(&[A, NARROW], false)],
        expected: &[
            Refused(Error::TooNarrow),
            LinesUnder(Under::OneColumnEach, "a│漢\n───\n"),
        ],
        ..ROW
    },
    Example {
        name: "of two cells that refuse the first counts, here a narrow one",
        told: Told::Padding,
        calls: &[Row(&[A, NARROW, HUGE], false)],
        expected: &[Refused(Error::TooNarrow)],
        ..ROW
    },
    Example {
        name: "of two cells that refuse the first counts, here one without memory",
        told: Told::Padding,
        calls: &[Row(&[A, HUGE, NARROW], false)],
        expected: &[Refused(Error::OutOfMemory)],
        ..ROW
    },
];

#[test]
fn cells_stand_side_by_side(rt: HostRuntime) {
    meet_all(&rt, rt.alloc(), EXAMPLES);
}
