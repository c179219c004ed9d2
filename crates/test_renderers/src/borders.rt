//! Worked examples of borders.
use crate::expected::Expected::{Lines, LinesUnder, Markers, Pieces, Refused};
use crate::expected::{Example, meet_all};
use tbr_lines::Error;
use test_calls::calls::Call::{
    Border, BorderWidth, EmptyLine, Ends, Marker, Opens, StartBlock, Text,
};
use test_calls::calls::{End, Opening};
use test_calls::told::{Told, Under};

const FOUR_COLUMNS: Example = Example {
    name: "a border has the renderer's width",
    told: Told::Nothing,
    width: 4,
    calls: &[Border],
    expected: &[Lines("────\n")],
};

/// In six columns, with blocks of five.
const PADDED: Example = Example {
    name: "a border is filled where lines are padded",
    told: Told::Padding,
    width: 6,
    calls: &[BorderWidth(3)],
    expected: &[Lines("───   \n")],
};

const EXAMPLES: &[Example] = &[
    FOUR_COLUMNS,
    Example {
        name: "a border ends the open line",
        calls: &[Text("a"), Border, Text("b")],
        expected: &[Lines("a\n────\nb\n")],
        ..FOUR_COLUMNS
    },
    Example {
        name: "a border has the width that is given, also a greater one or none",
        calls: &[BorderWidth(2), BorderWidth(6), BorderWidth(0)],
        expected: &[Lines("──\n──────\n\n")],
        ..FOUR_COLUMNS
    },
    Example {
        name: "a border is drawn where those of rows are not",
        told: Told::NoBorders,
        ..FOUR_COLUMNS
    },
    Example {
        name: "a marker waits across a border",
        calls: &[Marker("x"), Border, Text("a")],
        expected: &[Markers("────\n<x>a\n")],
        ..FOUR_COLUMNS
    },
    Example {
        name: "a marker after a text waits across two, for an empty line",
        calls: &[Text("a "), Marker("x"), Border, Border, EmptyLine],
        expected: &[Markers("a\n────\n────\n<x>\n")],
        ..FOUR_COLUMNS
    },
    Example {
        name: "a marker after the last border is dropped",
        calls: &[Marker("x"), Border],
        expected: &[Markers("────\n")],
        ..FOUR_COLUMNS
    },
    Example {
        name: "a border is content, also one without cells",
        calls: &[BorderWidth(0), StartBlock, Border, StartBlock, Text("a")],
        expected: &[Lines("\n\n────\n\na\n")],
        ..FOUR_COLUMNS
    },
    Example {
        name: "a border begins no block",
        calls: &[Text("a"), Ends(End::Block), Border, Text("b")],
        expected: &[Lines("a\n────\n\nb\n")],
        ..FOUR_COLUMNS
    },
    Example {
        name: "a border passes on the refusal of the open line",
        width: 1,
        calls: &[Text("漢"), Border],
        expected: &[
            Refused(Error::TooNarrow),
            LinesUnder(Under::OneColumnEach, "漢\n─\n"),
        ],
        ..FOUR_COLUMNS
    },
    Example {
        name: "a border that takes more columns than there is memory",
        calls: &[BorderWidth(usize::MAX)],
        expected: &[Refused(Error::OutOfMemory)],
        ..FOUR_COLUMNS
    },
    PADDED,
    Example {
        name: "a border that is wider than its line is not cut",
        calls: &[BorderWidth(8), BorderWidth(0)],
        expected: &[Lines("────────\n      \n")],
        ..PADDED
    },
    Example {
        name: "a border that becomes text is under the annotations, as its filling does",
        calls: &[Border, Opens(Opening::Emphasis), BorderWidth(3)],
        expected: &[Pieces(Under::Rich, "──────:[] \n───   :[Emphasis] \n")],
        ..PADDED
    },
    Example {
        name: "a marker waits across a border that becomes text",
        calls: &[Marker("x"), Border, Text("a")],
        expected: &[Markers("──────\n<x>a     \n")],
        ..PADDED
    },
    Example {
        name: "a border that becomes text is content",
        calls: &[Border, StartBlock, Text("a")],
        expected: &[Lines("──────\n      \na     \n")],
        ..PADDED
    },
];

#[test]
fn borders_stand_between_lines(rt: HostRuntime) {
    meet_all(&rt, rt.alloc(), EXAMPLES);
}
