//! Worked examples of fragment markers.
use crate::expected::Expected::Markers;
use crate::expected::{Example, meet_all};
use tbr_lines::WhiteSpace;
use test_calls::calls::Call::{EmptyLine, Line, Marker, Mode, StartBlock, Text};
use test_calls::told::Told;

const EXAMPLES: &[Example] = &[
    Example {
        name: "a marker goes where its word goes",
        told: Told::Nothing,
        width: 3,
        calls: &[Text("ab "), Marker("x"), Text("cde")],
        expected: &[Markers("ab\n<x>cde\n")],
    },
    Example {
        name: "where the word is cut it stays after the character before",
        told: Told::Nothing,
        width: 3,
        calls: &[Text("abc"), Marker("x"), Text("def")],
        expected: &[Markers("abc<x>\ndef\n")],
    },
    Example {
        name: "a marker waits for the next line",
        told: Told::Nothing,
        width: 9,
        calls: &[Text("ab "), Marker("x"), Line, Text("cd")],
        expected: &[Markers("ab\n<x>cd\n")],
    },
    Example {
        name: "an empty line with a marker is a line, but has no content",
        told: Told::Nothing,
        width: 9,
        calls: &[Marker("x"), EmptyLine, StartBlock, Text("a")],
        expected: &[Markers("<x>\na\n")],
    },
    Example {
        name: "markers that wait are before those of the line",
        told: Told::Nothing,
        width: 9,
        calls: &[Marker("x"), Line, Marker("y"), Text("a")],
        expected: &[Markers("<x><y>a\n")],
    },
    Example {
        name: "a newline leaves a marker to the next word",
        told: Told::Nothing,
        width: 9,
        calls: &[Mode(WhiteSpace::Pre), Marker("x"), Text("\na")],
        expected: &[Markers("\n<x>a\n")],
    },
    Example {
        name: "a marker alone is no line",
        told: Told::Nothing,
        width: 9,
        calls: &[Marker("x")],
        expected: &[Markers("")],
    },
];

#[test]
fn markers_stand_in_lines(rt: HostRuntime) {
    meet_all(&rt, rt.alloc(), EXAMPLES);
}
