//! Worked examples of lines that are padded.
use crate::expected::Expected::{LinesUnder, Markers, Pieces};
use crate::expected::{Example, meet_all};
use test_calls::calls::Call::{EmptyLine, Line, Marker, Preformat, Text};
use test_calls::told::{Told, Under};

const EXAMPLES: &[Example] = &[
    Example {
        name: "lines are wrapped and padded",
        told: Told::Padding,
        width: 8,
        calls: &[Text("hello world")],
        expected: &[LinesUnder(Under::Plain, "hello   \nworld   \n")],
    },
    Example {
        name: "empty lines are padded after the markers that wait",
        told: Told::Padding,
        width: 8,
        calls: &[Marker("x"), EmptyLine, Text("a")],
        expected: &[Markers("<x>        \na       \n")],
    },
    Example {
        name: "padding has no annotation of the text",
        told: Told::Padding,
        width: 8,
        calls: &[Text("a"), Line, Preformat, Text("b")],
        expected: &[Pieces(
            Under::Rich,
            "a       :[] \nb:[Preformat(false)]        :[] \n",
        )],
    },
];

#[test]
fn lines_are_padded(rt: HostRuntime) {
    meet_all(&rt, rt.alloc(), EXAMPLES);
}
