//! Worked examples of blocks and line breaks.
use crate::expected::Expected::Lines;
use crate::expected::{Example, meet_all};
use tbr_lines::WhiteSpace;
use test_calls::calls::Call::{
    EmptyLine, Ends, HardLine, Line, Mode, StartBlock, StartTable, Text,
};
use test_calls::calls::End;
use test_calls::told::Told;

const EXAMPLES: &[Example] = &[
    Example {
        name: "a block ends, and white space after it is ignored",
        told: Told::Nothing,
        width: 5,
        calls: &[
            Text("a"),
            Ends(End::Block),
            Text("  "),
            Text("\u{a0}"),
            Text(""),
            Text("b"),
        ],
        expected: &[Lines("a\n\nb\n")],
    },
    Example {
        name: "preserved white space after a block is not ignored",
        told: Told::Nothing,
        width: 5,
        calls: &[
            Text("a"),
            Ends(End::Block),
            Mode(WhiteSpace::Pre),
            Text("  "),
            Text("b"),
        ],
        expected: &[Lines("a\n\n  b\n")],
    },
    Example {
        name: "a block begins after an empty line where any line has content",
        told: Told::Nothing,
        width: 5,
        calls: &[StartBlock, Text("a"), StartBlock, StartTable, Text("b")],
        expected: &[Lines("a\n\n\nb\n")],
    },
    Example {
        name: "an empty line is no content",
        told: Told::Nothing,
        width: 5,
        calls: &[EmptyLine, StartBlock, Text("a")],
        expected: &[Lines("\na\n")],
    },
    Example {
        name: "hard lines leave an empty line",
        told: Told::Nothing,
        width: 5,
        calls: &[Text("a"), HardLine, HardLine, Text("b")],
        expected: &[Lines("a\n\nb\n")],
    },
    Example {
        name: "ends of lines leave no empty line",
        told: Told::Nothing,
        width: 5,
        calls: &[Text("a"), Line, Line, Text("b")],
        expected: &[Lines("a\nb\n")],
    },
];

#[test]
fn blocks_and_lines_end(rt: HostRuntime) {
    meet_all(&rt, rt.alloc(), EXAMPLES);
}
