//! Worked examples of links, emphasis and other text that a decorator opens and closes.
use crate::expected::Expected::{Lines, LinesUnder, Pieces};
use crate::expected::{Example, meet_all};
use test_calls::calls::Call::{Closes, Image, Opens, Text};
use test_calls::calls::{Closing, Opening};
use test_calls::told::{Told, Under};

const EXAMPLES: &[Example] = &[
    Example {
        name: "a link is in emphasis in strong text",
        told: Told::Nothing,
        width: 9,
        calls: &[
            Opens(Opening::Strong),
            Text("a"),
            Opens(Opening::Emphasis),
            Text("b"),
            Opens(Opening::Link("t")),
            Text("c"),
            Closes(Closing::Link),
            Text("d"),
            Closes(Closing::Emphasis),
            Text("e"),
            Closes(Closing::Strong),
            Text("f"),
        ],
        expected: &[
            Pieces(
                Under::Rich,
                "a:[Strong] b:[Strong, Emphasis] c:[Strong, Emphasis, Link(\"t\")] d:[Strong, Emphasis] \
            e:[Strong] f:[] \n",
            ),
            LinesUnder(Under::Plain, "ab[c]def\n"),
        ],
    },
    Example {
        name: "code and a superscript are in text",
        told: Told::Nothing,
        width: 20,
        calls: &[
            Text("x"),
            Opens(Opening::Code),
            Text("c"),
            Closes(Closing::Code),
            Opens(Opening::Superscript),
            Text("2"),
            Closes(Closing::Superscript),
            Text("y"),
        ],
        expected: &[
            Pieces(Under::Rich, "x:[] c:[Code] ^{2}:[Default] y:[] \n"),
            LinesUnder(Under::Plain, "xc^{2}y\n"),
        ],
    },
    Example {
        name: "every decorator shows a superscript",
        told: Told::Nothing,
        width: 20,
        calls: &[
            Text("x"),
            Opens(Opening::Superscript),
            Text("2"),
            Closes(Closing::Superscript),
        ],
        expected: &[Lines("x^{2}\n")],
    },
    Example {
        name: "an image is in emphasis",
        told: Told::Nothing,
        width: 9,
        calls: &[
            Opens(Opening::Emphasis),
            Text("a"),
            Image("s", "t"),
            Text("b"),
            Closes(Closing::Emphasis),
        ],
        expected: &[
            Pieces(
                Under::Rich,
                "a:[Emphasis] t:[Emphasis, Image(\"s\")] b:[Emphasis] \n",
            ),
            LinesUnder(Under::Plain, "a[t]b\n"),
        ],
    },
    Example {
        name: "an end that nothing began brings its text, which may be none",
        told: Told::Nothing,
        width: 9,
        calls: &[
            Closes(Closing::Emphasis),
            Closes(Closing::Strong),
            Closes(Closing::Code),
            Text("a"),
        ],
        expected: &[Lines("a\n"), Pieces(Under::Rich, "a:[] \n")],
    },
    Example {
        name: "the end of a link that nothing began brings its text",
        told: Told::Nothing,
        width: 9,
        calls: &[Closes(Closing::Link)],
        expected: &[LinesUnder(Under::Plain, "]\n")],
    },
    Example {
        name: "the end of a link that nothing began takes no annotation",
        told: Told::Nothing,
        width: 9,
        calls: &[Closes(Closing::Link), Text("a")],
        expected: &[Pieces(Under::Rich, "a:[] \n")],
    },
    Example {
        name: "the end of a superscript that nothing began brings its text",
        told: Told::Nothing,
        width: 9,
        calls: &[Closes(Closing::Superscript)],
        expected: &[Lines("}\n")],
    },
    // Around a link come a newline and U+200B, at which words end.
    Example {
        name: "a newline before a link is a space under its annotation",
        told: Told::Nothing,
        width: 9,
        calls: &[
            Text("a"),
            Opens(Opening::Link("t")),
            Text("b"),
            Closes(Closing::Link),
            Text("c"),
        ],
        expected: &[
            Pieces(Under::Odd, "a:[]  b:[Link(\"t\")] c:[] \n"),
            Pieces(Under::OddOneColumnEach, "a:[]  b:[Link(\"t\")] c:[] \n"),
        ],
    },
];

#[test]
fn decorated_text_stands_under_its_annotations(rt: HostRuntime) {
    meet_all(&rt, rt.alloc(), EXAMPLES);
}
