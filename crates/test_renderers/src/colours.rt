//! Worked examples of colours.
use crate::expected::Expected::{Lines, Pieces};
use crate::expected::{Example, meet_all};
use tbr_decor::Colour as Paint;
use test_calls::calls::Call::{Background, Colour, Ends, Opens, Text};
use test_calls::calls::{End, Opening, RED};
use test_calls::told::{Told, Under};

const BLUE: Paint = Paint { r: 0, g: 0, b: 255 };

const EXAMPLES: &[Example] = &[
    Example {
        name: "text in a colour is under its annotation",
        told: Told::Nothing,
        width: 9,
        calls: &[Colour(RED), Text("a")],
        expected: &[Pieces(Under::Rich, "a:[Colour(Colour { r: 255, g: 0, b: 0 })] \n")],
    },
    Example {
        name: "text on a background is under its annotation",
        told: Told::Nothing,
        width: 9,
        calls: &[Background(BLUE), Text("a")],
        expected: &[Pieces(
            Under::Rich,
            "a:[BgColour(Colour { r: 0, g: 0, b: 255 })] \n",
        )],
    },
    Example {
        name: "colours end one by one",
        told: Told::Nothing,
        width: 9,
        calls: &[
            Colour(RED),
            Background(BLUE),
            Text("a"),
            Ends(End::Background),
            Text("b"),
            Ends(End::Colour),
            Text("c"),
        ],
        expected: &[
            Pieces(
                Under::Rich,
                "a:[Colour(Colour { r: 255, g: 0, b: 0 }), BgColour(Colour { r: 0, g: 0, b: 255 })] \
            b:[Colour(Colour { r: 255, g: 0, b: 0 })] c:[] \n",
            ),
            Lines("abc\n"),
        ],
    },
    Example {
        name: "the end of a colour takes the last annotation, or none under a decorator without colours",
        told: Told::Nothing,
        width: 9,
        calls: &[
            Opens(Opening::Emphasis),
            Ends(End::Colour),
            Text("a"),
            Opens(Opening::Emphasis),
            Ends(End::Background),
            Text("b"),
        ],
        expected: &[
            Pieces(Under::Rich, "ab:[] \n"),
            Pieces(Under::Marked, "a:[Marked] b:[Marked, Marked] \n"),
        ],
    },
    Example {
        name: "a decorator without colours has no annotation for them",
        told: Told::Nothing,
        width: 9,
        calls: &[Colour(RED), Background(BLUE), Text("a")],
        expected: &[Pieces(Under::Marked, "a:[] \n")],
    },
    Example {
        name: "a colour that nothing began may end",
        told: Told::Nothing,
        width: 9,
        calls: &[Ends(End::Colour), Ends(End::Background), Text("a")],
        expected: &[Lines("a\n"), Pieces(Under::Rich, "a:[] \n")],
    },
];

#[test]
fn colours_begin_and_end(rt: HostRuntime) {
    meet_all(&rt, rt.alloc(), EXAMPLES);
}
