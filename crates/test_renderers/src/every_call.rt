//! What a renderer answers of itself.
use std::alloc::Global;
use tbr_decor::TextDecorator;
use tbr_lines::{CharWidth, Error};
use tbr_renderer::{ImageRenderMode, RenderOptions, Renderer, SubRenderer};
use test_calls::calls::Call::{
    Append, Border, BorderWidth, Closes, EmptyLine, Ends, Line, Marker, Opens, Preformat, Text,
    VertRow,
};
use test_calls::calls::{Call, Closing, End, Opening, make_all, tells};
use test_calls::inside::{Block, Inner};
use test_calls::told::{Told, UNUSUAL, plain};

/// The usual options.
const USUAL: RenderOptions = RenderOptions {
    wrap_width: None,
    allow_width_overflow: false,
    pad_block_width: false,
    raw: false,
    draw_borders: true,
    fence_tables: false,
    wrap_links: true,
    include_link_footnotes: false,
    use_unicode_strikeout: true,
    img_mode: ImageRenderMode::IgnoreEmpty,
};

fn told_options(alloc: Global, told: Told) -> RenderOptions {
    *plain(alloc, 9, told).options()
}

#[test]
fn a_renderer_has_the_options_that_it_was_made_with(rt: HostRuntime) {
    let alloc = rt.alloc();
    assert!(rt; told_options(alloc, Told::Nothing) == USUAL);
    assert!(rt; told_options(alloc, Told::Unusual) == UNUSUAL);
    assert!(rt; ImageRenderMode::default() == ImageRenderMode::IgnoreEmpty);
}

/// Calls on a renderer of nine columns, and what it tells then: whether it is empty, how many preformatted stretches
/// are open, and how many strikeouts that have strokes.
#[derive(Clone, Copy)]
struct State {
    name: &'static str,
    told: Told,
    calls: &'static [Call<'static>],
    tells: (bool, usize, usize),
}

const NEW: State = State {
    name: "a renderer without lines and characters is empty",
    told: Told::Nothing,
    calls: &[],
    tells: (true, 0, 0),
};

const STATES: &[State] = &[
    NEW,
    State {
        name: "lines without characters, markers and white space leave it empty",
        calls: &[Line, Marker("x"), Text("  ")],
        ..NEW
    },
    State {
        name: "a text does not leave it empty",
        calls: &[Text("a")],
        tells: (false, 0, 0),
        ..NEW
    },
    State {
        name: "a line does not leave it empty",
        calls: &[Text("a"), Line],
        tells: (false, 0, 0),
        ..NEW
    },
    State {
        name: "an empty line does not leave it empty",
        calls: &[EmptyLine],
        tells: (false, 0, 0),
        ..NEW
    },
    State {
        name: "a border does not leave it empty",
        calls: &[Border],
        tells: (false, 0, 0),
        ..NEW
    },
    State {
        name: "a border without columns does not either",
        calls: &[BorderWidth(0)],
        tells: (false, 0, 0),
        ..NEW
    },
    State {
        name: "lines of a renderer inside do not, if they have prefixes",
        calls: &[Append(Block(5, &[Inner::Text("a")]), "|")],
        tells: (false, 0, 0),
        ..NEW
    },
    State {
        name: "lines of a renderer inside leave it empty, if they have no prefixes",
        calls: &[Append(Block(5, &[Inner::Text("a")]), "")],
        ..NEW
    },
    State {
        name: "a vertical row does not leave it empty",
        calls: &[VertRow(&[Block(5, &[])])],
        tells: (false, 0, 0),
        ..NEW
    },
    State {
        name: "preformatted stretches are counted",
        calls: &[Preformat, Preformat],
        tells: (true, 2, 0),
        ..NEW
    },
    State {
        name: "the end of a preformatted stretch is counted",
        calls: &[Preformat, Preformat, Ends(End::Preformat)],
        tells: (true, 1, 0),
        ..NEW
    },
    State {
        name: "strikeouts are counted",
        calls: &[Opens(Opening::Strikeout), Opens(Opening::Strikeout)],
        tells: (true, 0, 2),
        ..NEW
    },
    State {
        name: "the end of a strikeout is counted",
        calls: &[
            Opens(Opening::Strikeout),
            Opens(Opening::Strikeout),
            Closes(Closing::Strikeout),
        ],
        tells: (true, 0, 1),
        ..NEW
    },
    State {
        name: "strikeouts without strokes are not counted",
        told: Told::NoStrokes,
        calls: &[Opens(Opening::Strikeout), Opens(Opening::Strikeout)],
        ..NEW
    },
    State {
        name: "without strokes the end of a strikeout is not counted either",
        told: Told::NoStrokes,
        calls: &[
            Opens(Opening::Strikeout),
            Opens(Opening::Strikeout),
            Closes(Closing::Strikeout),
        ],
        ..NEW
    },
];

/// What a renderer tells after calls.
fn tells_after<D: TextDecorator, W: CharWidth>(
    alloc: Global,
    mut r: SubRenderer<D, W>,
    calls: &[Call<'_>],
) -> (Option<Error>, bool, usize, usize, usize) {
    let _ = make_all(alloc, &mut r, calls);
    tells(&r)
}

#[test]
fn a_renderer_tells_what_it_has(rt: HostRuntime) {
    let alloc = rt.alloc();
    for state in STATES {
        let (empty, preformatted, struck) = state.tells;
        let told = tells_after(alloc, plain(alloc, 9, state.told), state.calls);
        assert!(rt;
            told == (None, empty, 9, preformatted, struck),
            "{}",
            state.name
        );
    }
}
