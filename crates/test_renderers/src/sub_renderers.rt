//! Worked examples of renderers for blocks inside.
use crate::expected::compare;
use std::alloc::Global;
use std::process::Abort;
use tbr_decor::{RichDecorator, TextDecorator};
use tbr_lines::{Error, WhiteSpace};
use tbr_renderer::{Renderer, SubRenderer};
use test_calls::calls::Call::{Ends, Line, Mode, Opens, Preformat, Text};
use test_calls::calls::{Call, End, Opening, Shown, handed_out, make_all, tells};
use test_calls::told::{Told, Under, options};

/// A renderer after calls, of which the first may refuse, and the pieces of a text in one of five columns inside.
#[derive(Clone, Copy)]
struct Inside {
    name: &'static str,
    told: Told,
    width: usize,
    calls: &'static [Call<'static>],
    refusal: Option<Error>,
    then: &'static [Call<'static>],
    pieces: &'static str,
}

const EXAMPLES: &[Inside] = &[
    Inside {
        name: "a sub-renderer is under the annotations of its parent alone",
        told: Told::Nothing,
        width: 9,
        calls: &[
            Text("a"),
            Line,
            Opens(Opening::Emphasis),
            Opens(Opening::Strikeout),
            Preformat,
            Mode(WhiteSpace::Pre),
            Text(" b"),
        ],
        refusal: None,
        then: &[],
        pieces: "cd:[Emphasis, Strikeout] \nefg:[Emphasis, Strikeout] \n",
    },
    Inside {
        name: "a renderer that wasn't called has sub-renderers",
        told: Told::Nothing,
        width: 9,
        calls: &[],
        refusal: None,
        then: &[],
        pieces: "cd:[] \nefg:[] \n",
    },
    Inside {
        name: "a sub-renderer has the options of its parent",
        told: Told::Unusual,
        width: 9,
        calls: &[],
        refusal: None,
        then: &[],
        pieces: "cd   :[] \nefg  :[] \n",
    },
    Inside {
        name: "a renderer that refused has sub-renderers, and the ends of colours take nothing of it",
        told: Told::Nothing,
        width: 1,
        calls: &[Opens(Opening::Emphasis), Text("漢"), Line],
        refusal: Some(Error::TooNarrow),
        then: &[Ends(End::Colour), Ends(End::Background)],
        pieces: "cd:[Emphasis] \nefg:[Emphasis] \n",
    },
];

/// The renderer inside.
fn sub_renderer<D: TextDecorator>(
    rt: &impl Abort,
    alloc: Global,
    decorator: D,
    inside: Inside,
) -> Result<SubRenderer<D>, Error> {
    assert!(rt; 0 < inside.width);
    let mut r: SubRenderer<D> = SubRenderer::new(
        alloc,
        inside.width,
        options(inside.told),
        decorator,
    );
    let _ = make_all(alloc, &mut r, inside.calls);
    assert!(rt; r.failure() == inside.refusal, "{}", inside.name);
    let _ = make_all(alloc, &mut r, inside.then);
    r.new_sub_renderer(5)
}

/// The pieces of a text in the renderer inside, which has neither text nor depths before.
fn pieces<D: TextDecorator>(
    rt: &impl Abort,
    alloc: Global,
    decorator: D,
    inside: Inside,
) -> Result<String, Error> {
    let r = sub_renderer(rt, alloc, decorator, inside)?;
    assert!(rt; tells(&r) == (None, true, 5, 0, 0), "{}", inside.name);
    assert!(rt; *r.options() == options(inside.told), "{}", inside.name);
    handed_out(alloc, Shown::Pieces, r, &[Text("  cd efg")])
}

#[test]
fn sub_renderers_are_new_under_the_annotations_of_their_parents(rt: HostRuntime) {
    let alloc = rt.alloc();
    for inside in EXAMPLES {
        let shown = pieces(&rt, alloc, RichDecorator::new(), *inside);
        compare(&rt, inside.name, Under::Rich, shown, inside.pieces);
    }
}
