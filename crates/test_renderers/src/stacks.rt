//! Worked examples of renderers on a stack, by calls on them.
ghost use Rattle.std.specs.Prelude.{◌<◌};

use std::alloc::Global;
use std::iter;
use std::process::Abort;
use std::test::Fail;
use tbr_decor::PlainDecorator;
use tbr_lines::Error;
use tbr_renderer::{RenderOptions, Renderer, SubRenderer};
use tbr_stack::TextRenderer;

/// A call on a stack.
#[derive(Clone, Copy)]
enum Call<'a> {
    Text(&'a str),
    Link(&'a str),
    EndLink,
    /// Pushes a renderer of some columns for a block inside.
    Push(usize),
    /// Pops a renderer, and appends its lines without prefixes to the one below.
    Append,
    /// Pops a renderer, which is dropped.
    Drop,
}

use Call::{Append, Drop, EndLink, Link, Push, Text};

/// Calls on a stack of one renderer, and what they leave.
struct Example<'a> {
    name: &'a str,
    footnotes: bool,
    width: usize,
    calls: &'a [Call<'a>],
    text: &'a str,
    targets: &'a str,
    /// How many links are open in the top.
    open: usize,
}

const NESTED: Example<'static> = Example {
    name: "links inside one another have the numbers of their own targets",
    footnotes: true,
    width: 20,
    calls: &[Link("a"), Text("x"), Link("b"), Text("y"), EndLink, EndLink],
    text: "[x[y][2]][1]\n",
    targets: "a b ",
    open: 0,
};

const EXAMPLES: &[Example<'static>] = &[
    NESTED,
    Example {
        name: "links after one another",
        calls: &[Link("a"), Text("x"), EndLink, Link("b"), Text("y"), EndLink],
        text: "[x][1][y][2]\n",
        ..NESTED
    },
    Example {
        name: "without footnotes no number comes, and the targets are kept",
        footnotes: false,
        text: "[x[y]]\n",
        ..NESTED
    },
    Example {
        name: "a link goes on after a block inside, whose own links are forgotten",
        calls: &[Link("a"), Push(9), Link("b"), Text("y"), Append, EndLink],
        text: "[\n[y\n][1]\n",
        ..NESTED
    },
    Example {
        name: "a block inside begins without open links",
        calls: &[Link("a"), Push(9), Text("y"), EndLink, Append],
        text: "[\ny]\n",
        targets: "a ",
        open: 1,
        ..NESTED
    },
    Example {
        name: "numbers count the targets of all blocks",
        calls: &[
            Push(9),
            Link("a"),
            Text("x"),
            EndLink,
            Drop,
            Link("b"),
            Text("y"),
            EndLink,
        ],
        text: "[y][2]\n",
        ..NESTED
    },
    Example {
        name: "an end without a link has no number",
        width: 9,
        calls: &[EndLink],
        text: "]\n",
        targets: "",
        ..NESTED
    },
    Example {
        name: "links that are open are counted in the top",
        calls: &[Link("a"), Link("b"), Push(9), Link("c")],
        text: "[[\n",
        targets: "a b c ",
        open: 1,
        ..NESTED
    },
];

/// A stack of one renderer, without calls.
fn stack(
    alloc: Global,
    width: usize,
    footnotes: bool,
) -> Result<TextRenderer<PlainDecorator>, Error>
    requires { 0 < width }
{
    let options = RenderOptions {
        include_link_footnotes: footnotes,
        ..RenderOptions::default()
    };
    TextRenderer::new(
        alloc,
        SubRenderer::new(alloc, width, options, PlainDecorator::new()),
    )
}

/// Pushes a renderer for a block inside.
fn push(
    rt: &impl Abort,
    stack: &mut TextRenderer<PlainDecorator>,
    width: usize,
) -> Result<(), Error> {
    assert!(rt; 0 < stack.depth() && 0 < width);
    let inside = stack.top().new_sub_renderer(width)?;
    stack.push(inside)
}

/// Takes the top.
fn pop(rt: &impl Abort, stack: &mut TextRenderer<PlainDecorator>) -> SubRenderer<PlainDecorator> {
    assert!(rt; 0 < stack.depth());
    stack.pop()
}

/// Takes the top, and appends its lines to the renderer below.
fn append(rt: &impl Abort, stack: &mut TextRenderer<PlainDecorator>) -> Result<(), Error> {
    let inside = pop(rt, stack);
    assert!(rt; 0 < stack.depth());
    stack.top_mut().append_subrender(inside, iter::repeat(""))
}

fn make(
    rt: &impl Abort,
    stack: &mut TextRenderer<PlainDecorator>,
    call: Call<'_>,
) -> Result<(), Error> {
    assert!(rt; 0 < stack.depth());
    match call {
        Text(text) => stack.top_mut().add_inline_text(text),
        Link(target) => stack.start_link(target),
        EndLink => stack.end_link(),
        Push(width) => push(rt, stack, width),
        Append => append(rt, stack),
        Drop => {
            let _ = pop(rt, stack);
            Ok(())
        }
    }
}

/// The stack after an example's calls.
fn after(
    rt: &impl Abort,
    alloc: Global,
    example: &Example<'_>,
) -> Result<TextRenderer<PlainDecorator>, Error> {
    assert!(rt; 0 < example.width);
    let mut stack = stack(alloc, example.width, example.footnotes)?;
    for call in example.calls {
        make(rt, &mut stack, *call)?;
    }
    Ok(stack)
}

/// How many links are open in the top.
fn open_links(rt: &impl Abort, stack: &TextRenderer<PlainDecorator>) -> usize {
    assert!(rt; 0 < stack.depth());
    stack.open_links()
}

/// The targets, each with a space after it.
fn targets_of(alloc: Global, links: &Vec<String>) -> Result<String, Error> {
    let mut targets = String::new(alloc);
    for link in links {
        targets.push_str(link.as_str())?;
        targets.push(' ')?;
    }
    Ok(targets)
}

/// The lowest renderer and the targets; the renderers above are dropped.
fn taken_apart(
    rt: &impl Abort,
    mut stack: TextRenderer<PlainDecorator>,
) -> (SubRenderer<PlainDecorator>, Vec<String>) {
    for _ in 1..stack.depth() {
        let _ = pop(rt, &mut stack);
    }
    assert!(rt; stack.depth() == 1);
    stack.into_inner()
}

/// The example leaves what is expected.
fn meets(rt: &impl Abort, alloc: Global, example: &Example<'_>) -> Result<(), Error> {
    let stack = after(rt, alloc, example)?;
    assert_eq!(rt; open_links(rt, &stack), example.open, "{}", example.name);
    let (renderer, links) = taken_apart(rt, stack);
    assert_eq!(rt;
        renderer.into_string()?.as_str(),
        example.text,
        "{}",
        example.name
    );
    assert_eq!(rt;
        targets_of(alloc, &links)?.as_str(),
        example.targets,
        "{}",
        example.name
    );
    Ok(())
}

#[test]
fn links_have_the_numbers_of_their_targets(rt: HostRuntime) -> Result<(), Fail> {
    for example in EXAMPLES {
        meets(&rt, rt.alloc(), example)?;
    }
    Ok(())
}

#[test]
fn a_stack_has_a_depth_and_a_depth_of_tables(rt: HostRuntime) -> Result<(), Fail> {
    let mut stack = stack(rt.alloc(), 9, false)?;
    assert!(rt; (stack.depth(), stack.table_depth) == (1, 0));
    stack.table_depth += 1;
    push(&rt, &mut stack, 5)?;
    assert!(rt; (stack.depth(), stack.table_depth) == (2, 1));
    assert!(rt; 0 < stack.depth());
    assert_eq!(rt; stack.top().width(), 5);
    let _ = pop(&rt, &mut stack);
    let _ = pop(&rt, &mut stack);
    assert_eq!(rt; stack.depth(), 0);
    Ok(())
}

/// A stack of one column whose top has failed: its text is too narrow.
fn failed(rt: &impl Abort, alloc: Global) -> Result<TextRenderer<PlainDecorator>, Error> {
    let mut stack = stack(alloc, 1, true)?;
    make(rt, &mut stack, Link("a"))?;
    make(rt, &mut stack, Text("漢"))?;
    assert!(rt; 0 < stack.depth());
    assert!(rt; stack.top_mut().new_line() == Err(Error::TooNarrow));
    Ok(stack)
}

#[test]
fn a_top_that_has_failed_starts_and_ends_no_link(rt: HostRuntime) -> Result<(), Fail> {
    let mut stack = failed(&rt, rt.alloc())?;
    for call in [Link("t"), EndLink] {
        assert!(rt; make(&rt, &mut stack, call) == Err(Error::TooNarrow));
    }
    assert_eq!(rt; open_links(&rt, &stack), 1);
    let (_, links) = taken_apart(&rt, stack);
    assert_eq!(rt; targets_of(rt.alloc(), &links)?.as_str(), "a ");
    Ok(())
}

#[test]
fn a_link_that_the_top_refuses_to_begin_is_open(rt: HostRuntime) -> Result<(), Fail> {
    let mut stack = stack(rt.alloc(), 1, true)?;
    make(&rt, &mut stack, Text("漢"))?;
    assert!(rt; 0 < stack.depth());
    stack.top_mut().end_block();
    assert!(rt; make(&rt, &mut stack, Link("t")) == Err(Error::TooNarrow));
    assert_eq!(rt; open_links(&rt, &stack), 1);
    let (_, links) = taken_apart(&rt, stack);
    assert_eq!(rt; targets_of(rt.alloc(), &links)?.as_str(), "t ");
    Ok(())
}

/// Pushes a renderer, or memory is refused and nothing changes.
fn pushes_or_refuses(rt: &impl Abort, stack: &mut TextRenderer<PlainDecorator>) {
    let depth = stack.depth();
    match push(rt, stack, 5) {
        Ok(()) => assert!(rt; stack.depth() == depth.saturating_add(1)),
        Err(error) => assert!(rt; error == Error::OutOfMemory && stack.depth() == depth),
    }
}

/// How many links are open in the top, and its refusal.
fn top_of(rt: &impl Abort, stack: &TextRenderer<PlainDecorator>) -> (usize, Option<Error>) {
    assert!(rt; 0 < stack.depth());
    (stack.open_links(), stack.top().failure())
}

/// Makes a call, or memory is refused for good.
fn answers_or_fails(
    rt: &impl Abort,
    stack: &mut TextRenderer<PlainDecorator>,
    call: Call<'_>,
    open: usize,
) {
    match make(rt, stack, call) {
        Ok(()) => assert!(rt; top_of(rt, stack) == (open, None)),
        Err(error) => {
            assert!(rt; error == Error::OutOfMemory);
            let left = top_of(rt, stack);
            assert!(rt; left.1 == Some(error) && make(rt, stack, call) == Err(error));
            assert!(rt; top_of(rt, stack) == left);
        }
    }
}

#[test]
fn a_stack_without_memory_keeps_what_it_has(rt: HostRuntime) {
    let Ok(mut stack) = stack(rt.alloc(), 9, true) else {
        return;
    };
    pushes_or_refuses(&rt, &mut stack);
    for call in [Link("a"), Text("x")] {
        answers_or_fails(&rt, &mut stack, call, 1);
    }
    answers_or_fails(&rt, &mut stack, EndLink, 0);
}
