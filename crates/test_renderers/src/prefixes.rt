//! Worked examples of prefixes, and of the columns that are left after them.
use crate::compared::shows;
use std::alloc::Global;
use std::process::Abort;
use tbr_decor::{PlainDecorator, RichDecorator, TextDecorator, TrivialDecorator};
use tbr_lines::{CharWidth, Error};
use tbr_renderer::{Renderer, SubRenderer};
use test_calls::told::{Told, options, plain};

fn append(all: &mut String, prefix: Result<String, Error>) -> Result<(), Error> {
    all.push('|')?;
    all.push_str(prefix?.as_str())?;
    Ok(())
}

/// The prefixes of a header, a quote, an item and the item -1, with bars between.
fn prefixes<D: TextDecorator, W: CharWidth>(
    r: &mut SubRenderer<D, W>,
    level: usize,
) -> Result<String, Error> {
    let mut all = r.header_prefix(level)?;
    append(&mut all, r.quote_prefix())?;
    append(&mut all, r.unordered_item_prefix())?;
    append(&mut all, r.ordered_item_prefix(-1))?;
    Ok(all)
}

/// These prefixes, where a prefix that is refused isn't kept.
pub fn prefixes_of<D: TextDecorator, W: CharWidth>(
    rt: &impl Abort,
    r: &mut SubRenderer<D, W>,
    level: usize,
) -> Result<String, Error> {
    let before = r.failure();
    let shown = prefixes(r, level);
    assert!(rt; r.failure() == before);
    shown
}

/// A prefix that passes every size is refused, and that isn't kept.
fn refuses_greatest_header<D: TextDecorator, W: CharWidth>(
    rt: &impl Abort,
    r: &mut SubRenderer<D, W>,
) {
    assert!(rt; r.header_prefix(usize::MAX).err() == Some(Error::OutOfMemory));
    assert!(rt; r.failure().is_none());
}

/// The prefixes under a decorator, after a refusal or not.
pub fn prefixes_under<D: TextDecorator>(
    rt: &impl Abort,
    alloc: Global,
    decorator: D,
    after_refusal: bool,
    level: usize,
) -> Result<String, Error> {
    let mut r: SubRenderer<D> = SubRenderer::new(alloc, 9, options(Told::Nothing), decorator);
    if after_refusal {
        refuses_greatest_header(rt, &mut r);
    }
    prefixes_of(rt, &mut r, level)
}

#[test]
fn prefixes_are_those_of_the_decorator(rt: HostRuntime) {
    let alloc = rt.alloc();
    let trivial = prefixes_under(&rt, alloc, TrivialDecorator::new(), false, 3);
    shows(&rt, trivial, "|||");
    let rich = prefixes_under(&rt, alloc, RichDecorator::new(), false, 3);
    shows(&rt, rich, "### |> |* |-1. ");
    let without_level = prefixes_under(&rt, alloc, RichDecorator::new(), false, 0);
    shows(&rt, without_level, " |> |* |-1. ");
    for after_refusal in [false, true] {
        let plain = prefixes_under(&rt, alloc, PlainDecorator::new(), after_refusal, 3);
        shows(&rt, plain, "### |> |* |-1. ");
    }
}

/// What is left of five columns after a prefix, where a least width is asked for. `None` is a refusal.
fn left(alloc: Global, told: Told, prefix: usize, least: usize) -> Option<usize> {
    plain(alloc, 5, told).width_minus(prefix, least).ok()
}

/// The columns of a prefix, the least width, and what is left where lines may not be wider, and where they may.
const LEFT: &[(usize, usize, Option<usize>, usize)] = &[
    (3, 4, None, 4),
    (1, 4, Some(4), 4),
    (1, 3, Some(4), 4),
    (0, 5, Some(5), 5),
    (0, 6, None, 6),
    (5, 0, Some(0), 0),
    (9, 0, Some(0), 0),
    (9, 1, None, 1),
];

#[test]
fn columns_are_left_after_a_prefix(rt: HostRuntime) {
    let alloc = rt.alloc();
    for &(prefix, least, narrow, wide) in LEFT {
        let seen = left(alloc, Told::Nothing, prefix, least);
        assert!(rt; seen == narrow, "{least} after {prefix}");
        let seen = left(alloc, Told::Overflow, prefix, least);
        assert!(rt; seen == Some(wide), "{least} after {prefix}, or wider");
    }
}
