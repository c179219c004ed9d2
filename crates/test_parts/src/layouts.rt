//! Worked layouts.
use crate::compared::holds;
use crate::short_texts::entries;
use std::alloc::{AllocError, Global};
use std::process::Abort;
use std::test::Fail;
use tbr_model::{Entry, best_layout, is_legal, slots};
use test_support::columns::EveryOne;

/// Whether the cuts are a legal layout of the text at the width.
fn judged(alloc: Global, width: usize, text: &str, cuts: &[usize]) -> Result<bool, AllocError> {
    let run = entries(alloc, text)?;
    is_legal_run(alloc, width, &run, cuts)
}

fn is_legal_run(
    alloc: Global,
    width: usize,
    run: &[Entry<u8>],
    cuts: &[usize],
) -> Result<bool, AllocError> {
    let slots = slots::<u8, EveryOne>(alloc, run, width)?;
    Ok(is_legal(width, &slots, cuts))
}

/// Whether the cuts are the best layout of the text at the width.
fn is_best(alloc: Global, width: usize, text: &str, cuts: &[usize]) -> Result<bool, AllocError> {
    let run = entries(alloc, text)?;
    Ok(match best_layout::<u8, EveryOne>(alloc, &run, width)? {
        Some(best) => best.as_slice() == cuts,
        None => false,
    })
}

/// How many items a layout has placed after so many lines: all of them once its lines are used up.
fn placed(cuts: &[usize], lines: usize) -> usize {
    match cuts.get(lines) {
        Some(cut) => *cut,
        None => cuts.last().copied().unwrap_or(0),
    }
}

/// Whether a layout has placed at least as much as another after any number of lines.
fn is_ahead(cuts: &[usize], others: &[usize]) -> bool {
    for lines in 0..cuts.len().max(others.len()) {
        if placed(cuts, lines) < placed(others, lines) {
            return false;
        }
    }
    true
}

/// Cuts of a text at a width.
struct Layouts {
    name: &'static str,
    width: usize,
    text: &'static str,
    /// Each of them is legal.
    legal: &'static [&'static [usize]],
    /// They are the best.
    best: &'static [usize],
}

const LAYOUTS: &[Layouts] = &[
    Layouts {
        name: "a longer first line is ahead",
        width: 4,
        text: "Hello there boo",
        legal: &[&[0, 4, 5, 9, 10, 13], &[0, 2, 5, 9, 10, 13]],
        best: &[0, 4, 5, 9, 10, 13],
    },
    Layouts {
        name: "a line is filled with words",
        width: 10,
        text: "aaa bb cc ddddd",
        legal: &[&[0, 7, 12], &[0, 5, 12]],
        best: &[0, 7, 12],
    },
    Layouts {
        name: "a wider word is cut anywhere",
        width: 6,
        text: "abcdefgh ij",
        legal: &[&[0, 6, 10], &[0, 3, 8, 10]],
        best: &[0, 6, 10],
    },
    Layouts {
        name: "white space has a layout in no column",
        width: 0,
        text: " ",
        legal: &[],
        best: &[0],
    },
    Layouts {
        name: "the best layout of eighty characters has three lines",
        width: 40,
        text: "The quick brown fox jumps over the lazy dog, and the dog sleeps on as it was: ok",
        legal: &[],
        best: &[0, 32, 63],
    },
];

fn are_legal(rt: &impl Abort, alloc: Global, layouts: &Layouts) {
    for cuts in layouts.legal {
        let is_legal = judged(alloc, layouts.width, layouts.text, *cuts);
        holds(rt, layouts.name, is_legal);
    }
}

#[test]
fn worked_layouts_are_legal_and_the_best(rt: HostRuntime) {
    let alloc = rt.alloc();
    for layouts in LAYOUTS {
        are_legal(&rt, alloc, layouts);
        let is_best = is_best(alloc, layouts.width, layouts.text, layouts.best);
        holds(&rt, layouts.name, is_best);
    }
}

/// The best layout is ahead of each legal one, and of these only itself is ahead of it.
fn no_rival_is_ahead(rt: &impl Abort, layouts: &Layouts) {
    for cuts in layouts.legal {
        let rival = *cuts;
        let is_best = rival == layouts.best;
        assert!(rt; is_ahead(layouts.best, rival), "{}", layouts.name);
        assert!(rt;
            is_best || !is_ahead(rival, layouts.best),
            "{}",
            layouts.name
        );
    }
}

#[test]
fn the_best_layout_is_ahead_of_its_rivals(rt: HostRuntime) {
    for layouts in LAYOUTS {
        no_rival_is_ahead(&rt, layouts);
    }
}

#[test]
fn a_wider_word_begins_a_line(rt: HostRuntime) -> Result<(), Fail> {
    let alloc = rt.alloc();
    assert!(rt; !judged(alloc, 4, "o there", &[0, 3, 6])?);
    Ok(())
}

#[test]
fn an_item_wider_than_the_line_has_no_layout(rt: HostRuntime) -> Result<(), Fail> {
    let alloc = rt.alloc();
    let run = entries(alloc, "a")?;
    assert!(rt; best_layout::<u8, EveryOne>(alloc, &run, 0)?.is_none());
    Ok(())
}
