//! Widths by hand, with memory that may run out: `tools/refused --test` refuses each request of these tests in turn.
use crate::{CellNeed, Columns};
use std::alloc::{AllocError, Global};
use std::process::Abort;

/// A cell by its first column, how many it spans, its longest word and its widest line.
type Cell = (usize, usize, usize, usize);

/// The widths of this many columns with lines between them and these cells. A cell that can't be added is left out.
fn widths_of(
    alloc: Global,
    count: usize,
    cells: &[Cell],
    room: usize,
) -> Result<Option<Vec<usize>>, AllocError> {
    let mut columns = Columns::new(alloc, count, 1);
    for (column, span, least, greatest) in cells {
        let cell = CellNeed {
            column: *column,
            span: *span,
            least: *least,
            greatest: *greatest,
        };
        if columns.can_hold(cell) {
            columns.need(cell)?;
        }
    }
    columns.widths(room)
}

/// The widths are these, unless memory runs out.
fn are(rt: &impl Abort, found: Result<Option<Vec<usize>>, AllocError>, wanted: Option<&[usize]>) {
    match (found, wanted) {
        (Ok(Some(widths)), Some(wanted)) => assert!(rt; widths.as_slice() == wanted),
        (Ok(found), wanted) => assert!(rt; found.is_none() && wanted.is_none()),
        (Err(AllocError), _) => {}
    }
}

const PRICES: &[Cell] = &[(0, 1, 6, 12), (1, 1, 5, 5), (2, 1, 8, 40)];

const HEADED: &[Cell] = &[(0, 2, 12, 20), (0, 1, 3, 4), (1, 1, 3, 4)];

const HUGE: &[Cell] = &[(0, 1, 1, usize::MAX), (1, 1, 1, usize::MAX)];

#[test]
fn widths_by_hand_or_no_memory(rt: HostRuntime) {
    are(
        &rt,
        widths_of(rt.alloc(), 3, PRICES, 80),
        Some(&[12, 5, 40]),
    );
    are(&rt, widths_of(rt.alloc(), 3, PRICES, 41), Some(&[9, 5, 25]));
    are(&rt, widths_of(rt.alloc(), 3, PRICES, 20), None);
    are(&rt, widths_of(rt.alloc(), 2, HEADED, 16), Some(&[8, 7]));
    are(
        &rt,
        widths_of(
            rt.alloc(),
            2,
            &[(0, 0, 9, 9), (2, 1, 9, 9), (0, 3, 9, 9)],
            9,
        ),
        Some(&[1, 1]),
    );
    are(&rt, widths_of(rt.alloc(), 2, HUGE, 21), Some(&[10, 10]));
    are(
        &rt,
        widths_of(rt.alloc(), 2, &[(0, 1, usize::MAX, 1)], usize::MAX),
        None,
    );
}
