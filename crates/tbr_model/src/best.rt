//! The best layout of a run, found by trying its layouts.
ghost use Rattle.std.specs.Prelude.{◌+◌, ◌<◌, length, MatchOption, IfOk, IfSome};
ghost use Rattle.tbr_model.specs.Layout.{slots_of, IsBest};
ghost use Rattle.tbr_model.specs.Cuts.{HasLegalLayout, IsBestLayout, lines_between};
ghost use Rattle.tbr_model.specs.Longest.{IsLongestLine, TellsRests};
ghost use Rattle.tbr_model.specs.Entry.{entry_values};
ghost use Rattle.tbr_model.specs.Slot.{slot_values};

use crate::entry::Entry;
use crate::layout::is_legal_line;
use crate::slot::Slot;
use crate::width::CharWidth;
use crate::word::slots;
use std::alloc::{AllocError, Global};

/// Where the longest legal line of the first slots ends such that the rest has a legal layout.
///
/// `solved` says of each smaller number of last slots whether they have a legal layout.
fn longest_line<T>(width: usize, slots: &[Slot<'_, T>], solved: &[bool]) -> Option<usize>
    requires { TellsRests width (slot_values slots.now) (length slots.now) solved.now }
    ensures { MatchOption result (0 < length slots.now → ¬ HasLegalLayout width (slot_values slots.now))
        (IsLongestLine width (slot_values slots.now)) }
{
    for last in (0..slots.len()).rev() {
        let end = last + 1;
        if solved[slots.len() - end] && is_legal_line(width, &slots[..end]) {
            return Some(end);
        }
    }
    None
}

/// For each number of last slots, whether they have a legal layout.
fn solved_rests<T>(
    alloc: Global,
    width: usize,
    slots: &[Slot<'_, T>],
) -> Result<Vec<bool>, AllocError>
    ensures { IfOk result (λ solved. TellsRests width (slot_values slots.now) (length slots.now + 1) solved.items) }
{
    let mut solved = Vec::new(alloc);
    solved.push(true)?;
    for from in (0..slots.len()).rev() {
        let found = longest_line(width, &slots[from..], &solved).is_some();
        solved.push(found)?;
    }
    Ok(solved)
}

/// The cuts of the best layout of the slots, or `None` where they have no legal layout.
#[tactic(auto, using(crate::proofs::layouts::LongestLines::next_cut, crate::proofs::layouts::StoredSlots::slot_values_rest))]
fn best_cuts<T>(
    alloc: Global,
    width: usize,
    slots: &[Slot<'_, T>],
) -> Result<Option<Vec<usize>>, AllocError>
    ensures { IfOk result (λ found. MatchOption found (¬ HasLegalLayout width (slot_values slots.now))
        (λ cuts. IsBestLayout width (slot_values slots.now) cuts.items)) }
{
    let solved = solved_rests(alloc, width, slots)?;
    let mut cuts = Vec::new(alloc);
    let mut from = 0;
    cuts.push(from)?;
    while from < slots.len() {
        let Some(end) = longest_line(width, &slots[from..], &solved) else {
            return Ok(None);
        };
        from += end;
        cuts.push(from)?;
    }
    Ok(Some(cuts))
}

/// The cuts of the best layout of a run in lines of a width, in columns, or `None` where it has no legal layout.
///
/// It looks at every line between two positions of the run, so its time grows with the third power of the number of
/// items. It fails only where memory is refused.
pub fn best_layout<T, W: CharWidth>(
    alloc: Global,
    run: &[Entry<T>],
    width: usize,
) -> Result<Option<Vec<usize>>, AllocError>
    ensures cuts { let slots = slots_of W.columns width (entry_values run.now) in
        IfOk result (λ found. MatchOption found (¬ HasLegalLayout width slots)
        (λ cuts. IsBestLayout width slots cuts.items)) }
    ensures lines { let slots = slots_of W.columns width (entry_values run.now) in
        IfOk result (λ found. IfSome found (λ cuts. IsBest width slots (lines_between slots cuts.items))) }
{
    let slots = slots::<T, W>(alloc, run, width)?;
    best_cuts(alloc, width, &slots)
}
