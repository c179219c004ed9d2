//! The words of a run, region by region, and their items.
ghost use Rattle.std.specs.Prelude.{◌≡◌, nat_lt, [], ◌++◌, option_copied, MatchOption, IfOk, OnOk};
ghost use Rattle.tbr_model.specs.Run as run;
ghost use Rattle.tbr_model.specs.Run.{items_width, kept_items};
ghost use Rattle.tbr_model.specs.Layout.{word_slots, slots_of};
ghost use Rattle.tbr_model.specs.Regions as regions;
ghost use Rattle.tbr_model.specs.Regions.{NoBreakWorks, IsFirstWorkingBreak, word_after};
ghost use Rattle.tbr_model.specs.Entry.{entry_values};
ghost use Rattle.tbr_model.specs.Slot.{slot_values};

use crate::entry::Entry;
use crate::slot::Slot;
use crate::width::CharWidth;
use std::alloc::{AllocError, Global};

/// How many entries come before the first working break point.
#[tactic(auto, using(crate::proofs::words::StoredEntries::value_at, crate::proofs::words::StoredEntries::values_front))]
fn working_break<T, W: CharWidth>(entries: &[Entry<T>]) -> Option<usize>
    ensures { MatchOption result (NoBreakWorks W.columns (entry_values entries.now))
        (IsFirstWorkingBreak W.columns (entry_values entries.now)) }
{
    let mut works = false;
    for (place, entry) in entries.iter().enumerate() {
        if works && entry.is_break() {
            return Some(place);
        }
        if entry.takes_columns::<W>() {
            works = true;
        }
    }
    None
}

/// The annotation of the first white space other than U+00A0.
fn first_blank<T>(entries: &[Entry<T>]) -> Option<&T>
    ensures { option_copied result ≡ regions.first_blank (entry_values entries.now) }
{
    for entry in entries {
        if let Some(tag) = entry.blank() {
            return Some(tag);
        }
    }
    None
}

/// Whether the items among the entries are together wider than a line. They may be of any width.
fn is_wider<T, W: CharWidth>(entries: &[Entry<T>], width: usize) -> bool
    ensures { result ≡ nat_lt width (items_width W.columns (kept_items W.columns (entry_values entries.now))) }
{
    let mut taken: usize = 0;
    for entry in entries {
        if entry.is_item::<W>() {
            match taken.checked_add(entry.width::<W>()) {
                Some(sum) => taken = sum,
                None => return true,
            }
        }
    }
    taken > width
}

/// Whether a kept character is among the entries.
fn has_character<T, W: CharWidth>(entries: &[Entry<T>]) -> bool
    ensures { result ≡ run.has_character (kept_items W.columns (entry_values entries.now)) }
{
    for entry in entries {
        if entry.is_item::<W>() && entry.is_character() {
            return true;
        }
    }
    false
}

/// Adds the items of the word in these entries, which begin at the break point before it.
fn push_word<'a, T, W: CharWidth>(
    slots: &mut Vec<Slot<'a, T>>,
    entries: &'a [Entry<T>],
    width: usize,
) -> Result<(), AllocError>
    ensures { OnOk result (slot_values slots.new.items ≡ slot_values slots.old.items
        ++ word_slots W.columns width (word_after W.columns [] (entry_values entries.now))) }
{
    let wider = is_wider::<T, W>(entries, width);
    let mut gap = first_blank(entries);
    let mut begins = true;
    for entry in entries {
        if entry.is_item::<W>() {
            slots.push(Slot {
                entry,
                width: entry.width::<W>(),
                gap,
                begins,
                wider,
            })?;
            gap = None;
            begins = false;
        }
    }
    Ok(())
}

/// The items of a run's words in order, with what is needed to lay them on lines of `width` columns.
///
/// It fails only where memory is refused.
pub fn slots<'a, T, W: CharWidth>(
    alloc: Global,
    run: &'a [Entry<T>],
    width: usize,
) -> Result<Vec<Slot<'a, T>>, AllocError>
    ensures { IfOk result (λ slots. slot_values slots.items ≡ slots_of W.columns width (entry_values run.now)) }
{
    let mut slots = Vec::new(alloc);
    let mut opening = 0;
    let mut from = 0;
    while let Some(place) = working_break::<T, W>(&run[from..]) {
        let to = from + place;
        push_word::<T, W>(&mut slots, &run[opening..to], width)?;
        opening = to;
        from = to + 1;
    }
    if has_character::<T, W>(&run[from..]) {
        push_word::<T, W>(&mut slots, &run[opening..], width)?;
    }
    Ok(slots)
}
