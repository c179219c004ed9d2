//! Which layouts are legal.
ghost use Rattle.std.specs.Prelude.{◌≡◌, ◌≤◌, ◌<◌, ◌^◌, ◌↔◌, ◌&&◌, not, IsTrue, SomeIff};
ghost use Rattle.tbr_model.specs.Layout as layout;
ghost use Rattle.std.specs.List.{list_all};
ghost use Rattle.tbr_model.specs.Layout.{IsLegalLine};
ghost use Rattle.tbr_model.specs.Cuts.{IsLegalLayout};
ghost use Rattle.tbr_model.specs.Slot.{slot_values};

use crate::slot::Slot;

/// The columns of a line, or `None` where they pass `usize`.
#[tactic(auto, using(crate::proofs::layouts::StoredSlots::line_widths))]
pub fn line_width<T>(line: &[Slot<'_, T>]) -> Option<usize>
    ensures { let width = layout.line_width (slot_values line.now) in SomeIff result (width < 2 ^ 64) width }
{
    let Some((first, others)) = line.split_first() else {
        return Some(0);
    };
    let mut taken = first.width;
    for slot in others {
        let gap = usize::from(slot.gap.is_some());
        taken = taken.checked_add(gap)?.checked_add(slot.width)?;
    }
    Some(taken)
}

/// Whether a line fits into a width in columns.
fn fits<T>(width: usize, line: &[Slot<'_, T>]) -> bool
    ensures { IsTrue result ↔ (layout.line_width (slot_values line.now) ≤ width) }
{
    line_width(line).is_some_and(|taken| taken <= width)
}

/// Whether none of the slots begins a word that is wider than a line.
fn may_follow<T>(slots: &[Slot<'_, T>]) -> bool
    ensures { result ≡ list_all (λ slot. not (slot.begins && slot.wider)) slots.now }
{
    slots.iter().all(|slot| !(slot.begins && slot.wider))
}

/// Whether a line is legal at a width in columns. The line may be of any width.
pub fn is_legal_line<T>(width: usize, line: &[Slot<'_, T>]) -> bool
    ensures { IsTrue result ↔ IsLegalLine width (slot_values line.now) }
{
    let Some((first, others)) = line.split_first() else {
        return true;
    };
    first.may_begin() && may_follow(others) && fits(width, line)
}

/// Whether positions are the cuts of a legal layout of the slots at a width in columns. They may be any numbers.
pub fn is_legal<T>(width: usize, slots: &[Slot<'_, T>], cuts: &[usize]) -> bool
    ensures { IsTrue result ↔ IsLegalLayout width (slot_values slots.now) cuts.now }
{
    let Some((first, later)) = cuts.split_first() else {
        return false;
    };
    if *first != 0 {
        return false;
    }
    let mut from = 0;
    for to in later {
        if *to < from || slots.len() < *to || !is_legal_line(width, &slots[from..*to]) {
            return false;
        }
        from = *to;
    }
    from == slots.len()
}
