//! Markers that wait after the lines of one block are handed on to another.
ghost use Rattle.std.specs.Prelude.{◌≡◌, OnOk, map};
ghost use Rattle.tbr_model.specs.Run.{marker_entry};
ghost use Rattle.tbr_model.specs.Rule.{entry};
ghost use Rattle.tbr_wrap.specs.Block.{after_taking, grown, loose};
ghost use Rattle.tbr_tagged.specs.Outcome.{done};

use tbr_lines::{CharWidth, Error, WrappedBlock};
use tbr_tags::Tag;

/// Hands the markers that wait in a block on to another one, in order.
pub fn hand_on<T: Tag, W: CharWidth>(
    block: &mut WrappedBlock<T, W>,
    other: &mut WrappedBlock<T, W>,
) -> Result<(), Error>
    ensures taken { OnOk result (after_taking W.columns block.old ≡ done block.new) }
    ensures joined { let markers = map (λ name. entry (marker_entry name)) (loose W.columns block.old) in
        OnOk result (other.new ≡ grown other.old markers) }
{
    for marker in block.take_trailing_fragments()? {
        other.add_element(marker)?;
    }
    Ok(())
}
