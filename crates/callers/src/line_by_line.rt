//! Lines that are taken one by one, and then the rest.
ghost use Rattle.std.specs.Prelude.{◌≡◌, IfOk};
ghost use Rattle.std.specs.List.{AllZip};
ghost use Rattle.tbr_wrap.specs.Block.{Block, after_flush};
ghost use Rattle.tbr_tagged.specs.Outcome.{done};
ghost use Rattle.tbr_wrap.specs.Wrapped.{ShowsText};

use std::alloc::Global;
use tbr_lines::{CharWidth, Error, TaggedLine, WrappedBlock};
use tbr_tags::Tag;

/// All lines of a block: those that have ended, taken one by one, and then those that the end of its run adds. These
/// are the lines that `into_lines` gives.
pub fn line_by_line<T: Tag, W: CharWidth>(
    alloc: Global,
    mut block: WrappedBlock<T, W>,
) -> Result<Vec<TaggedLine<T>>, Error>
    ensures { IfOk result (λ lines. (end : Block T) × (after_flush W.columns block ≡ done end)
        × AllZip (ShowsText W.columns T.eq block.padding block.width) lines.items end.ended) }
{
    let mut lines = Vec::new(alloc);
    while let Some(line) = block.next_line()? {
        lines.push(line)?;
    }
    for line in block.into_lines()? {
        lines.push(line)?;
    }
    Ok(lines)
}
