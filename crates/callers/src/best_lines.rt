ghost use Rattle.std.specs.Prelude.{◌≡◌, ◌≤◌, true, None, IfOk, IfErr, chars, List};
ghost use Rattle.std.specs.List.{AllZip};
ghost use Rattle.tbr_model.specs.Run.{Item};
ghost use Rattle.tbr_model.specs.declared.white_space.WhiteSpace.TheVariants.{Normal};
ghost use Rattle.tbr_wrap.specs.Runs.{text_entries};
ghost use Rattle.tbr_tagged.specs.UnicodeColumns.{unicode_columns};
ghost use Rattle.tbr_wrap.specs.Wrapped.{HasBestLines, ShowsText};
ghost use Rattle.tbr_tagged.specs.declared.Error.TheVariants as E;

use std::alloc::Global;
use tbr_lines::{Error, TaggedLine, WhiteSpace, WrappedBlock};

/// The lines of a text at two columns or more: the best layout's. It refuses only where memory is refused.
pub fn wrapped(alloc: Global, text: &str, width: usize) -> Result<Vec<TaggedLine<()>>, Error>
    requires { 2 ≤ width }
    ensures best { IfOk result (λ lines. (texts : List (List (Item (Unit {0}))))
        × HasBestLines unicode_columns width (text_entries (chars text.now) tt tt Normal) texts
        × AllZip (ShowsText unicode_columns (λ _ _. true) None width) lines.items texts) }
    ensures memory { IfErr result (λ e. e ≡ E.OutOfMemory) }
{
    let mut block: WrappedBlock<()> = WrappedBlock::new(alloc, width, false, false, ())?;
    block.add_text(text, WhiteSpace::Normal, &(), &())?;
    block.into_lines()
}
