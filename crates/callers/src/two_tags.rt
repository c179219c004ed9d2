//! A text under two tags.
use std::alloc::Global;
use tbr_lines::{Error, WhiteSpace, WrappedBlock};

/// The lines of a text under two characters as tags, each with a newline.
pub fn under_two_tags(alloc: Global) -> Result<String, Error> {
    let mut block: WrappedBlock<char> = WrappedBlock::new(alloc, 20, false, false, 'a')?;
    block.add_text("Words under a ", WhiteSpace::Normal, &'a', &'a')?;
    block.add_text("second tag.", WhiteSpace::Normal, &'b', &'b')?;
    let lines = block.into_lines()?;
    let mut all = String::new(alloc);
    for line in &lines {
        all.push_str(line.to_text()?.as_str())?;
        all.push('\n')?;
    }
    Ok(all)
}
