//! The answers of a decorator that has none of its own.
ghost use Rattle.std.specs.Prelude.{◌≡◌, false, None, map, chars, codes, ◌++◌, IfOk};
ghost use Rattle.std.specs.Fmt.{decimal};
ghost use Rattle.tbr_tagged.specs.View.{chars_of};
ghost use Rattle.tbr_decor.specs.Usual as usual;
ghost use Rattle.tbr_decor.specs.Usual.{AreFootnotes, IsFootnote};

use crate::colour::Colour;
use crate::text;
use std::alloc::Global;
use tbr_tagged::{OutOfMemory, TaggedLine, TaggedString};
use tbr_tags::Tag;

/// The text before a superscript, `^{`, and the default annotation. It refuses only where memory is refused.
pub fn superscript_start<A: Default>(alloc: Global) -> Result<(String, A), OutOfMemory>
    ensures text { IfOk result (λ r. chars_of r.0 ≡ usual.superscript_start) }
    ensures annotation { IfOk result (λ r. A.is_default r.1) }
{
    Ok((text::ascii(alloc, "^{")?, A::default()))
}

/// The text after a superscript, `}`. It refuses only where memory is refused.
pub fn superscript_end(alloc: Global) -> Result<String, OutOfMemory>
    ensures { IfOk result (λ t. chars_of t ≡ usual.superscript_end) }
{
    text::ascii(alloc, "}")
}

/// The annotation of text in a colour: none, in a decorator without colours. It takes no memory.
pub fn push_colour<A>(_alloc: Global, _colour: Colour) -> Result<Option<A>, OutOfMemory>
    ensures { result ≡ Ok None }
{
    Ok(None)
}

/// Whether the end of text in a colour removes an annotation: never, in a decorator without colours. It takes no
/// memory.
pub fn pop_colour() -> bool
    ensures { result ≡ false }
{
    false
}

/// The annotation of a background in a colour: none, in a decorator without colours. It takes no memory.
pub fn push_bgcolour<A>(_alloc: Global, _colour: Colour) -> Result<Option<A>, OutOfMemory>
    ensures { result ≡ Ok None }
{
    Ok(None)
}

/// Whether the end of a background in a colour removes an annotation: never, in a decorator without colours. It takes
/// no memory.
pub fn pop_bgcolour() -> bool
    ensures { result ≡ false }
{
    false
}

/// A line for each target, such as `[1]: target`: one piece under the default annotation. The numbers count from 1, and
/// the targets are dropped. It refuses only where memory is refused.
pub fn finalise<A: Tag + Default>(
    alloc: Global,
    urls: Vec<String>,
) -> Result<Vec<TaggedLine<A>>, OutOfMemory>
    ensures { IfOk result (λ lines. AreFootnotes A.is_default (map chars_of urls.items) lines.items) }
{
    let mut lines = Vec::with_capacity(alloc, urls.len())?;
    for (place, url) in urls.iter().enumerate() {
        lines.push(footnote(alloc, place + 1, url.as_str())?)?;
    }
    Ok(lines)
}

/// The line of one target. It refuses only where memory is refused.
fn footnote<A: Tag + Default>(
    alloc: Global,
    number: usize,
    url: &str,
) -> Result<TaggedLine<A>, OutOfMemory>
    ensures { IfOk result (λ line. IsFootnote A.is_default number (chars url.now) line) }
{
    let mut line = TaggedLine::new(alloc);
    let s = numbered(alloc, number, url)?;
    line.push_str(TaggedString {
        s,
        tag: A::default(),
    })?;
    Ok(line)
}

/// The text `[1]: target`, of this number and target. It refuses only where memory is refused.
fn numbered(alloc: Global, number: usize, url: &str) -> Result<String, OutOfMemory>
    ensures { IfOk result (λ t. chars_of t ≡ codes "[" ++ decimal number ++ codes "]: " ++ chars url.now) }
{
    let mut text = text::bracketed_number(alloc, number, url.len().saturating_add(2))?;
    text.push_str(": ")?;
    text.push_str(url)?;
    Ok(text)
}
