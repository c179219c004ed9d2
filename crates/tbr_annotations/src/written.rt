//! Lines as they are handed out, each list of annotations as a vector.
ghost use Rattle.std.specs.Prelude.{IfOk};
ghost use Rattle.tbr_tags.specs.Lists.{equal_lists};
ghost use Rattle.tbr_tagged.specs.Elements.{IsMerged};
ghost use Rattle.tbr_tagged.specs.Mapped.{MapsElement};
ghost use Rattle.tbr_tagged.specs.View.{element_of};
ghost use Rattle.tbr_border.specs.Border.{MapsBorder};
ghost use Rattle.tbr_border.specs.RenderLine.{IsMergedText};
ghost use Rattle.tbr_annotations.specs.Written.{Holds, WritesItems, WritesOut};

use crate::annotations::Annotations;
use std::alloc::Global;
use tbr_border::{BorderHoriz, RenderLine};
use tbr_tagged::{OutOfMemory, TaggedLine, TaggedLineElement, TaggedString};
use tbr_tags::Tag;

/// A line, with each list of annotations as a vector of copies. It refuses only where memory is refused.
pub fn written_out<A: Tag>(
    alloc: Global,
    line: RenderLine<Annotations<A>>,
) -> Result<RenderLine<Vec<A>>, OutOfMemory>
    ensures written { IfOk result (λ out. WritesOut A.meaning line out) }
    ensures merged { IfOk result (λ out. IsMergedText (equal_lists A.eq) out) }
{
    Ok(match line {
        RenderLine::Text(line) => RenderLine::Text(written_line(alloc, line)?),
        RenderLine::Line(border) => RenderLine::Line(written_border(alloc, border)?),
    })
}

/// A line of text, with vectors in place of lists. Its pieces are the longest stretches under equal vectors.
fn written_line<A: Tag>(
    alloc: Global,
    line: TaggedLine<Annotations<A>>,
) -> Result<TaggedLine<Vec<A>>, OutOfMemory>
    ensures items { IfOk result (λ out. WritesItems A.meaning line out) }
    ensures merged { IfOk result (λ out. IsMerged (equal_lists A.eq) out) }
{
    let mut out = TaggedLine::new(alloc);
    for element in line {
        out.push(written_element(alloc, element)?)?;
    }
    Ok(out)
}

/// An element. If it is a piece, a vector of copies is in place of its list.
fn written_element<A: Tag>(
    alloc: Global,
    element: TaggedLineElement<Annotations<A>>,
) -> Result<TaggedLineElement<Vec<A>>, OutOfMemory>
    ensures { IfOk result (λ out. MapsElement (Holds A.meaning) (element_of element) (element_of out)) }
{
    match element {
        TaggedLineElement::Str(TaggedString { s, tag }) => {
            let tag = written_list(alloc, &tag)?;
            Ok(TaggedLineElement::Str(TaggedString { s, tag }))
        }
        TaggedLineElement::FragmentStart(name) => Ok(TaggedLineElement::FragmentStart(name)),
    }
}

/// A border, with its cells and what is in front of them under vectors of copies.
fn written_border<A: Tag>(
    alloc: Global,
    border: BorderHoriz<Annotations<A>>,
) -> Result<BorderHoriz<Vec<A>>, OutOfMemory>
    ensures { IfOk result (λ out. MapsBorder (Holds A.meaning) border out) }
{
    border.try_map_tag(&|list: Annotations<A>| written_list(alloc, &list))
}

/// A list as a vector of copies.
fn written_list<A: Tag>(alloc: Global, list: &Annotations<A>) -> Result<Vec<A>, OutOfMemory>
    ensures { IfOk result (λ copies. Holds A.meaning list.now copies) }
{
    list.to_vec(alloc)
}
