//! The end of a script: its text, with footnotes.
ghost use Rattle.std.specs.Prelude.{◌≡◌, None, Err, map, IfOk, string_bytes};
ghost use Rattle.tbr_tagged.specs.View.{chars_of};
ghost use Rattle.tbr_tagged.specs.declared.Error.TheVariants as E;
ghost use Rattle.tbr_decor.specs.Decoration.{decoration_of};
ghost use Rattle.tbr_kept_lines.specs.Line.{line_seen};
ghost use Rattle.tbr_tagged.specs.Outcome.{done, refused};
ghost use Rattle.tbr_renderer.specs.Appended.{handed_out};
ghost use Rattle.tbr_program.specs.Closing.{closed, closed_text};
ghost use Rattle.tbr_program.specs.Safe as model;

use tbr_annotations::Annotations;
use tbr_border::RenderLine;
use tbr_decor::TextDecorator;
use tbr_model::CharWidth;
use tbr_renderer::{Renderer, SubRenderer};
use tbr_safe::escape_all;
use tbr_tagged::{Error, OutOfMemory};

/// The text of a renderer whose links have these targets: its lines, and after them the footnotes as a block of their
/// own, if there are any. The renderer must not have failed. It refuses as the renderer does, and then drops it and the
/// targets.
pub fn close<D: TextDecorator, W: CharWidth>(
    renderer: SubRenderer<D, W>,
    targets: Vec<String>,
) -> Result<String, Error>
    requires { renderer.failure ≡ None }
    ensures text { let links = map chars_of targets.items in
        IfOk result (λ text. closed_text W.columns (decoration_of D.TextDecorator D.Annotation.tells) links renderer
        ≡ done (string_bytes text)) }
    ensures too_narrow { let links = map chars_of targets.items in
        result ≡ Err E.TooNarrow →
        closed_text W.columns (decoration_of D.TextDecorator D.Annotation.tells) links renderer
        ≡ refused E.TooNarrow }
{
    with_footnotes(renderer, targets)?.into_string()
}

/// The lines of a renderer whose links have these targets, and after them the footnotes. Their lists of annotations
/// share their common part. It refuses as [`close`] does.
pub fn close_lines<D: TextDecorator, W: CharWidth>(
    renderer: SubRenderer<D, W>,
    targets: Vec<String>,
) -> Result<Vec<RenderLine<Annotations<D::Annotation>>>, Error>
    requires { renderer.failure ≡ None }
    ensures lines { let links = map chars_of targets.items in
        IfOk result (λ lines. closed W.columns (decoration_of D.TextDecorator D.Annotation.tells) links renderer
        ≡ done (map line_seen lines.items)) }
    ensures too_narrow { let links = map chars_of targets.items in
        result ≡ Err E.TooNarrow →
        closed W.columns (decoration_of D.TextDecorator D.Annotation.tells) links renderer ≡ refused E.TooNarrow }
{
    with_footnotes(renderer, targets)?.into_shared_lines()
}

/// The renderer, and after its lines the footnotes.
fn with_footnotes<D: TextDecorator, W: CharWidth>(
    mut renderer: SubRenderer<D, W>,
    targets: Vec<String>,
) -> Result<SubRenderer<D, W>, Error>
    requires { renderer.failure ≡ None }
    ensures noted { let links = map chars_of targets.items in
        IfOk result (λ noted. handed_out W.columns noted
        ≡ closed W.columns (decoration_of D.TextDecorator D.Annotation.tells) links renderer) }
    ensures live { IfOk result (λ noted. noted.failure ≡ None) }
    ensures too_narrow { let links = map chars_of targets.items in
        result ≡ Err E.TooNarrow →
        closed W.columns (decoration_of D.TextDecorator D.Annotation.tells) links renderer ≡ refused E.TooNarrow }
{
    let footnotes = renderer.finalise(targets)?;
    if footnotes.is_empty() {
        return Ok(renderer);
    }
    renderer.start_block()?;
    renderer.fmt_links(footnotes)?;
    Ok(renderer)
}

/// The targets of links as footnotes list them: unchanged if `raw` is set, and otherwise without control characters. It
/// refuses only where memory is refused.
pub fn listed(targets: Vec<String>, raw: bool) -> Result<Vec<String>, OutOfMemory>
    ensures { IfOk result (λ shown. map chars_of shown.items ≡ model.listed raw (map chars_of targets.items)) }
{
    if raw {
        return Ok(targets);
    }
    escape_all(targets)
}
