//! Annotations under any decorator.
ghost use Rattle.std.specs.Prelude.{◌≡◌, IfOk, map};
ghost use Rattle.tbr_decor.specs.declared.annotation.RichAnnotation.{RichAnnotation as Rich};
ghost use Rattle.tbr_c_lines.specs.Lines.{bare, itself};

use std::alloc::{AllocError, Global};
use tbr_decor::RichAnnotation;
use tbr_tags::Tag;

/// What text of some decorator is annotated with, and what C sees of it.
pub trait Annotation: Tag {
    // What C sees of one.
    ghost shown: { Self → Rich };

    /// These annotations, as C sees them.
    fn show(alloc: Global, annotations: Vec<Self>) -> Result<Vec<RichAnnotation>, AllocError>
        ensures { IfOk result (λ shown. shown.items ≡ map Self.shown annotations.items) };
}

impl Annotation for () {
    ghost shown = { bare };

    fn show(alloc: Global, annotations: Vec<()>) -> Result<Vec<RichAnnotation>, AllocError>
        ensures { IfOk result (λ shown. shown.items ≡ map bare annotations.items) }
    {
        let mut shown = Vec::with_capacity(alloc, annotations.len())?;
        for () in annotations {
            shown.push(RichAnnotation::Default)?;
        }
        Ok(shown)
    }
}

impl Annotation for RichAnnotation {
    ghost shown = { itself };

    fn show(
        _alloc: Global,
        annotations: Vec<RichAnnotation>,
    ) -> Result<Vec<RichAnnotation>, AllocError>
        ensures { IfOk result (λ shown. shown.items ≡ map itself annotations.items) }
    {
        Ok(annotations)
    }
}
