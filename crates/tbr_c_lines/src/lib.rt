//! Lines as C sees them: their texts, and their pieces and annotations by numbers. Also why a call did nothing.
#![tactic(auto)]

pub use annotation::Annotation;
pub use columns::columns_of;
pub use fault::{Fault, of_command, status};
pub use formats::Format;
pub use line::{AnnotationKind, Line, LineSize, PiecePlace, kind, target};
pub use lines::{Lines, Rest};
pub use out::{answer, copy_out};

mod annotation;
mod columns;
mod fault;
mod formats;
mod line;
mod lines;
mod out;
