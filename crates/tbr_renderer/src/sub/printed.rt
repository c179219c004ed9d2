//! How a renderer is printed.
use crate::sub::SubRenderer;
use std::fmt;
use tbr_decor::TextDecorator;
use tbr_model::CharWidth;

/// Shows its columns, and then each of its lines on a line of its own: a text between `<` and `>`, a border between `[`
/// and `]`. Text of an open block isn't shown; the last line says that one is open.
impl<D: TextDecorator, W: CharWidth> fmt::Display for SubRenderer<D, W> {
    fn fmt<F: fmt::Write>(&self, f: &mut fmt::Formatter<F>) -> fmt::Result {
        writeln!(f, "{} columns", self.width)?;
        write!(f, "{}", self.lines)?;
        if self.wrapping.is_some() {
            writeln!(f, "and an open block")?;
        }
        Ok(())
    }
}

/// Shows its columns, lines, annotations, modes and kept refusal.
impl<D: TextDecorator, W: CharWidth> fmt::Debug for SubRenderer<D, W> {
    fn fmt<F: fmt::Write>(&self, f: &mut fmt::Formatter<F>) -> fmt::Result {
        f.debug_struct("SubRenderer")
            .field("width", &self.width)
            .field("lines", &self.lines)
            .field("annotations", &self.annotations)
            .field("modes", &self.modes)
            .field("failure", &self.failure)
            .finish_non_exhaustive()
    }
}
