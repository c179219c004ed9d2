//! What is written to standard output.
ghost use Rattle.std.specs.Prelude.{◌≡◌};
ghost use Rattle.blockview.specs.Output as model;

use std::io;
use std::io::Write;
use tbr_show::html;
use tbr_view::Format;

/// The texts of files, one after another. As HTML they are in one document, which is begun with the first of them.
#[derive(Drop)]
pub struct Output {
    format: Format,
    has_begun: bool,
}

impl Output {
    /// An output to which nothing is written yet.
    pub fn new(format: Format) -> Output
        ensures { result ≡ model.nothing format }
    {
        Output {
            format,
            has_begun: false,
        }
    }

    /// Writes the whole text of a file.
    pub fn write(&mut self, rt: &HostRuntime, text: &str) -> io::Result<()> {
        let before = self.before();
        self.has_begun = true;
        write(rt, before)?;
        write(rt, text)
    }

    /// Ends the document, if one was begun.
    pub fn end(&self, rt: &HostRuntime) -> io::Result<()> {
        write(rt, self.after())
    }

    /// What comes before the next text: the beginning of a document, if this text is its first.
    fn before(&self) -> &'static str
        ensures { result.now ≡ model.before self.now }
    {
        match self.format {
            Format::Html if !self.has_begun => html::BEGINNING,
            _ => "",
        }
    }

    /// What comes after all texts: the end of the document, or nothing if no text was written.
    fn after(&self) -> &'static str
        ensures { result.now ≡ model.after self.now }
    {
        match self.format {
            Format::Html if self.has_begun => html::END,
            _ => "",
        }
    }
}

/// Writes a text to standard output.
fn write(rt: &HostRuntime, text: &str) -> io::Result<()> {
    io::writer(rt).write_all(text.as_bytes())
}
