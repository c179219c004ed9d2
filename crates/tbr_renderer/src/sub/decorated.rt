//! Text with an annotation of its own: links, emphasis, strikeouts, images and colours.
ghost use Rattle.std.specs.Prelude.{◌≡◌, ◌≢◌, ◌≤◌, None, Err, IfOk, OnOk, OnErr};
ghost use Rattle.tbr_tagged.specs.View.{chars_of};
ghost use Rattle.tbr_tagged.specs.declared.Error.TheVariants as E;
ghost use Rattle.tbr_decor.specs.Decoration.{decoration_of};
ghost use Rattle.tbr_renderer.specs.Renderer.{kept_of, block_width, with_annotation, without_annotation};
ghost use Rattle.tbr_renderer.specs.View.{start_of, end_of};
ghost use Rattle.tbr_renderer.specs.Outcomes.{Tries};
ghost use Rattle.tbr_renderer.specs.Calls.{calls_by, Answers};
ghost use Rattle.tbr_renderer.specs.Decorated.{asked_to_open, annotated, asked_to_close, after_start, after_end};

use crate::sub::SubRenderer;
use tbr_decor::TextDecorator;
use tbr_model::CharWidth;
use tbr_tagged::{Error, OutOfMemory};

/// What a decorator opens.
#[derive(Clone, Copy)]
pub(crate) enum Start<'a> {
    Link(&'a str),
    Emphasis,
    Strong,
    Strikeout,
    Code,
    Superscript,
    /// An image by its source and title.
    Image(&'a str, &'a str),
}

/// What a decorator closes.
#[derive(Clone, Copy)]
pub(crate) enum End {
    Link,
    Emphasis,
    Strong,
    Strikeout,
    Code,
    Superscript,
}

impl<D: TextDecorator, W: CharWidth> SubRenderer<D, W> {
    /// The decorator's text and annotation for what is opened.
    fn ask_to_open(&mut self, start: Start) -> Result<(String, D::Annotation), OutOfMemory>
        ensures text { IfOk result (λ r. chars_of r.0 ≡ D.start_text self.old.decorator (start_of start.entry)) }
        ensures annotation { IfOk result (λ r.
            D.Annotation.meaning r.1 ≡ D.annotation self.old.decorator (start_of start.entry)) }
        ensures asked { OnOk result (self.new
            ≡ asked_to_open (decoration_of D.TextDecorator D.Annotation.tells) (start_of start.entry) self.old) }
        ensures failure { self.new.failure ≡ self.old.failure }
        ensures columns { block_width self.new ≡ block_width self.old }
        ensures err { OnErr result (self.new ≡ self.old) }
    {
        match start {
            Start::Link(target) => self.decorator.decorate_link_start(self.alloc, target),
            Start::Emphasis => self.decorator.decorate_em_start(self.alloc),
            Start::Strong => self.decorator.decorate_strong_start(self.alloc),
            Start::Strikeout => self.decorator.decorate_strikeout_start(self.alloc),
            Start::Code => self.decorator.decorate_code_start(self.alloc),
            Start::Superscript => self.decorator.decorate_superscript_start(self.alloc),
            Start::Image(src, title) => self.decorator.decorate_image(self.alloc, src, title),
        }
    }
}

impl<D: TextDecorator, W: CharWidth> SubRenderer<D, W> {
    /// The decorator's text for what is closed.
    fn ask_to_close(&mut self, end: End) -> Result<String, OutOfMemory>
        ensures text { IfOk result (λ text. chars_of text ≡ D.end_text self.old.decorator (end_of end)) }
        ensures asked { OnOk result (self.new
            ≡ asked_to_close (decoration_of D.TextDecorator D.Annotation.tells) (end_of end) self.old) }
        ensures failure { self.new.failure ≡ self.old.failure }
        ensures columns { block_width self.new ≡ block_width self.old }
        ensures err { OnErr result (self.new ≡ self.old) }
    {
        match end {
            End::Link => self.decorator.decorate_link_end(self.alloc),
            End::Emphasis => self.decorator.decorate_em_end(self.alloc),
            End::Strong => self.decorator.decorate_strong_end(self.alloc),
            End::Strikeout => self.decorator.decorate_strikeout_end(self.alloc),
            End::Code => self.decorator.decorate_code_end(self.alloc),
            End::Superscript => self.decorator.decorate_superscript_end(self.alloc),
        }
    }

    /// Adds an annotation to those of later text.
    pub(crate) fn push_annotation(&mut self, annotation: D::Annotation) -> Result<(), OutOfMemory>
        ensures ok { OnOk result
            (self.new ≡ with_annotation self.old (D.Annotation.meaning annotation)) }
        ensures failure { self.new.failure ≡ self.old.failure }
        ensures columns { block_width self.new ≡ block_width self.old }
        ensures err { OnErr result (self.new ≡ self.old) }
    {
        self.annotations.push(self.alloc, annotation)
    }

    /// Removes the last annotation, if there is one.
    pub(crate) fn pop_annotation(&mut self)
        ensures { self.new ≡ without_annotation self.old }
    {
        self.annotations.pop();
    }

    /// Adds the annotation of what is opened to those of later text. It answers the decorator's text, for the caller to
    /// add.
    fn annotate(&mut self, start: Start) -> Result<String, OutOfMemory>
        ensures text { IfOk result (λ text. chars_of text ≡ D.start_text self.old.decorator (start_of start.entry)) }
        ensures annotated { OnOk result (self.new
            ≡ annotated (decoration_of D.TextDecorator D.Annotation.tells) (start_of start.entry) self.old) }
        ensures failure { self.new.failure ≡ self.old.failure }
        ensures columns { block_width self.new ≡ block_width self.old }
        ensures kept { kept_of self.new ≡ kept_of self.old }
    {
        let (text, annotation) = self.ask_to_open(start)?;
        self.push_annotation(annotation)?;
        Ok(text)
    }

    /// Adds the decorator's text for what is opened, under its annotation.
    pub(crate) fn try_open(&mut self, start: Start) -> Result<(), Error>
        requires { self.old.failure ≡ None }
        ensures tries { let decoration = decoration_of D.TextDecorator D.Annotation.tells in
            Tries (after_start W.columns decoration (start_of start.entry)) self.old result self.new }
        ensures two_columns { 2 ≤ block_width self.old → result ≢ Err E.TooNarrow }
        ensures kept { kept_of self.new ≡ kept_of self.old }
    {
        let text = self.annotate(start)?;
        self.try_add_text(text.as_str())
    }

    /// Opens decorated text, and keeps a refusal.
    pub(crate) fn begin(&mut self, start: Start) -> Result<(), Error>
        ensures answers { let calls = calls_by W.columns (decoration_of D.TextDecorator D.Annotation.tells) in
            Answers calls (calls.begin (start_of start.entry)) self.old result self.new }
    {
        self.refusal()?;
        let done = self.try_open(start);
        self.keep(done)
    }

    /// Adds the decorator's text for what is closed, and then removes the last annotation.
    pub(crate) fn try_close(&mut self, end: End) -> Result<(), Error>
        requires { self.old.failure ≡ None }
        ensures tries { let decoration = decoration_of D.TextDecorator D.Annotation.tells in
            Tries (after_end W.columns decoration (end_of end)) self.old result self.new }
        ensures two_columns { 2 ≤ block_width self.old → result ≢ Err E.TooNarrow }
        ensures kept { kept_of self.new ≡ kept_of self.old }
    {
        let text = self.ask_to_close(end)?;
        self.try_add_text(text.as_str())?;
        self.pop_annotation();
        Ok(())
    }

    /// Closes decorated text, and keeps a refusal.
    pub(crate) fn finish(&mut self, end: End) -> Result<(), Error>
        ensures answers { let calls = calls_by W.columns (decoration_of D.TextDecorator D.Annotation.tells) in
            Answers calls (calls.finish (end_of end)) self.old result self.new }
    {
        self.refusal()?;
        let done = self.try_close(end);
        self.keep(done)
    }
}
