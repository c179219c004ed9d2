//! The lines of a renderer that is finished.
ghost use Rattle.std.specs.Prelude.{◌≡◌, ◌≢◌, ◌++◌, ◌∷◌, ℕ, List, [], None, Some, Ok, Err, encode_utf8_all, flat_map, string_bytes, IfOk, IfErr, IfSome, OnOk, MatchResult};
ghost use Rattle.tbr_model.specs.Codes.{newline_character};
ghost use Rattle.tbr_tagged.specs.View.{chars_of};
ghost use Rattle.tbr_c_lines.specs.Copied.{CopiesMade, IsCopied};
ghost use Rattle.tbr_c_lines.specs.Formats.{ShowsLine, AreShown, lines_to_show, CopiesShown, is_bare, current_as};
ghost use Rattle.tbr_c_lines.specs.Status.{status_of};
ghost use Rattle.tbr_c_lines.specs.Line as seen;
ghost use Rattle.tbr_c_lines.specs.Lines as left;
ghost use Rattle.tbr_c_lines.specs.declared.fault.Fault.TheVariants as F;

use crate::annotation::Annotation;
use crate::fault::Fault;
use crate::formats::{Format, push_line};
use crate::line::{Line, LineSize};
use crate::out::copy_out;
use std::alloc::Global;
use std::collections::VecDeque;
use std::marker::Model;
use tbr_annotations::{Annotations, written_out};
use tbr_border::RenderLine;
use tbr_decor::RichAnnotation;
use tbr_tagged::OutOfMemory;

/// The lines of a renderer that is finished, and the one that was taken last.
#[derive(Drop)]
pub struct Lines {
    rest: Rest,
    current: Option<Line>,
    /// The text of the rest, if it was asked for and did not fit.
    text: Option<String>,
    /// The rest in a format, if that was asked for and did not fit.
    shown: Option<Shown>,
}

/// The lines that weren't taken, in a format.
#[derive(Drop)]
struct Shown {
    format: Format,
    text: String,
}

impl Model for Lines {
    ghost use Rattle.tbr_c_lines.specs.Lines.{Lines, text_of};

    ghost Value = { Lines };

    ghost view = { λ l. record { rest = l.rest; current = l.current } };

    ghost use Rattle.std.specs.Prelude.{◌≡◌, IfSome};
    ghost use Rattle.tbr_tagged.specs.View.{chars_of};
    ghost use Rattle.tbr_c_lines.specs.Formats.{ShowsRest};

    ghost invariant = { λ l. IfSome l.text (λ text. chars_of text ≡ text_of l.rest)
        × IfSome l.shown (λ s. ShowsRest s.format l.rest (chars_of s.text)) };
}

/// Lines, by what decorators annotate them with, or their text alone. They share annotations; a line that is taken gets
/// its own.
#[derive(Drop)]
pub enum Rest {
    /// Those of plain and trivial decorators.
    Bare(VecDeque<RenderLine<Annotations<()>>>),
    /// Those of rich ones.
    Rich(VecDeque<RenderLine<Annotations<RichAnnotation>>>),
    /// The text of all lines, each with a newline. None can be taken.
    Text(String),
}

impl Lines {
    /// These lines, none of which was taken.
    pub fn new(rest: Rest) -> Lines
        ensures { result ≡ record { rest = rest; current = None } }
    {
        Lines {
            rest,
            current: None,
            text: None,
            shown: None,
        }
    }

    /// Takes the next line, and answers its size. It answers `NoLine` where there is none, and the one that was taken
    /// last stays. It also refuses where memory is refused, and where the columns of the line pass `usize`; the line is
    /// then lost.
    pub fn next(&mut self, alloc: Global) -> Result<LineSize, Fault>
        ensures taken { IfOk result (λ size. IfSome self.new.current (λ line.
            left.TakesFirst self.old.rest line self.new.rest × (size ≡ seen.size_of line))) }
        ensures some { IfOk result (λ _. self.new.current ≢ None) }
        ensures none { IfErr result (λ fault. fault ≢ F.OutOfMemory →
            (fault ≡ F.NoLine) × left.NoneLeft self.old.rest × (self.new ≡ self.old)) }
    {
        self.text = None;
        self.shown = None;
        let Some(line) = self.rest.next(alloc)? else {
            return Err(Fault::NoLine);
        };
        let size = line.size();
        self.current = Some(line);
        Ok(size)
    }

    /// The line that was taken last. It answers `NoLine` where none was.
    pub fn current(&self) -> Result<&Line, Fault>
        ensures { MatchResult result (λ line. self.now.current ≡ Some line.now)
            (λ fault. (fault ≡ F.NoLine) × (self.now.current ≡ None)) }
    {
        self.current.as_ref().ok_or(Fault::NoLine)
    }

    /// Copies the text of all lines that weren't taken, each with a newline, as `copy_out` does.
    ///
    /// It also refuses where memory is refused, since it builds the text first. A text that doesn't fit the buffer is
    /// kept for the next call.
    pub fn copy_text(
        &mut self,
        alloc: Global,
        out: &mut [u8],
        needed: &mut usize,
    ) -> Result<(), Fault>
        ensures text { CopiesMade (Ok (encode_utf8_all (left.text_of self.old.rest)))
            out.old out.new needed.old needed.new (status_of result) }
        ensures left { self.new ≡ self.old }
    {
        match &self.rest {
            Rest::Bare(lines) => copy_kept(alloc, lines, &mut self.text, out, needed),
            Rest::Rich(lines) => copy_kept(alloc, lines, &mut self.text, out, needed),
            Rest::Text(text) => copy_out(text.as_bytes(), out, needed),
        }
    }

    /// Copies all lines that weren't taken in a format, each with a newline, as `copy_text` does. It answers `NoLine`
    /// where there is only their text.
    pub fn copy_shown(
        &mut self,
        alloc: Global,
        format: Format,
        out: &mut [u8],
        needed: &mut usize,
    ) -> Result<(), Fault>
        ensures shown { CopiesShown format (lines_to_show self.old.rest)
            out.old out.new needed.old needed.new (status_of result) }
        ensures none { IfErr (lines_to_show self.old.rest) (λ f. result ≡ Err f) }
        ensures left { self.new ≡ self.old }
    {
        match &self.rest {
            Rest::Bare(lines) => {
                let text = shown_in(alloc, lines, &mut self.shown, format, true)?;
                copy_or_keep(&mut self.shown, text, format, out, needed)
            }
            Rest::Rich(lines) => {
                let text = shown_in(alloc, lines, &mut self.shown, format, false)?;
                copy_or_keep(&mut self.shown, text, format, out, needed)
            }
            Rest::Text(_) => Err(Fault::NoLine),
        }
    }

    /// Copies the line that was taken last in a format, without a newline, as `copy_out` does. It answers `NoLine`
    /// where none was. It also refuses where memory is refused.
    pub fn copy_current(
        &self,
        alloc: Global,
        format: Format,
        out: &mut [u8],
        needed: &mut usize,
    ) -> Result<(), Fault>
        ensures shown { CopiesMade (current_as format self.now)
            out.old out.new needed.old needed.new (status_of result) }
        ensures none { IfErr (current_as format self.now) (λ f. result ≡ Err f) }
    {
        let line = self.current()?;
        let mut text = String::new(alloc);
        push_line(&mut text, line, format, self.rest.is_bare())?;
        copy_out(text.as_bytes(), out, needed)
    }
}

impl Rest {
    /// Whether its lines have no annotations.
    fn is_bare(&self) -> bool
        ensures { result ≡ is_bare self.now }
    {
        matches!(self, Rest::Bare(_))
    }

    /// Takes the first line, if there is one. Where memory is refused, it is lost.
    fn next(&mut self, alloc: Global) -> Result<Option<Line>, OutOfMemory>
        ensures taken { IfOk result (λ found. IfSome found (λ line. left.TakesFirst self.old line self.new)) }
        ensures none { result ≡ Ok None → left.NoneLeft self.old × (self.new ≡ self.old) }
    {
        match self {
            Rest::Bare(lines) => first_of(alloc, lines),
            Rest::Rich(lines) => first_of(alloc, lines),
            Rest::Text(_) => Ok(None),
        }
    }
}

/// Takes the first of these lines, if there is one. Where memory is refused, it is lost.
fn first_of<A: Annotation>(
    alloc: Global,
    lines: &mut VecDeque<RenderLine<Annotations<A>>>,
) -> Result<Option<Line>, OutOfMemory>
    ensures taken { IfOk result (λ found. IfSome found (λ line.
        left.Takes A.meaning A.eq A.shown lines.old.items line lines.new.items)) }
    ensures none { result ≡ Ok None → (lines.old.items ≡ []) × (lines.new ≡ lines.old) }
{
    if lines.is_empty() {
        return Ok(None);
    }
    let Some(line) = lines.pop_front() else {
        unreachable!();
    };
    let line = written_out(alloc, line)?;
    Ok(Some(Line::new(alloc, line)?))
}

/// Copies the text of these lines, each with a newline, as `copy_out` does. A text that doesn't fit is `kept`.
fn copy_kept<T>(
    alloc: Global,
    lines: &VecDeque<RenderLine<T>>,
    kept: &mut Option<String>,
    out: &mut [u8],
    needed: &mut usize,
) -> Result<(), Fault>
    requires { IfSome kept.old (λ text. chars_of text ≡ flat_map left.line_text lines.now.items) }
    ensures kept { IfSome kept.new (λ text. chars_of text ≡ flat_map left.line_text lines.now.items) }
    ensures text { CopiesMade (Ok (encode_utf8_all (flat_map left.line_text lines.now.items)))
        out.old out.new needed.old needed.new (status_of result) }
{
    let text = match kept.take() {
        Some(text) => text,
        None => text_of(alloc, lines)?,
    };
    let done = copy_out(text.as_bytes(), out, needed);
    if done.is_err() {
        *kept = Some(text);
    }
    done
}

/// These lines in a format, each with a newline: the text that was kept, if it is in this format, and otherwise a new
/// one.
fn shown_in<A: Annotation>(
    alloc: Global,
    lines: &VecDeque<RenderLine<Annotations<A>>>,
    kept: &mut Option<Shown>,
    format: Format,
    is_bare: bool,
) -> Result<String, OutOfMemory>
    requires { IfSome kept.old (λ s.
        AreShown (ShowsLine A.meaning A.same A.eq A.shown is_bare s.format) lines.now.items (chars_of s.text)) }
    ensures kept { kept.new ≡ None }
    ensures shown { IfOk result (λ text.
        AreShown (ShowsLine A.meaning A.same A.eq A.shown is_bare format) lines.now.items (chars_of text)) }
{
    match kept.take() {
        Some(shown) if shown.format == format => Ok(shown.text),
        _ => shown_anew(alloc, lines, format, is_bare),
    }
}

/// Copies lines in a format, as `copy_out` does. What doesn't fit is `kept`.
fn copy_or_keep(
    kept: &mut Option<Shown>,
    text: String,
    format: Format,
    out: &mut [u8],
    needed: &mut usize,
) -> Result<(), Fault>
    requires { kept.old ≡ None }
    ensures kept { IfSome kept.new (λ s. (s.format ≡ format) × (s.text ≡ text)) }
    ensures copied { IsCopied (string_bytes text) out.old out.new needed.new (status_of result) }
{
    let done = copy_out(text.as_bytes(), out, needed);
    if done.is_err() {
        *kept = Some(Shown { format, text });
    }
    done
}

/// These lines in a format, each with a newline.
fn shown_anew<A: Annotation>(
    alloc: Global,
    lines: &VecDeque<RenderLine<Annotations<A>>>,
    format: Format,
    is_bare: bool,
) -> Result<String, OutOfMemory>
    ensures { IfOk result (λ text.
        AreShown (ShowsLine A.meaning A.same A.eq A.shown is_bare format) lines.now.items (chars_of text)) }
{
    let mut text = String::new(alloc);
    for line in lines {
        append_shown(alloc, &mut text, line, format, is_bare)?;
    }
    Ok(text)
}

/// Appends a line in a format and a newline.
fn append_shown<A: Annotation>(
    alloc: Global,
    text: &mut String,
    line: &RenderLine<Annotations<A>>,
    format: Format,
    is_bare: bool,
) -> Result<(), OutOfMemory>
    ensures { OnOk result ((cs : List ℕ) × ShowsLine A.meaning A.same A.eq A.shown is_bare format line.now cs
        × (chars_of text.new ≡ chars_of text.old ++ cs)) }
{
    let out = written_out(alloc, line.clone()?)?;
    let seen = Line::new(alloc, out)?;
    push_line(text, &seen, format, is_bare)?;
    end_line(text)
}

/// The text of these lines, each with a newline.
fn text_of<T>(alloc: Global, lines: &VecDeque<RenderLine<T>>) -> Result<String, OutOfMemory>
    ensures { IfOk result (λ text. chars_of text ≡ flat_map left.line_text lines.now.items) }
{
    let mut text = String::new(alloc);
    for line in lines {
        append_line(&mut text, line)?;
    }
    Ok(text)
}

/// Appends the text of a line and a newline.
fn append_line<T>(text: &mut String, line: &RenderLine<T>) -> Result<(), OutOfMemory>
    ensures { OnOk result (chars_of text.new ≡ chars_of text.old ++ left.line_text line.now) }
{
    line.append_to(text)?;
    end_line(text)
}

/// Appends a newline.
fn end_line(text: &mut String) -> Result<(), OutOfMemory>
    ensures { OnOk result (chars_of text.new ≡ chars_of text.old ++ newline_character ∷ []) }
{
    text.push('\n')?;
    Ok(())
}
