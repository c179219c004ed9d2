//! A script's commands, one after another.
ghost use Rattle.std.specs.Prelude.{◌≡◌, ℕ, false, [], ◌≢◌, ◌<◌, None, Some, Ok, Err, IfOk, IfErr, OnOk, length, map, string_bytes};
ghost use Rattle.tbr_tagged.specs.View.{chars_of};
ghost use Rattle.tbr_tagged.specs.Outcome.{done, refused};
ghost use Rattle.tbr_tagged.specs.declared.Error.TheVariants as Refusal;
ghost use Rattle.tbr_decor.specs.Decoration.{decoration_of};
ghost use Rattle.tbr_decor.specs.Prefix.{asked_prefix};
ghost use Rattle.tbr_renderer.specs.Renderer.{new_renderer};
ghost use Rattle.tbr_kept_lines.specs.Line.{line_seen};
ghost use Rattle.tbr_safe.specs.Escaped.{escaped_bytes};
ghost use Rattle.tbr_script.specs.declared.error.RunError.TheVariants as E;
ghost use Rattle.tbr_stack.specs.Stack.{new_stack, top_of};
ghost use Rattle.tbr_stack.specs.Top.{OfTop};
ghost use Rattle.tbr_stack.specs.Links.{open_links};
ghost use Rattle.tbr_commands.specs.Request.{request_of};
ghost use Rattle.tbr_commands.specs.Request as requests;
ghost use Rattle.tbr_commands.specs.Command.{command_of, IsSized};
ghost use Rattle.tbr_commands.specs.Command as asked;
ghost use Rattle.tbr_program.specs.Progress.{nothing_pending, opener, Closes, IsSpanned, GoesOn};
ghost use Rattle.tbr_program.specs.Closing.{closed};
ghost use Rattle.tbr_program.specs.Commands.{Runs, level_opened, after_command, after_shown_line, ended};
ghost use Rattle.tbr_program.specs.Safe.{safe_command, shown_command, shown_links};

use crate::closing::{close, close_lines, listed};
use crate::opened::{OpenLevels, Opener};
use crate::pending::Pending;
use crate::prefixes::{append_after, prefix_of};
use std::alloc::Global;
use std::marker::Model;
use std::mem;
use tbr_annotations::Annotations;
use tbr_border::RenderLine;
use tbr_commands::{Command, NewCell, Request};
use tbr_decor::{DecoratorPrefix, TextDecorator};
use tbr_model::CharWidth;
use tbr_renderer::{RenderOptions, Renderer, SubRenderer};
use tbr_safe::escape;
use tbr_script::{RunError, TextPair};
use tbr_stack::TextRenderer;
use tbr_tagged::{Error, OutOfMemory};

/// A script of which the first command, and perhaps more commands, were done.
#[derive(Drop)]
pub struct Program<D: TextDecorator, W: CharWidth> {
    renderers: TextRenderer<D, W>,
    /// What is pending on the renderer on top.
    pending: Pending<D, W>,
    opened: OpenLevels<D, W>,
}

impl<D: TextDecorator, W: CharWidth> Model for Program<D, W> {
    ghost use Rattle.std.specs.Prelude.{List};
    ghost use Rattle.tbr_program.specs.Progress.{Progress};

    ghost Value = { Progress D D.Annotation.Meaning (List D.Annotation.Meaning) };

    ghost view = { λ p. record { stack = p.renderers; pending = p.pending; opened = p.opened } };
}

impl<D: TextDecorator, W: CharWidth> Program<D, W> {
    /// A program with one renderer, to which no command was given yet. Its width in columns, and a wrap width if there
    /// is one, must be at least 1. It refuses only where memory is refused.
    pub fn new(
        alloc: Global,
        width: usize,
        options: RenderOptions,
        decorator: D,
    ) -> Result<Program<D, W>, RunError>
        requires width { 0 < width }
        requires wrap_width { options.wrap_width ≢ Some 0 }
        ensures program { IfOk result (λ program. program ≡ record {
          stack = new_stack (new_renderer width options decorator);
          pending = nothing_pending;
          opened = [];
        }) }
        ensures goes_on { IfOk result (λ program. GoesOn program) }
        ensures memory { IfErr result (λ e. e ≡ E.OutOfMemory) }
    {
        let renderer = SubRenderer::new(alloc, width, options, decorator);
        Ok(Program {
            renderers: TextRenderer::new(alloc, renderer)?,
            pending: Pending::nothing(alloc),
            opened: OpenLevels::none(alloc),
        })
    }

    /// Does what the line of this number asks for. An empty line asks for nothing. A prefix is shown without control
    /// characters, unless `raw` is set.
    ///
    /// It refuses as the line does, and with `OutOfMemory` only where memory is refused. After `OutOfMemory` or
    /// `TooNarrow` the program must not be used any more. Each other refusal leaves it as it was.
    pub fn run_line(
        &mut self,
        alloc: Global,
        number: usize,
        line: &str,
        raw: bool,
    ) -> Result<(), RunError>
        requires { GoesOn self.old }
        ensures runs { let decoration = decoration_of D.TextDecorator D.Annotation.tells in
            Runs (after_shown_line W.columns decoration raw number line.now) self.old result self.new }
    {
        if line.is_empty() {
            return Ok(());
        }
        // A text without escapes needs no copy, nor does such a target.
        if let Some(text) = Command::plain_text(line) {
            return self.add_text(text);
        }
        if let Some(target) = Command::plain_link(line) {
            return self.start_link(target);
        }
        match Command::parse(alloc, line)? {
            Some(command) => self.run_shown(alloc, number, &command, raw),
            None => Err(RunError::NotACommand(number)),
        }
    }

    /// Does what a command asks for, on the line of this number.
    ///
    /// After `OutOfMemory` or `TooNarrow` the program must not be used any more. Each other refusal leaves it as it
    /// was.
    pub fn run(&mut self, alloc: Global, number: usize, command: &Command) -> Result<(), RunError>
        requires goes_on { GoesOn self.old }
        requires sized { IsSized (command_of command.now) }
        ensures runs { let make = after_command W.columns (decoration_of D.TextDecorator D.Annotation.tells) number in
            Runs (make (command_of command.now)) self.old result self.new }
    {
        match command {
            Command::Ask(request) => self.call(number, request),
            Command::Link(target) => self.start_link(target.as_str()),
            Command::EndLink => self.end_link(number),
            Command::Sub(width) => self.open(alloc, Opener::Sub, *width),
            Command::Append(prefixes) => self.append(number, prefixes),
            Command::Cell(new) => {
                let NewCell { width, span, align } = *new;
                self.open(alloc, Opener::Cell { span, align }, width)
            }
            Command::EndCell => self.end_cell(number),
            Command::Row { collapse } => self.add_row(alloc, number, *collapse),
            Command::VerticalRow => self.add_vertical_row(alloc),
        }
    }

    /// Does what a command asks for, as `run` does. A prefix is shown without control characters, unless `raw` is set.
    pub fn run_shown(
        &mut self,
        alloc: Global,
        number: usize,
        command: &Command,
        raw: bool,
    ) -> Result<(), RunError>
        requires goes_on { GoesOn self.old }
        requires sized { IsSized (command_of command.now) }
        ensures runs { let make = after_command W.columns (decoration_of D.TextDecorator D.Annotation.tells) number in
            Runs (make (shown_command raw (command_of command.now))) self.old result self.new }
    {
        if raw {
            return self.run(alloc, number, command);
        }
        self.run_safely(alloc, number, command)
    }

    /// Does what a command asks for. Its prefixes are shown without control characters.
    fn run_safely(
        &mut self,
        alloc: Global,
        number: usize,
        command: &Command,
    ) -> Result<(), RunError>
        requires goes_on { GoesOn self.old }
        requires sized { IsSized (command_of command.now) }
        ensures runs { let make = after_command W.columns (decoration_of D.TextDecorator D.Annotation.tells) number in
            Runs (make (safe_command (command_of command.now))) self.old result self.new }
    {
        match command {
            Command::Append(prefixes) => {
                let safe = safe_pair(alloc, prefixes)?;
                self.append(number, &safe)
            }
            _ => self.run(alloc, number, command),
        }
    }

    /// Adds a text to the renderer on top, as a line asks for it.
    fn add_text(&mut self, text: &str) -> Result<(), RunError>
        requires { GoesOn self.old }
        ensures runs { let decoration = decoration_of D.TextDecorator D.Annotation.tells in
            (number : ℕ) → let make = after_command W.columns decoration number in
            Runs (make (asked.ask (requests.text text.now))) self.old result self.new }
    {
        self.renderers.top_mut().add_inline_text(text)?;
        Ok(())
    }

    /// Does what a request asks for, on the line of this number.
    fn call(&mut self, number: usize, request: &Request) -> Result<(), RunError>
        requires { GoesOn self.old }
        ensures runs { let make = after_command W.columns (decoration_of D.TextDecorator D.Annotation.tells) number in
            Runs (make (asked.ask (request_of request.now))) self.old result self.new }
    {
        if self.pending.lacks(request) {
            return Err(RunError::NothingToEnd(number));
        }
        self.pending.note(request)?;
        let top = self.renderers.top_mut();
        request.call(top)?;
        Ok(())
    }

    /// Begins a link to a target.
    fn start_link(&mut self, target: &str) -> Result<(), RunError>
        requires { GoesOn self.old }
        ensures runs { let decoration = decoration_of D.TextDecorator D.Annotation.tells in
            (number : ℕ) → let make = after_command W.columns decoration number in
            Runs (make (asked.link target.now)) self.old result self.new }
    {
        self.renderers.start_link(target)?;
        Ok(())
    }

    /// Ends the link that began last, on the line of this number.
    fn end_link(&mut self, number: usize) -> Result<(), RunError>
        requires { GoesOn self.old }
        ensures runs { let make = after_command W.columns (decoration_of D.TextDecorator D.Annotation.tells) number in
            Runs (make asked.end_link) self.old result self.new }
    {
        if self.renderers.open_links() == 0 {
            return Err(RunError::NothingToEnd(number));
        }
        self.renderers.end_link()?;
        Ok(())
    }

    /// Opens a level of a width of at least 1.
    fn open(&mut self, alloc: Global, by: Opener, width: usize) -> Result<(), RunError>
        requires goes_on { GoesOn self.old }
        requires width { 0 < width }
        requires spans { IsSpanned by }
        ensures runs { let make = level_opened W.columns (decoration_of D.TextDecorator D.Annotation.tells) by width in
            Runs make self.old result self.new }
    {
        let inside = self.renderers.top().new_sub_renderer(width)?;
        self.renderers.push(inside)?;
        let below = mem::replace(&mut self.pending, Pending::nothing(alloc));
        self.opened.open(by, below)?;
        Ok(())
    }

    /// Closes the innermost level, and answers its renderer. A level must be open.
    fn close(&mut self) -> SubRenderer<D, W>
        requires goes_on { GoesOn self.old }
        requires opened { opener self.old.opened ≢ None }
        ensures closes { Closes self.old result self.new }
        ensures goes_on { GoesOn self.new }
    {
        let inside = self.renderers.pop();
        self.pending = self.opened.close();
        inside
    }

    /// Closes the level that `sub` opened, on the line of this number: its lines are added to the level below.
    fn append(&mut self, number: usize, prefixes: &TextPair) -> Result<(), RunError>
        requires { GoesOn self.old }
        ensures runs { let make = after_command W.columns (decoration_of D.TextDecorator D.Annotation.tells) number in
            let texts = asked.append (string_bytes prefixes.now.first) (string_bytes prefixes.now.second) in
            Runs (make texts) self.old result self.new }
    {
        if !self.opened.is_sub() {
            return Err(RunError::NothingToEnd(number));
        }
        if self.pending.has_cells() {
            return Err(RunError::NotACommand(number));
        }
        let inside = self.close();
        let top = self.renderers.top_mut();
        append_after(top, inside, prefixes)?;
        Ok(())
    }

    /// Closes the level that `cell` opened, on the line of this number: it waits in the level below as a cell.
    fn end_cell(&mut self, number: usize) -> Result<(), RunError>
        requires { GoesOn self.old }
        ensures runs { let make = after_command W.columns (decoration_of D.TextDecorator D.Annotation.tells) number in
            Runs (make asked.end_cell) self.old result self.new }
    {
        let Some((span, align)) = self.opened.cell() else {
            return Err(RunError::NothingToEnd(number));
        };
        if self.pending.has_cells() {
            return Err(RunError::NotACommand(number));
        }
        let inside = self.close();
        self.pending.add_cell(inside, span, align)?;
        Ok(())
    }

    /// Adds the waiting cells side by side, on the line of this number.
    fn add_row(&mut self, alloc: Global, number: usize, collapse: bool) -> Result<(), RunError>
        requires { GoesOn self.old }
        ensures runs { let make = after_command W.columns (decoration_of D.TextDecorator D.Annotation.tells) number in
            Runs (make (asked.row collapse)) self.old result self.new }
    {
        if !self.renderers.top().row_fits(self.pending.cells()) {
            return Err(RunError::RowDoesNotFit(number));
        }
        let (cells, aligns) = self.pending.take_cells(alloc);
        let top = self.renderers.top_mut();
        top.append_columns_aligned(cells, &aligns, collapse)?;
        Ok(())
    }

    /// Adds the waiting cells, one below another.
    fn add_vertical_row(&mut self, alloc: Global) -> Result<(), RunError>
        requires { GoesOn self.old }
        ensures runs { let decoration = decoration_of D.TextDecorator D.Annotation.tells in
            (number : ℕ) → let make = after_command W.columns decoration number in
            Runs (make asked.vertical_row) self.old result self.new }
    {
        let cells = self.pending.take_renderers(alloc)?;
        self.renderers.top_mut().append_vert_row(cells)?;
        Ok(())
    }

    /// The text of the script, whose end counts as the line of this number. The targets of links are listed without
    /// control characters, unless `raw` is set.
    ///
    /// It refuses as the end of the script does, and with `OutOfMemory` only where memory is refused.
    pub fn finish(self, number: usize, raw: bool) -> Result<String, RunError>
        requires { GoesOn self }
        ensures text { let end = ended W.columns (decoration_of D.TextDecorator D.Annotation.tells) number in
            IfOk result (λ text. end (shown_links raw self) ≡ Ok (string_bytes text)) }
        ensures refused { let end = ended W.columns (decoration_of D.TextDecorator D.Annotation.tells) number in
            IfErr result (λ e. e ≢ RunError.OutOfMemory → end (shown_links raw self) ≡ Err e) }
    {
        if !self.opened.is_empty() || self.pending.has_cells() {
            return Err(RunError::NotACommand(number));
        }
        let (renderer, targets) = self.renderers.into_inner();
        Ok(close(renderer, listed(targets, raw)?)?)
    }

    /// The lines of the text, where no level is open and no cell waits. Their lists of annotations share their common
    /// part. The targets of links are listed as by `finish`. It also refuses as `finish` does.
    pub fn finish_lines(
        self,
        raw: bool,
    ) -> Result<Vec<RenderLine<Annotations<D::Annotation>>>, Error>
        requires goes_on { GoesOn self }
        requires opened { self.opened ≡ [] }
        requires cells { self.pending.cells ≡ [] }
        ensures lines { let shown = shown_links raw self in IfOk result (λ lines. OfTop (λ r.
            closed W.columns (decoration_of D.TextDecorator D.Annotation.tells) shown.stack.links r
            ≡ done (map line_seen lines.items)) self.stack) }
        ensures too_narrow { let shown = shown_links raw self in result ≡ Err Refusal.TooNarrow → OfTop (λ r.
            closed W.columns (decoration_of D.TextDecorator D.Annotation.tells) shown.stack.links r
            ≡ refused Refusal.TooNarrow) self.stack }
    {
        let (renderer, targets) = self.renderers.into_inner();
        close_lines(renderer, listed(targets, raw)?)
    }

    /// The renderer of the innermost level.
    pub fn top(&self) -> &SubRenderer<D, W>
        requires { GoesOn self.now }
        ensures { top_of self.now.stack ≡ Some result.now }
    {
        self.renderers.top()
    }

    /// The text of a prefix of the decorator of the innermost level. It refuses only where memory is refused, and
    /// changes nothing.
    pub fn prefix(&mut self, prefix: DecoratorPrefix) -> Result<String, Error>
        requires { GoesOn self.old }
        ensures text { IfOk result (λ text.
            OfTop (λ r. chars_of text ≡ D.prefix_text r.decorator (asked_prefix prefix)) self.old.stack) }
        ensures memory { IfErr result (λ e. e ≡ Refusal.OutOfMemory) }
        ensures unchanged { self.new ≡ self.old }
    {
        let top = self.renderers.top_mut();
        prefix_of(top, prefix)
    }

    /// How many levels are open inside the outermost one.
    pub fn open_levels(&self) -> usize
        ensures { result ≡ length self.now.opened }
    {
        self.opened.len()
    }

    /// How many links are open in the innermost level.
    pub fn open_links(&self) -> usize
        requires { GoesOn self.now }
        ensures { result ≡ length (open_links self.now.stack) }
    {
        self.renderers.open_links()
    }

    /// How many cells wait in the innermost level.
    pub fn waiting_cells(&self) -> usize
        ensures { result ≡ length self.now.pending.cells }
    {
        self.pending.cells().len()
    }
}

/// Two texts without control characters. It refuses only where memory is refused.
fn safe_pair(alloc: Global, texts: &TextPair) -> Result<TextPair, OutOfMemory>
    ensures first { IfOk result (λ safe. string_bytes safe.first ≡ escaped_bytes (string_bytes texts.now.first)) }
    ensures second { IfOk result (λ safe. string_bytes safe.second ≡ escaped_bytes (string_bytes texts.now.second)) }
{
    Ok(TextPair {
        first: escape(alloc, texts.first.as_str())?,
        second: escape(alloc, texts.second.as_str())?,
    })
}
