//! A renderer into which calls go, under one of three decorators.
ghost use Rattle.std.specs.Prelude.{◌≡◌, ◌≢◌, ◌<◌, ◌⊎◌, Bool, [], Some, Ok, Err, IfOk, IfErr, IfSome, OnOk, MatchResult, length, flat_map, string_bytes, encode_utf8_all};
ghost use Rattle.tbr_tagged.specs.declared.Error.TheVariants as Refusal;
ghost use Rattle.tbr_tagged.specs.UnicodeColumns.{unicode_columns};
ghost use Rattle.tbr_decor.specs.Decoration.{decoration_of};
ghost use Rattle.tbr_decor.specs.Prefix.{asked_prefix, header};
ghost use Rattle.tbr_script.specs.declared.error.RunError.TheVariants as unrun;
ghost use Rattle.tbr_commands.specs.Command.{command_of, IsSized};
ghost use Rattle.tbr_program.specs.Progress.{GoesOn};
ghost use Rattle.tbr_program.specs.Commands.{ended, started as begun};
ghost use Rattle.tbr_program.specs.Safe.{shown_links};
ghost use Rattle.tbr_c_lines.specs.Lines.{line_text, text_of as text_in};
ghost use Rattle.tbr_recorded.specs.Texts.{noted};
ghost use Rattle.tbr_c.specs.Drawing.{drawing, shown_made};
ghost use Rattle.tbr_c.specs.Facts.{on_top, facts_in};
ghost use Rattle.tbr_c.specs.Page.{PageGoesOn, IsPageClosed, new_page, texts_of, page_after, page_drawn, page_end, page_facts, page_texts, page_prefix, page_width_left};
ghost use Rattle.tbr_c_lines.specs.declared.fault.Fault.TheVariants as F;

use crate::drawing::draw;
use std::alloc::Global;
use std::collections::VecDeque;
use tbr_annotations::Annotations;
use tbr_border::RenderLine;
use tbr_c_lines::{Fault, Lines, Rest};
use tbr_commands::{Command, Decorator, Opening};
use tbr_decor::{DecoratorPrefix, PlainDecorator, RichDecorator, TextDecorator, TrivialDecorator};
use tbr_headings::{Headings, heading_length};
use tbr_program::Program;
use tbr_recorded::{TableScript, Texts};
use tbr_renderer::Renderer;
use tbr_script::RunError;
use tbr_tagged::{Error, UnicodeColumns};

/// A renderer into which calls go.
#[derive(Drop)]
pub enum Page {
    /// Under the plain decorator.
    Plain(Filled<PlainDecorator>),
    /// Under the trivial decorator.
    Trivial(Filled<TrivialDecorator>),
    /// Under the rich decorator.
    Rich(Filled<RichDecorator>),
}

/// A program that calls fill.
#[derive(Drop)]
pub struct Filled<D: TextDecorator> {
    program: Program<D, UnicodeColumns>,
    /// Whether prefixes and the targets that footnotes list are shown as they came. Otherwise they are shown without
    /// control characters.
    raw: bool,
    /// What decides what calls write.
    texts: Texts,
}

/// What a renderer answers of itself and of its innermost level, while it is filled.
#[derive(Clone, Copy, Drop)]
pub struct Facts {
    /// The level's columns.
    pub width: usize,
    /// Whether the level has neither a line nor text on an open one.
    pub is_empty: bool,
    /// Whether cells overhang in the level from the rows before.
    pub has_overhang: bool,
    /// How many levels are open.
    pub open_levels: usize,
    /// How many links are open in the level.
    pub open_links: usize,
    /// How many cells wait in the level.
    pub waiting_cells: usize,
}

impl Page {
    /// A renderer without text, which is `raw` or not. It refuses only where memory is refused.
    pub fn new(alloc: Global, opening: Opening, raw: bool) -> Result<Page, Fault>
        requires width { 0 < opening.width }
        requires wrap_width { opening.options.wrap_width ≢ Some 0 }
        ensures page { IfOk result (λ page. page ≡ new_page opening raw) }
        ensures goes_on { IfOk result (λ page. PageGoesOn page) }
        ensures memory { IfErr result (λ fault. fault ≡ F.OutOfMemory) }
    {
        Ok(match opening.decorator {
            Decorator::Plain => Page::Plain(started(alloc, &opening, PlainDecorator::new(), raw)?),
            Decorator::Trivial => {
                Page::Trivial(started(alloc, &opening, TrivialDecorator::new(), raw)?)
            }
            Decorator::Rich => Page::Rich(started(alloc, &opening, RichDecorator::new(), raw)?),
        })
    }

    /// Does what a command asks for. After `OutOfMemory` or `TooNarrow` it must not be used any more. Each other
    /// refusal leaves it as it was.
    pub fn run(&mut self, alloc: Global, command: &Command) -> Result<(), RunError>
        requires goes_on { PageGoesOn self.old }
        requires sized { IsSized (command_of command.now) }
        ensures goes_on { OnOk result (PageGoesOn self.new) }
        ensures done { OnOk result (page_after (command_of command.now) self.old ≡ Ok self.new) }
        ensures refused { IfErr result (λ e. e ≢ unrun.OutOfMemory →
            page_after (command_of command.now) self.old ≡ Err e) }
        ensures left { IfErr result (λ e. e ≢ unrun.OutOfMemory → e ≢ unrun.TooNarrow → self.new ≡ self.old) }
    {
        match self {
            Page::Plain(filled) => filled.run(alloc, command),
            Page::Trivial(filled) => filled.run(alloc, command),
            Page::Rich(filled) => filled.run(alloc, command),
        }
    }

    /// The renderer after what is recorded was drawn.
    pub fn drawn(self, alloc: Global, script: &TableScript) -> Result<Page, Error>
        requires { PageGoesOn self }
        ensures goes_on { IfOk result (λ page. PageGoesOn page) }
        ensures drawn { IfOk result (λ page. page_drawn script.now self ≡ Ok page) }
        ensures refused { result ≡ Err Refusal.TooNarrow → page_drawn script.now self ≡ Err unrun.TooNarrow }
    {
        Ok(match self {
            Page::Plain(filled) => Page::Plain(filled.drawn(alloc, script)?),
            Page::Trivial(filled) => Page::Trivial(filled.drawn(alloc, script)?),
            Page::Rich(filled) => Page::Rich(filled.drawn(alloc, script)?),
        })
    }

    /// What it answers.
    pub fn facts(&self) -> Facts
        requires { PageGoesOn self.now }
        ensures facts { result ≡ page_facts self.now }
        ensures open { (0 < result.open_levels) ⊎ (0 < result.waiting_cells) →
            page_end self.now ≡ Err (unrun.NotACommand 0) }
    {
        match self {
            Page::Plain(filled) => filled.facts(),
            Page::Trivial(filled) => filled.facts(),
            Page::Rich(filled) => filled.facts(),
        }
    }

    /// How many levels are open.
    pub fn open_levels(&self) -> usize
        ensures { let facts = page_facts self.now in result ≡ facts.open_levels }
    {
        match self {
            Page::Plain(filled) => filled.program.open_levels(),
            Page::Trivial(filled) => filled.program.open_levels(),
            Page::Rich(filled) => filled.program.open_levels(),
        }
    }

    /// What decides what calls write.
    pub fn texts(&self) -> Texts
        ensures { result ≡ page_texts self.now }
    {
        match self {
            Page::Plain(filled) => filled.texts,
            Page::Trivial(filled) => filled.texts,
            Page::Rich(filled) => filled.texts,
        }
    }

    /// The columns of the innermost level that are left after a prefix of `prefix` columns, but at least `least`. It
    /// answers `TooNarrow` where fewer are left and lines may not be wider.
    pub fn width_minus(&self, prefix: usize, least: usize) -> Result<usize, Fault>
        requires { PageGoesOn self.now }
        ensures { result ≡ page_width_left prefix least self.now }
    {
        Ok(match self {
            Page::Plain(filled) => filled.program.top().width_minus(prefix, least)?,
            Page::Trivial(filled) => filled.program.top().width_minus(prefix, least)?,
            Page::Rich(filled) => filled.program.top().width_minus(prefix, least)?,
        })
    }

    /// The text of a prefix of the decorator. It refuses only where memory is refused.
    pub fn prefix(&mut self, prefix: DecoratorPrefix) -> Result<String, Fault>
        requires { PageGoesOn self.old }
        ensures text { IfOk result (λ text. string_bytes text ≡ page_prefix (asked_prefix prefix) self.old) }
        ensures memory { IfErr result (λ fault. fault ≡ F.OutOfMemory) }
        ensures left { self.new ≡ self.old }
    {
        match self {
            Page::Plain(filled) => filled.prefix(prefix),
            Page::Trivial(filled) => filled.prefix(prefix),
            Page::Rich(filled) => filled.prefix(prefix),
        }
    }

    /// How many bytes the prefix of headings of a level has. `None` where they pass `usize`.
    pub fn heading_length(&self, level: usize) -> Option<usize>
        requires { PageGoesOn self.now }
        ensures { IfSome result (λ n. length (page_prefix (header level) self.now) ≡ n) }
    {
        match self {
            Page::Plain(filled) => filled.heading_length(level),
            Page::Trivial(filled) => filled.heading_length(level),
            Page::Rich(filled) => filled.heading_length(level),
        }
    }

    /// Its lines, with the footnotes of its links after them. No level may be open, and no cell wait. It answers
    /// `TooNarrow` where the last run is too narrow, and `OutOfMemory` where memory is refused.
    pub fn into_lines(self) -> Result<Lines, Error>
        requires goes_on { PageGoesOn self }
        requires closed { IsPageClosed self }
        ensures lines { IfOk result (λ lines. page_end self ≡ Ok (encode_utf8_all (text_in lines.rest))) }
        ensures none_taken { IfOk result (λ lines. lines.current ≡ None) }
        ensures too_narrow { result ≡ Err Refusal.TooNarrow → page_end self ≡ Err unrun.TooNarrow }
    {
        Ok(Lines::new(match self {
            Page::Plain(filled) => Rest::Bare(VecDeque::from_vec(filled.into_lines()?)),
            Page::Trivial(filled) => Rest::Bare(VecDeque::from_vec(filled.into_lines()?)),
            Page::Rich(filled) => Rest::Rich(VecDeque::from_vec(filled.into_lines()?)),
        }))
    }

    /// Its text, with the footnotes of its links at the end. It asks and refuses as `into_lines` does.
    pub fn into_text(self) -> Result<String, Error>
        requires { PageGoesOn self }
        ensures text { IfOk result (λ text. page_end self ≡ Ok (string_bytes text)) }
        ensures too_narrow { result ≡ Err Refusal.TooNarrow → page_end self ≡ Err unrun.TooNarrow }
    {
        match self {
            Page::Plain(filled) => filled.into_text(),
            Page::Trivial(filled) => filled.into_text(),
            Page::Rich(filled) => filled.into_text(),
        }
    }
}

/// A program to which no command was given yet. It refuses only where memory is refused.
fn started<D: TextDecorator>(
    alloc: Global,
    opening: &Opening,
    decorator: D,
    raw: bool,
) -> Result<Filled<D>, Fault>
    requires width { 0 < opening.now.width }
    requires wrap_width { opening.now.options.wrap_width ≢ Some 0 }
    ensures filled { IfOk result (λ filled. filled
        ≡ record { program = begun opening.now decorator; raw = raw; texts = texts_of opening.now }) }
    ensures goes_on { IfOk result (λ filled. GoesOn filled.program) }
    ensures memory { IfErr result (λ fault. fault ≡ F.OutOfMemory) }
{
    let texts = Texts {
        decorator: opening.decorator,
        options: opening.options,
        links: 0,
    };
    match Program::new(alloc, opening.width, opening.options, decorator) {
        Ok(program) => Ok(Filled {
            program,
            raw,
            texts,
        }),
        Err(_) => Err(Fault::OutOfMemory),
    }
}

impl<D: TextDecorator> Filled<D> {
    /// Does what a command asks for. After `OutOfMemory` or `TooNarrow` it must not be used any more. Each other
    /// refusal leaves it as it was.
    fn run(&mut self, alloc: Global, command: &Command) -> Result<(), RunError>
        requires goes_on { GoesOn self.old.program }
        requires sized { IsSized (command_of command.now) }
        ensures goes_on { OnOk result (GoesOn self.new.program) }
        ensures done { let make = shown_made (decoration_of D.TextDecorator D.Annotation.tells) self.old.raw in
            OnOk result (make (command_of command.now) self.old.program ≡ Ok self.new.program) }
        ensures noted { OnOk result (self.new ≡ record self.old
            { program = self.new.program; texts = noted (command_of command.now) self.old.texts }) }
        ensures refused { let make = shown_made (decoration_of D.TextDecorator D.Annotation.tells) self.old.raw in
            IfErr result (λ e. e ≢ unrun.OutOfMemory →
            make (command_of command.now) self.old.program ≡ Err e) }
        ensures left { IfErr result (λ e. e ≢ unrun.OutOfMemory → e ≢ unrun.TooNarrow → self.new ≡ self.old) }
    {
        self.program.run_shown(alloc, 0, command, self.raw)?;
        self.texts.note(command);
        Ok(())
    }

    /// The same after what is recorded was drawn.
    fn drawn(self, alloc: Global, script: &TableScript) -> Result<Filled<D>, Error>
        requires { GoesOn self.program }
        ensures goes_on { IfOk result (λ after. GoesOn after.program) }
        ensures drawn { let made = drawing (decoration_of D.TextDecorator D.Annotation.tells) self.raw script.now in
            IfOk result (λ after. made self.program ≡ Ok after.program) }
        ensures noted { IfOk result (λ after. after
            ≡ record self { program = after.program; texts = script.now.texts }) }
        ensures refused { let made = drawing (decoration_of D.TextDecorator D.Annotation.tells) self.raw script.now in
            result ≡ Err Refusal.TooNarrow → made self.program ≡ Err unrun.TooNarrow }
    {
        let Filled {
            mut program,
            raw,
            ..
        } = self;
        draw(&mut program, alloc, raw, script)?;
        Ok(Filled {
            program,
            raw,
            texts: script.texts(),
        })
    }

    /// What it answers.
    fn facts(&self) -> Facts
        requires { GoesOn self.now.program }
        ensures facts { result ≡ facts_in self.now.program }
        ensures open { (0 < result.open_levels) ⊎ (0 < result.waiting_cells) →
            let end = ended unicode_columns (decoration_of D.TextDecorator D.Annotation.tells) 0 in
            end (shown_links self.now.raw self.now.program) ≡ Err (unrun.NotACommand 0) }
    {
        let top = self.program.top();
        Facts {
            width: top.width(),
            is_empty: top.empty(),
            has_overhang: top.has_overhang(),
            open_levels: self.program.open_levels(),
            open_links: self.program.open_links(),
            waiting_cells: self.program.waiting_cells(),
        }
    }

    /// The text of a prefix of the decorator. It refuses only where memory is refused, and changes nothing.
    fn prefix(&mut self, prefix: DecoratorPrefix) -> Result<String, Fault>
        requires { GoesOn self.old.program }
        ensures text { let program = self.old.program in IfOk result (λ text. string_bytes text
            ≡ encode_utf8_all (on_top [] (λ r. D.prefix_text r.decorator (asked_prefix prefix)) program.stack)) }
        ensures memory { IfErr result (λ fault. fault ≡ F.OutOfMemory) }
        ensures left { self.new ≡ self.old }
    {
        Ok(self.program.prefix(prefix)?)
    }

    /// The text. It refuses with `NotACommand` only where a level is open or cells wait.
    fn into_text(self) -> Result<String, Error>
        requires { GoesOn self.program }
        ensures text { let end = ended unicode_columns (decoration_of D.TextDecorator D.Annotation.tells) 0 in
            IfOk result (λ text. end (shown_links self.raw self.program) ≡ Ok (string_bytes text)) }
        ensures too_narrow { let end = ended unicode_columns (decoration_of D.TextDecorator D.Annotation.tells) 0 in
            result ≡ Err Refusal.TooNarrow → end (shown_links self.raw self.program) ≡ Err unrun.TooNarrow }
    {
        match self.program.finish(0, self.raw) {
            Ok(text) => Ok(text),
            Err(RunError::TooNarrow) => Err(Error::TooNarrow),
            Err(_) => Err(Error::OutOfMemory),
        }
    }

    /// The lines, where no level is open and no cell waits.
    fn into_lines(self) -> Result<Vec<RenderLine<Annotations<D::Annotation>>>, Error>
        requires goes_on { GoesOn self.program }
        requires opened { length self.program.opened ≡ 0 }
        requires cells { length self.program.pending.cells ≡ 0 }
        ensures lines { let end = ended unicode_columns (decoration_of D.TextDecorator D.Annotation.tells) 0 in
            IfOk result (λ lines. end (shown_links self.raw self.program)
            ≡ Ok (encode_utf8_all (flat_map line_text lines.items))) }
        ensures too_narrow { let end = ended unicode_columns (decoration_of D.TextDecorator D.Annotation.tells) 0 in
            result ≡ Err Refusal.TooNarrow → end (shown_links self.raw self.program) ≡ Err unrun.TooNarrow }
    {
        self.program.finish_lines(self.raw)
    }
}

impl<D: Headings> Filled<D> {
    /// How many bytes the prefix of headings of a level has. `None` where they pass `usize`.
    fn heading_length(&self, level: usize) -> Option<usize>
        requires { GoesOn self.now.program }
        ensures { let program = self.now.program in
            let text = on_top [] (λ r. D.prefix_text r.decorator (header level)) program.stack in
            IfSome result (λ n. length (encode_utf8_all text) ≡ n) }
    {
        heading_length::<D>(level)
    }
}
