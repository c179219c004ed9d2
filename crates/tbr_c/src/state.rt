//! The state of a renderer that C holds: filled, finished or refused.
ghost use Rattle.std.specs.Prelude.{◌≡◌, ◌≢◌, ◌<◌, ◌⊎◌, None, Some, Ok, Err, IfOk, IfErr, IfSome, OnOk, MatchResult, string_bytes};
ghost use Rattle.tbr_tagged.specs.declared.Error.TheVariants as Refusal;
ghost use Rattle.tbr_decor.specs.Prefix.{asked_prefix};
ghost use Rattle.tbr_commands.specs.Command.{command_of, IsSized};
ghost use Rattle.tbr_c_lines.specs.Copied.{CopiesMade};
ghost use Rattle.tbr_c_lines.specs.Formats.{CopiesShown};
ghost use Rattle.tbr_c_lines.specs.Status.{status_of};
ghost use Rattle.tbr_c.specs.Page.{new_page};
ghost use Rattle.tbr_c.specs.State.{CanGoOn, MayFinish, kept, after_refusal, HasEnded, refused_as, command_made, call_made, drawn_in, IsFilled, IsTable, end_of, EndsIn, lines_in, TakesLine};
ghost use Rattle.tbr_c.specs.State.{HasNoNext};
ghost use Rattle.tbr_c.specs.Questions.{facts_of, levels_of, room_in, width_left, prefix_of, Needs, rest_of, rest_to_show, line_as};
ghost use Rattle.tbr_c.specs.declared.state.State.TheVariants as S;
ghost use Rattle.tbr_c_lines.specs.declared.fault.Fault.TheVariants as F;

use crate::page::{Facts, Page};
use crate::table::{OpenTable, misplaced};
use column_widths::Room;
use std::alloc::Global;
use std::mem;
use tbr_c_lines::{Fault, Format, LineSize, Lines, of_command};
use tbr_c_tables::TableCall;
use tbr_commands::{Command, Opening};
use tbr_decor::DecoratorPrefix;
use tbr_tagged::Error;

/// The state of a renderer.
#[derive(Drop)]
pub enum State {
    /// Calls go into it.
    Filled(Page),
    /// Calls are recorded for a table.
    Table(OpenTable),
    /// It is finished, and lines can be taken.
    Finished(Lines),
    /// It failed, since a call has refused.
    Refused(Error),
}

impl State {
    /// A renderer without text, which is `raw` or not. It refuses only where memory is refused.
    pub fn new(alloc: Global, opening: Opening, raw: bool) -> Result<State, Fault>
        requires width { 0 < opening.width }
        requires wrap_width { opening.options.wrap_width ≢ Some 0 }
        ensures goes_on { IfOk result (λ state. CanGoOn state) }
        ensures new { IfOk result (λ state. state ≡ S.Filled (new_page opening raw)) }
        ensures memory { IfErr result (λ fault. fault ≡ F.OutOfMemory) }
    {
        Ok(State::Filled(Page::new(alloc, opening, raw)?))
    }

    /// Does what a command asks for. After `OutOfMemory` or `TooNarrow` it must not be used any more. Each other
    /// refusal leaves it as it was.
    pub fn run(&mut self, alloc: Global, command: Command) -> Result<(), Fault>
        requires goes_on { CanGoOn self.old }
        requires sized { IsSized (command_of command) }
        ensures goes_on { OnOk result (CanGoOn self.new) }
        ensures done { OnOk result (command_made (command_of command) self.old ≡ Ok self.new) }
        ensures refused { IfErr result (λ fault. fault ≢ F.OutOfMemory →
            command_made (command_of command) self.old ≡ Err fault) }
        ensures left { IfErr result (λ fault. kept fault ≡ None → self.new ≡ self.old) }
        ensures ended { HasEnded self.old result }
    {
        match self {
            State::Filled(page) => match page.run(alloc, &command) {
                Ok(()) => Ok(()),
                Err(e) => Err(of_command(e)),
            },
            State::Table(table) => table.given.run(command),
            State::Finished(_) => Err(Fault::Finished),
            State::Refused(e) => Err(Fault::from(*e)),
        }
    }

    /// Does a call of a table, and draws the outermost at its end. It refuses as `run` does.
    pub fn call_table(&mut self, alloc: Global, call: TableCall) -> Result<(), Fault>
        requires { CanGoOn self.old }
        ensures goes_on { OnOk result (CanGoOn self.new) }
        ensures done { OnOk result (call_made call self.old ≡ Ok self.new) }
        ensures refused { IfErr result (λ fault. fault ≢ F.OutOfMemory → call_made call self.old ≡ Err fault) }
        ensures left { IfErr result (λ fault. kept fault ≡ None → self.new ≡ self.old) }
        ensures ended { HasEnded self.old result }
    {
        match self {
            State::Filled(_) => self.start_table(alloc, call),
            State::Table(table) => {
                let is_over = table.call(call)?;
                if is_over { self.draw(alloc) } else { Ok(()) }
            }
            State::Finished(_) => Err(Fault::Finished),
            State::Refused(e) => Err(Fault::from(*e)),
        }
    }

    /// Begins a table where none is open, if that is what a call does.
    fn start_table(&mut self, alloc: Global, call: TableCall) -> Result<(), Fault>
        requires filled { IsFilled self.old }
        requires goes_on { CanGoOn self.old }
        ensures goes_on { OnOk result (CanGoOn self.new) }
        ensures done { OnOk result (call_made call self.old ≡ Ok self.new) }
        ensures refused { IfErr result (λ fault. fault ≢ F.OutOfMemory → call_made call self.old ≡ Err fault) }
        ensures left { IfErr result (λ fault. kept fault ≡ None → self.new ≡ self.old) }
    {
        let facts = self.facts()?;
        if let Some(fault) = misplaced(facts, call) {
            return Err(fault);
        }
        match mem::replace(self, State::Refused(Error::OutOfMemory)) {
            State::Filled(page) => *self = State::Table(OpenTable::begun(alloc, page)?),
            State::Table(_) | State::Finished(_) | State::Refused(_) => unreachable!(),
        }
        Ok(())
    }

    /// Draws the table that has ended.
    fn draw(&mut self, alloc: Global) -> Result<(), Fault>
        requires table { IsTable self.old }
        requires goes_on { CanGoOn self.old }
        ensures goes_on { OnOk result (CanGoOn self.new) }
        ensures drawn { OnOk result (drawn_in self.old ≡ Ok self.new) }
        ensures refused { IfErr result (λ fault. fault ≢ F.OutOfMemory → drawn_in self.old ≡ Err fault) }
        ensures kept { IfErr result (λ fault. kept fault ≢ None) }
    {
        match mem::replace(self, State::Refused(Error::OutOfMemory)) {
            State::Table(OpenTable { page, given }) => {
                *self = State::Filled(page.drawn(alloc, given.script())?);
                Ok(())
            }
            State::Filled(_) | State::Finished(_) | State::Refused(_) => unreachable!(),
        }
    }

    /// The refusal of arguments that are no command: `fault`, unless the renderer is finished or failed.
    pub fn refused_as(&self, fault: Fault) -> Fault
        ensures { result ≡ refused_as self.now fault }
    {
        match self {
            State::Finished(_) => Fault::Finished,
            State::Refused(e) => Fault::from(*e),
            _ => fault,
        }
    }

    /// What it answers while it is filled. A finished renderer answers `Finished`, and a failed one its kept refusal.
    pub fn facts(&self) -> Result<Facts, Fault>
        requires { CanGoOn self.now }
        ensures facts { result ≡ facts_of self.now }
        ensures ended { HasEnded self.now result }
        ensures closed { IfOk result (λ facts. facts.open_levels ≡ 0 → facts.waiting_cells ≡ 0 → MayFinish self.now) }
        ensures open { IfOk result (λ facts. (0 < facts.open_levels) ⊎ (0 < facts.waiting_cells) →
            end_of self.now ≡ Err F.StillOpen) }
        ensures refused { IfErr result (λ fault. end_of self.now ≡ Err fault) }
        ensures left { IfErr result (λ fault. self.now ≡ after_refusal fault self.now) }
    {
        match self {
            State::Filled(page) => Ok(page.facts()),
            State::Table(_) => Err(Fault::InTable),
            State::Finished(_) => Err(Fault::Finished),
            State::Refused(e) => Err(Fault::from(*e)),
        }
    }

    /// How many levels are open, and in a table how many parts of it too.
    pub fn open_levels(&self) -> Result<usize, Fault>
        ensures { result ≡ levels_of self.now }
    {
        match self {
            State::Filled(page) => Ok(page.open_levels()),
            State::Table(table) => Ok(table.open_levels()),
            State::Finished(_) => Err(Fault::Finished),
            State::Refused(e) => Err(Fault::from(*e)),
        }
    }

    /// The columns of the longest word and of the widest line that came in the innermost part of a table. `NoTable`
    /// where none is open, and `InTable` outside of its cells.
    pub fn room(&self) -> Result<Room, Fault>
        ensures { result ≡ room_in self.now }
    {
        match self {
            State::Filled(_) => Err(Fault::NoTable),
            State::Table(table) => table.given.room(),
            State::Finished(_) => Err(Fault::Finished),
            State::Refused(e) => Err(Fault::from(*e)),
        }
    }

    /// The columns of the innermost level that are left after a prefix of `prefix` columns, but at least `least`. It
    /// answers `TooNarrow` where fewer are left and lines may not be wider, and otherwise refuses as `facts` does.
    pub fn width_minus(&self, prefix: usize, least: usize) -> Result<usize, Fault>
        requires { CanGoOn self.now }
        ensures { result ≡ width_left prefix least self.now }
    {
        match self {
            State::Filled(page) => page.width_minus(prefix, least),
            State::Table(_) => Err(Fault::InTable),
            State::Finished(_) => Err(Fault::Finished),
            State::Refused(e) => Err(Fault::from(*e)),
        }
    }

    /// The text of a prefix of the decorator. It refuses as `facts` does, and where memory is refused.
    pub fn prefix(&mut self, prefix: DecoratorPrefix) -> Result<String, Fault>
        requires { CanGoOn self.old }
        ensures text { IfOk result (λ text. prefix_of (asked_prefix prefix) self.old ≡ Ok (string_bytes text)) }
        ensures refused { IfErr result (λ f. f ≢ F.OutOfMemory → prefix_of (asked_prefix prefix) self.old ≡ Err f) }
        ensures left { self.new ≡ self.old }
    {
        match self {
            State::Filled(page) => page.prefix(prefix),
            State::Table(table) => table.page.prefix(prefix),
            State::Finished(_) => Err(Fault::Finished),
            State::Refused(e) => Err(Fault::from(*e)),
        }
    }

    /// How many bytes a prefix has, where that is known before it is made, as for headings. `None` also where they pass
    /// `usize`, and where the renderer can no longer be filled.
    pub fn length_ahead(&self, prefix: DecoratorPrefix) -> Option<usize>
        requires { CanGoOn self.now }
        ensures { IfSome result (λ n. Needs (prefix_of (asked_prefix prefix) self.now) n) }
    {
        let DecoratorPrefix::Header(level) = prefix else {
            return None;
        };
        match self {
            State::Filled(page) => page.heading_length(level),
            State::Table(_) | State::Finished(_) | State::Refused(_) => None,
        }
    }

    /// Its lines, with the footnotes of its links after them. It must be filled, with no level open and no cell
    /// waiting. It answers `TooNarrow` where the last run is too narrow, and `OutOfMemory` where memory is refused.
    pub fn into_lines(self) -> Result<Lines, Error>
        requires goes_on { CanGoOn self }
        requires closed { MayFinish self }
        ensures lines { IfOk result (λ lines. EndsIn self (S.Finished lines)) }
        ensures too_narrow { result ≡ Err Refusal.TooNarrow → end_of self ≡ Err F.TooNarrow }
    {
        match self {
            State::Filled(page) => page.into_lines(),
            State::Table(_) | State::Finished(_) | State::Refused(_) => unreachable!(),
        }
    }

    /// Its text, with the footnotes of its links at the end. It asks and refuses as `into_lines` does.
    pub fn into_text(self) -> Result<String, Error>
        requires goes_on { CanGoOn self }
        requires closed { MayFinish self }
        ensures text { IfOk result (λ text. end_of self ≡ Ok (string_bytes text)) }
        ensures too_narrow { result ≡ Err Refusal.TooNarrow → end_of self ≡ Err F.TooNarrow }
    {
        match self {
            State::Filled(page) => page.into_text(),
            State::Table(_) | State::Finished(_) | State::Refused(_) => unreachable!(),
        }
    }

    /// The lines. It answers `NotFinished` where the renderer isn't finished.
    pub fn lines(&self) -> Result<&Lines, Fault>
        ensures { MatchResult result (λ lines. lines_in self.now ≡ Ok lines.now) (λ f. lines_in self.now ≡ Err f) }
    {
        match self {
            State::Finished(lines) => Ok(lines),
            State::Refused(e) => Err(Fault::from(*e)),
            _ => Err(Fault::NotFinished),
        }
    }

    /// Copies the text of all lines that weren't taken, each with a newline, as `copy_out` does. It answers
    /// `NotFinished` where the renderer isn't finished. It also refuses where memory is refused.
    pub fn copy_text(
        &mut self,
        alloc: Global,
        out: &mut [u8],
        needed: &mut usize,
    ) -> Result<(), Fault>
        requires { CanGoOn self.old }
        ensures text { CopiesMade (rest_of self.old) out.old out.new needed.old needed.new (status_of result) }
        ensures none { IfErr (rest_of self.old) (λ f. result ≡ Err f) }
        ensures left { self.new ≡ self.old }
    {
        match self {
            State::Finished(lines) => lines.copy_text(alloc, out, needed),
            State::Refused(e) => Err(Fault::from(*e)),
            _ => Err(Fault::NotFinished),
        }
    }

    /// Copies all lines that weren't taken in a format, each with a newline, as `copy_out` does. It answers
    /// `NotFinished` where the renderer isn't finished, and `NoLine` where there is only its text. It also refuses
    /// where memory is refused.
    pub fn copy_shown(
        &mut self,
        alloc: Global,
        format: Format,
        out: &mut [u8],
        needed: &mut usize,
    ) -> Result<(), Fault>
        requires { CanGoOn self.old }
        ensures shown { CopiesShown format (rest_to_show self.old)
            out.old out.new needed.old needed.new (status_of result) }
        ensures none { IfErr (rest_to_show self.old) (λ f. result ≡ Err f) }
        ensures left { self.new ≡ self.old }
    {
        match self {
            State::Finished(lines) => lines.copy_shown(alloc, format, out, needed),
            State::Refused(e) => Err(Fault::from(*e)),
            _ => Err(Fault::NotFinished),
        }
    }

    /// Copies the line that was taken last in a format, without a newline, as `copy_out` does. It answers `NotFinished`
    /// where the renderer isn't finished, and `NoLine` where none was taken. It also refuses where memory is refused.
    pub fn copy_current(
        &self,
        alloc: Global,
        format: Format,
        out: &mut [u8],
        needed: &mut usize,
    ) -> Result<(), Fault>
        ensures shown { CopiesMade (line_as format self.now)
            out.old out.new needed.old needed.new (status_of result) }
        ensures none { IfErr (line_as format self.now) (λ f. result ≡ Err f) }
    {
        match self {
            State::Finished(lines) => lines.copy_current(alloc, format, out, needed),
            State::Refused(e) => Err(Fault::from(*e)),
            _ => Err(Fault::NotFinished),
        }
    }

    /// Takes the next line, and answers its size. It answers `NotFinished` where the renderer isn't finished, and
    /// `NoLine` where none is left.
    pub fn next_line(&mut self, alloc: Global) -> Result<LineSize, Fault>
        requires { CanGoOn self.old }
        ensures taken { IfOk result (λ size. TakesLine self.old self.new size) }
        ensures none { IfErr result (λ fault. fault ≢ F.OutOfMemory →
            HasNoNext self.old fault × (self.new ≡ self.old)) }
        ensures goes_on { CanGoOn self.new }
    {
        match self {
            State::Finished(lines) => lines.next(alloc),
            State::Refused(e) => Err(Fault::from(*e)),
            _ => Err(Fault::NotFinished),
        }
    }

    /// Keeps a refusal, if it is one that is kept: `OutOfMemory` or `TooNarrow`.
    pub fn keep<T: Drop>(&mut self, done: Result<T, Fault>) -> Result<T, Fault>
        requires { MatchResult done (λ _. CanGoOn self.old) (λ fault. kept fault ≡ None → CanGoOn self.old) }
        ensures goes_on { CanGoOn self.new }
        ensures done { result ≡ done }
        ensures left { MatchResult done (λ _. self.new ≡ self.old) (λ f. self.new ≡ after_refusal f self.old) }
    {
        match done {
            Err(Fault::OutOfMemory) => *self = State::Refused(Error::OutOfMemory),
            Err(Fault::TooNarrow) => *self = State::Refused(Error::TooNarrow),
            _ => {}
        }
        done
    }
}
