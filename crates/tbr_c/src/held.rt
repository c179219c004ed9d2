//! What C holds.
ghost use Rattle.std.specs.Prelude.{◌≡◌, ◌≢◌, ◌<◌, ℕ, List, None, Some, Result, Ok, Err, IfOk, IfErr, IfSome, OnOk, MatchResult, string_bytes};
ghost use Rattle.tbr_c.specs.Answers.{IsAnswer, IsEnd, HasLength, IsNext};
ghost use Rattle.tbr_c.specs.Arguments.{Reads};
ghost use Rattle.tbr_c.specs.State.{CanGoOn, MayFinish, EndsIn, command_made, call_made, after_refusal};
ghost use Rattle.tbr_c.specs.Page.{new_page};
ghost use Rattle.tbr_c.specs.Questions.{facts_of, levels_of, room_in, width_left, prefix_of, Needs, refusal_of, line_taken, rest_of, rest_to_show, line_as};
ghost use Rattle.tbr_c.specs.declared.state.State.TheVariants as S;
ghost use Rattle.tbr_decor.specs.Prefix.{asked_prefix};
ghost use Rattle.tbr_c_lines.specs.Copied.{CopiesMade};
ghost use Rattle.tbr_c_lines.specs.Formats.{CopiesShown};
ghost use Rattle.tbr_c_lines.specs.Status.{fault_of, status_of};
ghost use Rattle.tbr_c_lines.specs.declared.fault.Fault.{Fault as Refusal};
ghost use Rattle.tbr_c_lines.specs.declared.fault.Fault.TheVariants as F;
ghost use Rattle.tbr_commands.specs.Command.{Command as Asked, command_of, IsSized};

use crate::page::Facts;
use crate::state::State;
use column_widths::Room;
use std::alloc::Global;
use std::marker::Model;
use std::mem;
use tbr_c_lines::{Fault, Format, Line, LineSize, Lines, Rest};
use tbr_c_tables::TableCall;
use tbr_commands::{Command, Opening};
use tbr_decor::DecoratorPrefix;
use tbr_tagged::Error;

/// A renderer that C fills, then finishes, and then takes lines of.
#[derive(Drop)]
pub struct Held {
    alloc: Global,
    state: State,
}

impl Model for Held {
    ghost use Rattle.tbr_c.specs.declared.state.State.{State};

    ghost Value = { State };

    ghost view = { λ h. h.state };

    ghost use Rattle.tbr_c.specs.State.{CanGoOn};

    ghost invariant = { λ h. CanGoOn h.state };
}

impl Held {
    /// A renderer without text, which is `raw` or not. It refuses only where memory is refused.
    pub fn new(alloc: Global, opening: Opening, raw: bool) -> Result<Held, Fault>
        requires width { 0 < opening.width }
        requires wrap_width { opening.options.wrap_width ≢ Some 0 }
        ensures new { IfOk result (λ held. held ≡ S.Filled (new_page opening raw)) }
        ensures memory { IfErr result (λ fault. fault ≡ F.OutOfMemory) }
    {
        let state = State::new(alloc, opening, raw)?;
        Ok(Held { alloc, state })
    }

    /// Does what the arguments ask for, or refuses them if they are no command.
    ///
    /// `OutOfMemory` and `TooNarrow` are kept, and each other refusal leaves the renderer as it was. A renderer that
    /// keeps a refusal answers that, and a finished one answers `Finished`.
    pub fn run(&mut self, read: Result<Command, Fault>) -> Result<(), Fault>
        requires { IfOk read (λ command. IsSized (command_of command)) }
        ensures { (asked : Result Asked Refusal) → Reads command_of asked read →
            IsAnswer command_made self.old asked result self.new }
    {
        let done = match read {
            Ok(command) => self.state.run(self.alloc, command),
            Err(fault) => Err(self.state.refused_as(fault)),
        };
        self.state.keep(done)
    }

    /// Does the call of a table that arguments ask for, or refuses those that are none. It refuses as `run` does.
    pub fn call_table(&mut self, read: Result<TableCall, Fault>) -> Result<(), Fault>
        ensures { IsAnswer call_made self.old read result self.new }
    {
        let done = match read {
            Ok(call) => self.state.call_table(self.alloc, call),
            Err(fault) => Err(self.state.refused_as(fault)),
        };
        self.state.keep(done)
    }

    /// Ends the last line. The lines can then be taken.
    ///
    /// It answers `StillOpen` where a level is open or cells wait, and otherwise refuses as `run` does.
    pub fn finish(&mut self) -> Result<(), Fault>
        ensures lines { OnOk result (EndsIn self.old self.new) }
        ensures end { IsEnd self.old result self.new }
    {
        match self.take_closed()?.into_lines() {
            Ok(lines) => {
                self.state = State::Finished(lines);
                Ok(())
            }
            Err(e) => Err(self.refuse(e)),
        }
    }

    /// Ends the last line. The text of all lines can then be taken, but no single line. It answers how many bytes the
    /// text has.
    ///
    /// It refuses as `finish` does.
    pub fn finish_text(&mut self) -> Result<usize, Fault>
        ensures text { IfOk result (λ count. HasLength self.old self.new count) }
        ensures end { IsEnd self.old result self.new }
    {
        match self.take_closed()?.into_text() {
            Ok(text) => {
                let count = text.len();
                self.state = State::Finished(Lines::new(Rest::Text(text)));
                Ok(count)
            }
            Err(e) => Err(self.refuse(e)),
        }
    }

    /// Takes what is filled. It answers `StillOpen` where a level is open or a cell waits, and otherwise refuses as
    /// `run` does.
    fn take_closed(&mut self) -> Result<State, Fault>
        ensures taken { IfOk result (λ state. (state ≡ self.old) × CanGoOn state × MayFinish state) }
        ensures left { IfErr result (λ _. self.new ≡ self.old) }
        ensures end { IsEnd self.old result self.new }
    {
        let facts = self.state.facts()?;
        if facts.open_levels > 0 || facts.waiting_cells > 0 {
            return Err(Fault::StillOpen);
        }
        Ok(mem::replace(&mut self.state, State::Refused(Error::OutOfMemory)))
    }

    /// Keeps a refusal.
    fn refuse(&mut self, e: Error) -> Fault
        ensures refusal { result ≡ fault_of e }
        ensures kept { self.new ≡ S.Refused e }
    {
        self.state = State::Refused(e);
        Fault::from(e)
    }

    /// Answers the refusal that is kept, if there is one.
    pub fn refusal(&self) -> Result<(), Fault>
        ensures { result ≡ refusal_of self.now }
    {
        match &self.state {
            State::Refused(e) => Err(Fault::from(*e)),
            _ => Ok(()),
        }
    }

    /// What it answers while it is filled. A finished renderer answers `Finished`, and a failed one its kept refusal.
    /// If this or one of the questions below refuses, the refusal isn't kept.
    pub fn facts(&self) -> Result<Facts, Fault>
        ensures { result ≡ facts_of self.now }
    {
        self.state.facts()
    }

    /// How many levels are open, and in a table how many parts of it too.
    pub fn open_levels(&self) -> Result<usize, Fault>
        ensures { result ≡ levels_of self.now }
    {
        self.state.open_levels()
    }

    /// The columns of the longest word and of the widest line that came in the innermost part of a table.
    pub fn room(&self) -> Result<Room, Fault>
        ensures { result ≡ room_in self.now }
    {
        self.state.room()
    }

    /// The columns of the innermost level that are left after a prefix of `prefix` columns, but at least `least`. It
    /// answers `TooNarrow` where fewer are left and lines may not be wider, and otherwise refuses as `facts` does.
    pub fn width_minus(&self, prefix: usize, least: usize) -> Result<usize, Fault>
        ensures { result ≡ width_left prefix least self.now }
    {
        self.state.width_minus(prefix, least)
    }

    /// The text of a prefix of the decorator. It refuses as `facts` does, and where memory is refused.
    pub fn prefix(&mut self, prefix: DecoratorPrefix) -> Result<String, Fault>
        ensures text { IfOk result (λ text. prefix_of (asked_prefix prefix) self.old ≡ Ok (string_bytes text)) }
        ensures refused { IfErr result (λ f. f ≢ F.OutOfMemory → prefix_of (asked_prefix prefix) self.old ≡ Err f) }
        ensures left { self.new ≡ self.old }
    {
        self.state.prefix(prefix)
    }

    /// How many bytes a prefix has, where that is known before it is made, as for headings. `None` also where they pass
    /// `usize`, and where the renderer can no longer be filled.
    pub fn length_ahead(&self, prefix: DecoratorPrefix) -> Option<usize>
        ensures { IfSome result (λ n. Needs (prefix_of (asked_prefix prefix) self.now) n) }
    {
        self.state.length_ahead(prefix)
    }

    /// Takes the next line, and answers its size. It answers `NotFinished` where the renderer isn't finished, and
    /// `NoLine` where none is left. `OutOfMemory` is kept.
    pub fn next_line(&mut self) -> Result<LineSize, Fault>
        ensures { IsNext self.old result self.new }
    {
        let size = self.state.next_line(self.alloc);
        self.state.keep(size)
    }

    /// The line that was taken last. It answers `NotFinished` where the renderer isn't finished, and `NoLine` where
    /// none was taken.
    pub fn line(&self) -> Result<&Line, Fault>
        ensures { MatchResult result (λ line. line_taken self.now ≡ Ok line.now) (λ f. line_taken self.now ≡ Err f) }
    {
        self.state.lines()?.current()
    }

    /// Copies the text of all lines that weren't taken, each with a newline, as `copy_out` does. It answers
    /// `NotFinished` where the renderer isn't finished. `OutOfMemory` is kept.
    pub fn copy_text(&mut self, out: &mut [u8], needed: &mut usize) -> Result<(), Fault>
        ensures text { CopiesMade (rest_of self.old) out.old out.new needed.old needed.new (status_of result) }
        ensures none { IfErr (rest_of self.old) (λ f. result ≡ Err f) }
        ensures left { MatchResult result (λ _. self.new ≡ self.old) (λ f. self.new ≡ after_refusal f self.old) }
    {
        let done = self.state.copy_text(self.alloc, out, needed);
        self.state.keep(done)
    }

    /// Copies all lines that weren't taken in a format, each with a newline, as `copy_out` does. It answers
    /// `NotFinished` where the renderer isn't finished, and `NoLine` where there is only its text. `OutOfMemory` is
    /// kept.
    pub fn copy_shown(
        &mut self,
        format: Format,
        out: &mut [u8],
        needed: &mut usize,
    ) -> Result<(), Fault>
        ensures shown { CopiesShown format (rest_to_show self.old)
            out.old out.new needed.old needed.new (status_of result) }
        ensures none { IfErr (rest_to_show self.old) (λ f. result ≡ Err f) }
        ensures left { MatchResult result (λ _. self.new ≡ self.old) (λ f. self.new ≡ after_refusal f self.old) }
    {
        let done = self.state.copy_shown(self.alloc, format, out, needed);
        self.state.keep(done)
    }

    /// Copies the line that was taken last in a format, without a newline, as `copy_out` does. It answers `NotFinished`
    /// where the renderer isn't finished, and `NoLine` where none was taken. `OutOfMemory` is kept.
    pub fn copy_current(
        &mut self,
        format: Format,
        out: &mut [u8],
        needed: &mut usize,
    ) -> Result<(), Fault>
        ensures shown { CopiesMade (line_as format self.old)
            out.old out.new needed.old needed.new (status_of result) }
        ensures none { IfErr (line_as format self.old) (λ f. result ≡ Err f) }
        ensures left { MatchResult result (λ _. self.new ≡ self.old) (λ f. self.new ≡ after_refusal f self.old) }
    {
        let done = self.state.copy_current(self.alloc, format, out, needed);
        self.state.keep(done)
    }
}
