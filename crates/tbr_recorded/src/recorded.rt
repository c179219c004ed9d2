//! The commands of a table that finds its widths.
ghost use Rattle.std.specs.Prelude.{◌≡◌, ◌++◌, ◌∷◌, [], None, Some, chars, IfOk, IfSome, OnOk};
ghost use Rattle.std.specs.List.{AllByRecursion as Each};
ghost use Rattle.std.specs.Option.{option_map};
ghost use Rattle.tbr_commands.specs.Command.{command_of as asked, IsSized};
ghost use Rattle.tbr_commands.specs.Request.{request_of};
ghost use Rattle.tbr_tables.specs.Laws.{IsSized as IsSizedCall, HasSize};
ghost use Rattle.tbr_tables.specs.Recorded.{calls_in, with_step};
ghost use Rattle.tbr_tables.specs.Ruler.{room_of};
ghost use Rattle.tbr_recorded.specs.Drawn.{given_at};
ghost use Rattle.tbr_recorded.specs.Script.{nothing, with_command, with_bare};
ghost use Rattle.tbr_recorded.specs.Steps.{command_for, step_of};
ghost use Rattle.tbr_recorded.specs.Texts.{written, request_text};

use crate::steps::{command_of, step_of};
use crate::texts::{Texts, no_text, opening_bracket, text_after, text_before};
use column_widths::Room;
use std::alloc::Global;
use std::marker::Model;
use tbr_commands::{Command, Request};
use tbr_model::CharWidth;
use tbr_tables::{Call, Drawn, Recording, Step};
use tbr_tagged::OutOfMemory;

/// What asked for a step.
#[derive(Debug, Drop)]
struct Entry {
    /// The line.
    line: usize,
    /// The command, if the step is one.
    command: Option<Command>,
}

/// What is recorded of a script from the beginning of a table to its end.
#[derive(Drop)]
pub struct TableScript {
    alloc: Global,
    texts: Texts,
    /// In a box, since a script is moved at each line.
    recording: Box<Recording>,
    /// One for each step.
    entries: Vec<Entry>,
}

impl Model for TableScript {
    ghost use Rattle.std.specs.Prelude.{map};
    ghost use Rattle.std.specs.List.{AllByRecursion as Each};
    ghost use Rattle.tbr_recorded.specs.Script.{TableScript, command_in, IsSizedIn};

    ghost Value = { TableScript };

    ghost view = { λ t. record {
      texts = t.texts;
      recorded = t.recording.value;
      commands = map command_in t.entries.items;
    } };

    ghost invariant = { λ t. Each (λ entry. IsSizedIn (command_in entry)) t.entries.items };
}

impl TableScript {
    /// Nothing, where this decides what commands write. It refuses only where memory is refused.
    pub fn begun(alloc: Global, texts: Texts) -> Result<TableScript, OutOfMemory>
        ensures { IfOk result (λ script. script ≡ nothing texts) }
    {
        let wrap = texts.options.wrap_width.unwrap_or(usize::MAX);
        Ok(TableScript {
            alloc,
            texts,
            recording: Box::new(alloc, Recording::begun(alloc, wrap))?,
            entries: Vec::new(alloc),
        })
    }

    /// A command of a line comes. It refuses where memory is refused, and where a size passes `usize`; what is recorded
    /// must not be used any longer then. So it is of the next call.
    pub fn add_command<W: CharWidth>(
        &mut self,
        line: usize,
        command: Command,
    ) -> Result<(), OutOfMemory>
        requires { IsSized (asked command) }
        ensures { OnOk result (self.new ≡ with_command W.columns (asked command) self.old) }
    {
        self.texts.note(&command);
        self.record::<W>(&command)?;
        self.keep(line, Some(command))
    }

    /// A step of a line comes that is no command.
    pub fn add_step<W: CharWidth>(&mut self, line: usize, step: Step) -> Result<(), OutOfMemory>
        ensures { OnOk result (self.new ≡ with_bare W.columns step self.old) }
    {
        self.record_step::<W>(step, no_text())?;
        self.keep(line, None)
    }

    /// Keeps what asked for a step.
    fn keep(&mut self, line: usize, command: Option<Command>) -> Result<(), OutOfMemory>
        requires { IfSome command (λ c. IsSized (asked c)) }
        ensures { OnOk result
            (self.new ≡ record self.old { commands = self.old.commands ++ option_map asked command ∷ [] }) }
    {
        self.entries.push(Entry { line, command })?;
        Ok(())
    }

    /// Records a command with its text.
    fn record<W: CharWidth>(&mut self, command: &Command) -> Result<(), OutOfMemory>
        ensures { let asks = asked command.now in
            OnOk result (self.new ≡ record self.old {
              recorded =
                  with_step W.columns self.old.recorded (step_of W.columns asks) (written self.old.texts asks);
            }) }
    {
        let step = step_of::<W>(command)?;
        match command {
            Command::Ask(request) => self.record_request::<W>(step, request),
            Command::Link(_) => {
                let text = opening_bracket(self.texts.decorator);
                self.record_step::<W>(step, text)
            }
            Command::EndLink => {
                let text = self.texts.after_link(self.alloc)?;
                self.record_step::<W>(step, text.as_str())
            }
            Command::Sub(_)
            | Command::Append(_)
            | Command::Cell(_)
            | Command::EndCell
            | Command::Row { .. }
            | Command::VerticalRow => self.record_step::<W>(step, no_text()),
        }
    }

    /// Records a step with the text of a request.
    fn record_request<W: CharWidth>(
        &mut self,
        step: Step,
        request: &Request,
    ) -> Result<(), OutOfMemory>
        ensures { OnOk result (self.new ≡ record self.old {
          recorded =
              with_step W.columns self.old.recorded step (request_text self.old.texts (request_of request.now));
        }) }
    {
        match request {
            Request::Text(text) => self.record_step::<W>(step, text.as_str()),
            Request::Begin(what) => self.record_step::<W>(step, text_before(*what)),
            Request::End(what) => self.record_step::<W>(step, text_after(*what)),
            Request::Image(image) => {
                let (source, title) = (image.first.as_str(), image.second.as_str());
                let text = self.texts.image(self.alloc, source, title)?;
                self.record_step::<W>(step, text.as_str())
            }
            Request::Layout(_)
            | Request::Fragment(_)
            | Request::Colour(_)
            | Request::Background(_)
            | Request::Border(_) => self.record_step::<W>(step, no_text()),
        }
    }

    /// Records a step with its text.
    fn record_step<W: CharWidth>(&mut self, step: Step, text: &str) -> Result<(), OutOfMemory>
        ensures { OnOk result (self.new ≡ record self.old {
          recorded = with_step W.columns self.old.recorded step (chars text.now);
        }) }
    {
        self.recording.add::<W>(step, text)
    }

    /// What decides what commands write.
    pub fn texts(&self) -> Texts
        ensures { result ≡ self.now.texts }
    {
        self.texts
    }

    /// The columns of the longest word and of the widest line of the innermost level that is open.
    pub fn room(&self) -> Room
        ensures { result ≡ room_of self.now.recorded.measured.level.ruler }
    {
        self.recording.room()
    }

    /// The calls that draw it in so many columns. It refuses where memory is refused, and where a size passes `usize`.
    pub fn draw(&self, room: usize) -> Result<Vec<Drawn>, OutOfMemory>
        ensures calls { IfOk result (λ calls. calls.items ≡ calls_in room self.now.recorded) }
        ensures sized { IfOk result (λ calls. Each IsSizedCall calls.items) }
    {
        self.recording.draw(room)
    }

    /// The line of a step, or 0 where there is none.
    pub fn line(&self, step: usize) -> usize {
        match self.entries.get(step) {
            Some(entry) => entry.line,
            None => 0,
        }
    }

    /// The command that a step itself is, if it is one.
    pub fn given(&self, step: usize) -> Option<&Command>
        ensures given { option_map (λ c. asked c.now) result ≡ given_at step self.now.commands }
        ensures sized { IfSome result (λ c. IsSized (asked c.now)) }
    {
        self.entries.get(step)?.command.as_ref()
    }

    /// The command that another call is.
    pub fn command_of(&self, call: Call) -> Option<Command>
        ensures command { option_map asked result ≡ command_for self.now.texts.options.draw_borders call }
        ensures sized { HasSize call → IfSome result (λ command. IsSized (asked command)) }
    {
        command_of(self.alloc, self.texts.options.draw_borders, call)
    }
}
