//! The parts of a table that are open.
ghost use Rattle.std.specs.Prelude.{◌≡◌, ◌∷◌, [], Ok, length, OnOk};
ghost use Rattle.tbr_commands.specs.Command.{command_of};
ghost use Rattle.tbr_c_tables.specs.Open.{opened, in_first, in_innermost, takes, takes_call, noted, noted_in, waiting, closed, after_call};

use crate::open_part::{OpenPart, Opener};
use crate::table_call::TableCall;
use std::alloc::{AllocError, Global};
use std::marker::Model;
use tbr_c_lines::Fault;
use tbr_commands::Command;
use tbr_tagged::OutOfMemory;

/// The parts that are open.
#[derive(Drop)]
pub struct OpenParts {
    /// The innermost comes last.
    parts: Vec<OpenPart>,
}

impl Model for OpenParts {
    ghost use Rattle.std.specs.Prelude.{List, reverse};
    ghost use Rattle.tbr_c_tables.specs.declared.open_part.OpenPart.{OpenPart};

    ghost Value = { List OpenPart };

    ghost view = { λ o. reverse o.parts.items };
}

impl OpenParts {
    /// None.
    pub fn none(alloc: Global) -> OpenParts
        ensures { result ≡ [] }
    {
        OpenParts {
            parts: Vec::new(alloc),
        }
    }

    /// How many are open.
    pub fn len(&self) -> usize
        ensures { result ≡ length self.now }
    {
        self.parts.len()
    }

    /// The innermost. `NoTable` where none is open.
    pub fn innermost(&self) -> Result<OpenPart, Fault>
        ensures { result ≡ in_innermost (λ part. Ok part) self.now }
    {
        match self.parts.last() {
            Some(part) => Ok(*part),
            None => Err(Fault::NoTable),
        }
    }

    /// Whether the innermost takes a command, as that says. `NoTable` where none is open.
    pub fn takes(&self, command: &Command) -> Result<(), Fault>
        ensures { result ≡ in_innermost (takes (command_of command.now)) self.now }
    {
        match self.parts.last() {
            Some(part) => part.takes(command),
            None => Err(Fault::NoTable),
        }
    }

    /// The same of a call of a table.
    pub fn takes_call(&self, call: TableCall) -> Result<(), Fault>
        ensures { result ≡ in_innermost (takes_call call) self.now }
    {
        match self.parts.last() {
            Some(part) => part.takes_call(call),
            None => Err(Fault::NoTable),
        }
    }

    /// A part opens.
    fn open(&mut self, by: Opener) -> Result<(), AllocError>
        ensures { OnOk result (self.new ≡ opened by ∷ self.old) }
    {
        self.parts.push(OpenPart::opened(by))?;
        Ok(())
    }

    /// The innermost closes, if one is open.
    fn close(&mut self)
        ensures { self.new ≡ closed self.old }
    {
        let _ = self.parts.pop();
    }

    /// The innermost counts what a command begins or ends. It refuses where a count passes `usize`.
    fn note_in(&mut self, command: &Command) -> Result<(), OutOfMemory>
        ensures { OnOk result (self.new ≡ in_first (noted_in (command_of command.now)) self.old) }
    {
        match self.parts.last_mut() {
            Some(part) => part.note(command),
            None => Ok(()),
        }
    }

    /// Notes in the innermost whether a cell waits for its row.
    fn set_waiting(&mut self, waits: bool)
        ensures { self.new ≡ in_first (waiting waits) self.old }
    {
        if let Some(part) = self.parts.last_mut() {
            part.waits = waits;
        }
    }

    /// A command comes. It refuses where memory is refused, and where a count passes `usize`.
    pub fn note(&mut self, command: &Command) -> Result<(), OutOfMemory>
        ensures { OnOk result (self.new ≡ noted (command_of command.now) self.old) }
    {
        match command {
            Command::Sub(_) => self.open(Opener::Block)?,
            Command::Append(_) => self.close(),
            _ => self.note_in(command)?,
        }
        Ok(())
    }

    /// A call of a table comes. It refuses where memory is refused.
    pub fn note_call(&mut self, call: TableCall) -> Result<(), OutOfMemory>
        ensures { OnOk result (self.new ≡ after_call call self.old) }
    {
        match call {
            TableCall::StartTable => self.open(Opener::Table)?,
            TableCall::StartCell(_) => {
                self.set_waiting(true);
                self.open(Opener::Cell)?;
            }
            TableCall::StartInside(_) => self.open(Opener::Block)?,
            TableCall::EndCell | TableCall::EndTable => self.close(),
            TableCall::EndRow => self.set_waiting(false),
        }
        Ok(())
    }
}
