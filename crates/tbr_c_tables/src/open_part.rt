//! A part of a table that is open.
ghost use Rattle.std.specs.Prelude.{◌≡◌, if◌then◌else◌, Ok, Err, OnOk};
ghost use Rattle.tbr_commands.specs.Command.{command_of};
ghost use Rattle.tbr_c_lines.specs.declared.fault.Fault.TheVariants as Refusal;
ghost use Rattle.tbr_c_tables.specs.Open.{opened, takes, takes_ending, takes_content, takes_call, table_takes, content_takes, noted_in};

use crate::table_call::TableCall;
use tbr_c_lines::Fault;
use tbr_commands::{Begun, Command};
use tbr_tagged::OutOfMemory;

/// What a part is.
#[derive(Clone, Copy, Debug, PartialEq, Eq)]
pub enum Opener {
    /// A table, outside of its cells.
    Table,
    /// A cell of a table.
    Cell,
    /// A block inside a cell.
    Block,
}

/// A part of a table that is open.
#[derive(Clone, Copy, Debug, PartialEq, Eq)]
pub struct OpenPart {
    /// What it is.
    pub by: Opener,
    /// What has begun in it and not ended.
    pub begun: Begun,
    /// How many links are open in it.
    pub links: usize,
    /// Whether a cell of a table waits for its row.
    pub waits: bool,
}

impl OpenPart {
    /// A part in which nothing has begun.
    pub fn opened(by: Opener) -> OpenPart
        ensures { result ≡ opened by }
    {
        OpenPart {
            by,
            begun: Begun::nothing(),
            links: 0,
            waits: false,
        }
    }

    /// Whether it takes a command. `InTable` outside of cells, and where a command has widths of cells. `NothingToEnd`
    /// where what would end isn't open in it.
    pub fn takes(&self, command: &Command) -> Result<(), Fault>
        ensures { result ≡ takes (command_of command.now) self.now }
    {
        match self.by {
            Opener::Table => Err(Fault::InTable),
            Opener::Cell | Opener::Block => self.takes_content(command),
        }
    }

    /// The same of a cell or a block.
    fn takes_content(&self, command: &Command) -> Result<(), Fault>
        ensures { result ≡ takes_content self.now (command_of command.now) }
    {
        match command {
            Command::Ask(request) => ends_some(!self.begun.lacks(request)),
            Command::Link(_) | Command::Sub(_) => Ok(()),
            Command::EndLink => ends_some(self.links > 0),
            Command::Append(_) => self.takes_ending(),
            Command::Cell(_) | Command::EndCell | Command::Row { .. } | Command::VerticalRow => {
                Err(Fault::InTable)
            }
        }
    }

    /// Whether a command ends it that ends a block.
    fn takes_ending(&self) -> Result<(), Fault>
        ensures { result ≡ takes_ending self.now.by }
    {
        match self.by {
            Opener::Table => Err(Fault::InTable),
            Opener::Cell => Err(Fault::NothingToEnd),
            Opener::Block => Ok(()),
        }
    }

    /// Whether it takes a call of a table. `NothingToEnd` where what would end isn't this part, and `StillOpen` where a
    /// table would end in which a cell waits for its row. Outside of cells `InTable`, and `NoTable` for a cell in
    /// another one.
    pub fn takes_call(&self, call: TableCall) -> Result<(), Fault>
        ensures { result ≡ takes_call call self.now }
    {
        match self.by {
            Opener::Table => table_takes(self.waits, call),
            Opener::Cell => content_takes(true, call),
            Opener::Block => content_takes(false, call),
        }
    }

    /// Counts what a command begins or ends. It refuses where a count passes `usize`.
    pub fn note(&mut self, command: &Command) -> Result<(), OutOfMemory>
        ensures { OnOk result (self.new ≡ noted_in (command_of command.now) self.old) }
    {
        match command {
            Command::Ask(request) => self.begun.note(request)?,
            Command::Link(_) => self.links = self.links.saturating_add(1),
            Command::EndLink => self.links = self.links.saturating_sub(1),
            _ => {}
        }
        Ok(())
    }
}

/// `NothingToEnd`, unless there is something to end.
fn ends_some(is_open: bool) -> Result<(), Fault>
    ensures { result ≡ (if is_open then Ok tt else Err Refusal.NothingToEnd) }
{
    if is_open {
        Ok(())
    } else {
        Err(Fault::NothingToEnd)
    }
}

/// Whether a table takes a call outside of its cells.
fn table_takes(waits: bool, call: TableCall) -> Result<(), Fault>
    ensures { result ≡ table_takes waits call }
{
    match call {
        TableCall::StartCell(_) | TableCall::EndRow => Ok(()),
        TableCall::EndTable if waits => Err(Fault::StillOpen),
        TableCall::EndTable => Ok(()),
        TableCall::EndCell => Err(Fault::NothingToEnd),
        TableCall::StartTable | TableCall::StartInside(_) => Err(Fault::InTable),
    }
}

/// Whether a cell or a block takes a call.
fn content_takes(is_cell: bool, call: TableCall) -> Result<(), Fault>
    ensures { result ≡ content_takes is_cell call }
{
    match call {
        TableCall::StartTable | TableCall::StartInside(_) => Ok(()),
        TableCall::StartCell(_) => Err(Fault::NoTable),
        TableCall::EndCell => ends_some(is_cell),
        TableCall::EndRow | TableCall::EndTable => Err(Fault::NothingToEnd),
    }
}
