//! A table as calls give it.
ghost use Rattle.std.specs.Prelude.{◌≡◌, length, IfOk, IfErr, OnOk};
ghost use Rattle.tbr_commands.specs.Command.{command_of, IsSized};
ghost use Rattle.tbr_c_lines.specs.declared.fault.Fault.TheVariants as F;
ghost use Rattle.tbr_c_tables.specs.Given.{begun, Makes, command_given, call_given, call_recorded, step_of, room_given};

use crate::open_part::Opener;
use crate::open_parts::OpenParts;
use crate::table_call::TableCall;
use column_widths::Room;
use std::alloc::Global;
use std::marker::Model;
use tbr_c_lines::Fault;
use tbr_commands::Command;
use tbr_recorded::{TableScript, Texts};
use tbr_tables::Step;
use tbr_tagged::UnicodeColumns;

/// What is given of a table so far.
#[derive(Drop)]
pub struct GivenTable {
    script: TableScript,
    parts: OpenParts,
}

impl Model for GivenTable {
    ghost use Rattle.tbr_c_tables.specs.Given.{GivenTable};

    ghost Value = { GivenTable };

    ghost view = { λ t. record { script = t.script; parts = t.parts } };
}

impl GivenTable {
    /// A table that begins. It refuses only where memory is refused.
    pub fn begun(alloc: Global, texts: Texts) -> Result<GivenTable, Fault>
        ensures table { IfOk result (λ table. table ≡ begun texts) }
        ensures memory { IfErr result (λ fault. fault ≡ F.OutOfMemory) }
    {
        let mut table = GivenTable {
            script: TableScript::begun(alloc, texts)?,
            parts: OpenParts::none(alloc),
        };
        table.record(TableCall::StartTable)?;
        Ok(table)
    }

    /// A command comes. After `OutOfMemory` the table isn't to be used any more, and each other refusal leaves it as it
    /// was. So it is of the next call.
    pub fn run(&mut self, command: Command) -> Result<(), Fault>
        requires { IsSized (command_of command) }
        ensures { Makes (command_given (command_of command)) self.old result self.new }
    {
        self.parts.takes(&command)?;
        self.parts.note(&command)?;
        self.script.add_command::<UnicodeColumns>(0, command)?;
        Ok(())
    }

    /// A call of a table comes.
    pub fn call(&mut self, call: TableCall) -> Result<(), Fault>
        ensures { Makes (call_given call) self.old result self.new }
    {
        self.parts.takes_call(call)?;
        self.record(call)
    }

    /// Records a call. It refuses only where memory is refused.
    fn record(&mut self, call: TableCall) -> Result<(), Fault>
        ensures recorded { OnOk result (self.new ≡ call_recorded call self.old) }
        ensures memory { IfErr result (λ fault. fault ≡ F.OutOfMemory) }
    {
        self.parts.note_call(call)?;
        self.script.add_step::<UnicodeColumns>(0, step_of(call))?;
        Ok(())
    }

    /// How many parts are open.
    pub fn open_parts(&self) -> usize
        ensures { result ≡ length self.now.parts }
    {
        self.parts.len()
    }

    /// The columns of the longest word and of the widest line that came in the innermost part. `InTable` outside of
    /// cells, and `NoTable` after the end of the table.
    pub fn room(&self) -> Result<Room, Fault>
        ensures { result ≡ room_given self.now }
    {
        match self.parts.innermost()?.by {
            Opener::Table => Err(Fault::InTable),
            Opener::Cell | Opener::Block => Ok(self.script.room()),
        }
    }

    /// What is recorded.
    pub fn script(&self) -> &TableScript
        ensures { result.now ≡ self.now.script }
    {
        &self.script
    }
}

/// The step that a call is.
fn step_of(call: TableCall) -> Step
    ensures { result ≡ step_of call }
{
    match call {
        TableCall::StartTable => Step::Table,
        TableCall::StartCell(cell) => Step::Cell(cell),
        TableCall::EndCell => Step::EndCell,
        TableCall::EndRow => Step::Row,
        TableCall::EndTable => Step::EndTable,
        TableCall::StartInside(prefix) => Step::Inside(prefix),
    }
}
