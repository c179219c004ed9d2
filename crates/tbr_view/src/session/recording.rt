//! Tables that find their widths: recorded line after line, and drawn where they end.
ghost use Rattle.std.specs.Prelude.{◌≡◌, None, Ok, OnOk};
ghost use Rattle.tbr_decor.specs.Decoration.{decoration_of};
ghost use Rattle.tbr_commands.specs.Command.{command_of, ask};
ghost use Rattle.tbr_commands.specs.Command as asked;
ghost use Rattle.tbr_commands.specs.Request.{layout as laid};
ghost use Rattle.tbr_program.specs.Progress.{GoesOn};
ghost use Rattle.tbr_statements.specs.Statement.{IsSized};
ghost use Rattle.tbr_tables.specs.Laws.{IsSized as IsSizedCall};
ghost use Rattle.tbr_tables.specs.declared.step.Step.TheVariants as step;
ghost use Rattle.tbr_recorded.specs.Script.{with_bare, with_command};
ghost use Rattle.tbr_view.specs.Session.{openers, opened_by, CommandDoes};
ghost use Rattle.tbr_view.specs.Tables.{kept, place_of, with_if, with_given, TableBegins, DoesInTable, Records, BlockRecords, EndRecords, TableEnds, with_append, drawing, drawn_made};

use crate::session::{Session, Tables};
use tbr_commands::{Command, Layout, Request};
use tbr_headings::Headings;
use tbr_model::CharWidth;
use tbr_recorded::TableScript;
use tbr_renderer::Renderer;
use tbr_script::TextPair;
use tbr_statements::{Block, Opener, Refusal, Statement, Stretch, advice};
use tbr_tables::{Drawn, Step};
use tbr_tagged::{OutOfMemory, text_width};

impl<D: Headings, W: CharWidth> Session<D, W> {
    /// Records a step of a line that is no command, in the table that is open.
    fn add_step(&mut self, number: usize, step: Step, table: TableScript) -> Result<(), Refusal>
        ensures program { self.new.program ≡ self.old.program }
        ensures levels { self.new.levels ≡ self.old.levels }
        ensures tables { OnOk result (self.new.tables ≡ kept (with_bare W.columns step table) self.old.tables) }
    {
        let mut table = table;
        table.add_step::<W>(number, step)?;
        self.tables.current = Some(table);
        Ok(())
    }

    /// Records a command of a line in it.
    fn add_command(
        &mut self,
        number: usize,
        command: Command,
        table: TableScript,
    ) -> Result<(), Refusal>
        requires { asked.IsSized (command_of command) }
        ensures program { self.new.program ≡ self.old.program }
        ensures levels { self.new.levels ≡ self.old.levels }
        ensures tables { OnOk result
            (self.new.tables ≡ kept (with_command W.columns (command_of command) table) self.old.tables) }
    {
        let mut table = table;
        table.add_command::<W>(number, command)?;
        self.tables.current = Some(table);
        Ok(())
    }

    /// Begins a table. It refuses where cells wait or overhang, since they would come into its rows.
    pub(super) fn begin_table(&mut self, number: usize) -> Result<(), Refusal>
        requires { GoesOn self.old.program }
        ensures begins { OnOk result (TableBegins W.columns
            (place_of self.old.program self.old.levels.inside.items self.old.tables)
            (place_of self.new.program self.new.levels.inside.items self.new.tables)) }
        ensures live { OnOk result (GoesOn self.new.program) }
    {
        if self.program.waiting_cells() > 0 {
            return Err(self.cells_wait(number));
        }
        if self.program.top().has_overhang() {
            return Err(advice::under_a_cell(self.alloc, number, self.levels.notes.spanning));
        }
        self.levels.enter(Opener::Table, number)?;
        let table = TableScript::begun(self.alloc, self.tables.texts)?;
        self.add_step(number, Step::Table, table)
    }

    /// Does what a line asks for inside of the table that is open.
    pub(super) fn run_in_table(
        &mut self,
        number: usize,
        statement: Statement,
        table: TableScript,
    ) -> Result<(), Refusal>
        requires live { GoesOn self.old.program }
        requires sized { IsSized statement }
        ensures does { OnOk result (DoesInTable W.columns (decoration_of D.TextDecorator D.Annotation.tells)
            (place_of self.old.program self.old.levels.inside.items self.old.tables) table statement
            (place_of self.new.program self.new.levels.inside.items self.new.tables)) }
        ensures live { OnOk result (GoesOn self.new.program) }
    {
        match self.levels.table() {
            Some(line) => self.record_row(number, line, statement, table),
            None => self.record_content(number, statement, table),
        }
    }

    /// Does what a line asks for directly inside the table of a line.
    fn record_row(
        &mut self,
        number: usize,
        line: usize,
        statement: Statement,
        table: TableScript,
    ) -> Result<(), Refusal>
        requires live { GoesOn self.old.program }
        requires sized { IsSized statement }
        ensures does { OnOk result (DoesInTable W.columns (decoration_of D.TextDecorator D.Annotation.tells)
            (place_of self.old.program self.old.levels.inside.items self.old.tables) table statement
            (place_of self.new.program self.new.levels.inside.items self.new.tables)) }
        ensures live { OnOk result (GoesOn self.new.program) }
    {
        match statement {
            Statement::Cell(cell) => {
                self.levels.notes.add_cell(number, 1, 1);
                self.levels.enter(Opener::TableCell, number)?;
                self.add_step(number, Step::Cell(cell), table)
            }
            Statement::EndTable => self.end_table(number, table),
            Statement::Command(command) => {
                self.check_row(number, line, &command)?;
                self.record_command(number, command, table)
            }
            _ => Err(advice::in_no_cell(self.alloc, number, line)),
        }
    }

    /// Refuses a command that is directly inside the table of a line, but for the end of a row with cells.
    fn check_row(&self, number: usize, line: usize, command: &Command) -> Result<(), Refusal> {
        match command {
            Command::Row { collapse: false } if self.levels.notes.first_cell.is_some() => Ok(()),
            Command::Row { collapse: false } => Err(advice::empty_row(self.alloc, number, line)),
            Command::Cell(_) | Command::Row { .. } | Command::VerticalRow => {
                Err(advice::given_widths(self.alloc, number))
            }
            _ => Err(advice::in_no_cell(self.alloc, number, line)),
        }
    }

    /// Ends the innermost table, which is drawn if it is in no other one.
    fn end_table(&mut self, number: usize, table: TableScript) -> Result<(), Refusal>
        requires live { GoesOn self.old.program }
        ensures ends { OnOk result (TableEnds W.columns (decoration_of D.TextDecorator D.Annotation.tells)
            (place_of self.old.program self.old.levels.inside.items self.old.tables) table
            (place_of self.new.program self.new.levels.inside.items self.new.tables)) }
        ensures live { OnOk result (GoesOn self.new.program) }
    {
        if self.levels.notes.first_cell.is_some() {
            return Err(self.cells_wait(number));
        }
        match self.levels.leave() {
            Some(Opener::Table) => self.draw_ended(number, table),
            Some(Opener::InnerTable) => self.add_step(number, Step::EndTable, table),
            _ => Err(self.not_open("endtable", number)),
        }
    }

    /// Does what a line asks for in a cell.
    fn record_content(
        &mut self,
        number: usize,
        statement: Statement,
        table: TableScript,
    ) -> Result<(), Refusal>
        requires live { GoesOn self.old.program }
        requires sized { IsSized statement }
        ensures does { OnOk result (DoesInTable W.columns (decoration_of D.TextDecorator D.Annotation.tells)
            (place_of self.old.program self.old.levels.inside.items self.old.tables) table statement
            (place_of self.new.program self.new.levels.inside.items self.new.tables)) }
        ensures program { self.new.program ≡ self.old.program }
    {
        match statement {
            Statement::Command(command) => {
                self.check_command(number, &command)?;
                self.record_command(number, command, table)
            }
            Statement::Open(block) => self.record_block(number, block, table),
            Statement::Close(by) => self.record_end(number, by, table),
            Statement::Table => {
                self.levels.enter(Opener::InnerTable, number)?;
                self.add_step(number, Step::Table, table)
            }
            Statement::Cell(_) => {
                let level = self.levels.innermost();
                Err(advice::in_no_table(self.alloc, number, level))
            }
            Statement::EndTable => Err(self.not_open("endtable", number)),
        }
    }

    /// Records a command, and notes what it opens and closes.
    fn record_command(
        &mut self,
        number: usize,
        command: Command,
        table: TableScript,
    ) -> Result<(), Refusal>
        requires { asked.IsSized (command_of command) }
        ensures records { OnOk result (Records
            (place_of self.old.program self.old.levels.inside.items self.old.tables)
            (opened_by command (openers self.old.levels.inside.items)) (with_given W.columns command table)
            (place_of self.new.program self.new.levels.inside.items self.new.tables)) }
        ensures program { self.new.program ≡ self.old.program }
    {
        self.note_ends_of(&command)?;
        self.note_stretch(number, &command)?;
        self.note_levels(number, &command)?;
        self.record_given(number, command, table)
    }

    /// Records a command, or the step that ends a cell or a row.
    fn record_given(
        &mut self,
        number: usize,
        command: Command,
        table: TableScript,
    ) -> Result<(), Refusal>
        requires { asked.IsSized (command_of command) }
        ensures program { self.new.program ≡ self.old.program }
        ensures levels { self.new.levels ≡ self.old.levels }
        ensures tables { OnOk result (self.new.tables ≡ kept (with_given W.columns command table) self.old.tables) }
    {
        match command {
            Command::EndCell => self.add_step(number, Step::EndCell, table),
            Command::Row { .. } => self.add_step(number, Step::Row, table),
            _ => self.add_command(number, command, table),
        }
    }

    /// Refuses a command of given widths, and one that ends what isn't open in the innermost level.
    fn check_command(&self, number: usize, command: &Command) -> Result<(), Refusal> {
        match command {
            Command::Row { collapse: false } => Err(self.not_open("row", number)),
            Command::Cell(_) | Command::Row { .. } | Command::VerticalRow => {
                Err(advice::given_widths(self.alloc, number))
            }
            _ if self.levels.ends_by(command) && self.may_end(command) => Ok(()),
            _ => Err(self.not_open(advice::word(command), number)),
        }
    }

    /// Whether what a command ends was begun in the innermost level, if it ends something.
    fn may_end(&self, command: &Command) -> bool {
        match Stretch::ended_by(command) {
            Some(stretch) => self.stretches.is_open_in(stretch, self.levels.inside.len()),
            None => true,
        }
    }

    /// Records a block with a prefix of the decorator that opens in a cell.
    fn record_block(
        &mut self,
        number: usize,
        block: Block,
        table: TableScript,
    ) -> Result<(), Refusal>
        requires { GoesOn self.old.program }
        ensures records { OnOk result (BlockRecords W.columns (decoration_of D.TextDecorator D.Annotation.tells)
            (place_of self.old.program self.old.levels.inside.items self.old.tables) block table
            (place_of self.new.program self.new.levels.inside.items self.new.tables)) }
        ensures program { self.new.program ≡ self.old.program }
    {
        self.check_room(number, block)?;
        let Ok(prefix) = self.program.prefix(block.prefix()) else {
            return Err(Refusal::OutOfMemory);
        };
        let columns = text_width::<W>(prefix.as_str())?;
        let prefixes = block.prefixes::<W>(self.alloc, prefix)?;
        let mut table = table;
        lay_out_if::<W>(block.stands_apart(), number, Layout::StartBlock, &mut table)?;
        self.levels.enter(Opener::Block(block, prefixes), number)?;
        self.add_step(number, Step::Inside(columns), table)
    }

    /// Records that the block closes which this command ends.
    fn record_end(
        &mut self,
        number: usize,
        by: &'static str,
        table: TableScript,
    ) -> Result<(), Refusal>
        ensures records { OnOk result (EndRecords W.columns
            (place_of self.old.program self.old.levels.inside.items self.old.tables) by.now table
            (place_of self.new.program self.new.levels.inside.items self.new.tables)) }
        ensures program { self.new.program ≡ self.old.program }
    {
        if !self.levels.is_closed_by(by) {
            return Err(self.not_open(by, number));
        }
        self.note_ends()?;
        match self.levels.leave() {
            Some(Opener::Block(block, prefixes)) => {
                self.record_append(number, block, prefixes, table)
            }
            _ => Err(self.not_open(by, number)),
        }
    }

    /// Records that a block is appended after its prefixes.
    fn record_append(
        &mut self,
        number: usize,
        block: Block,
        prefixes: TextPair,
        table: TableScript,
    ) -> Result<(), Refusal>
        ensures program { self.new.program ≡ self.old.program }
        ensures levels { self.new.levels ≡ self.old.levels }
        ensures tables { OnOk result
            (self.new.tables ≡ kept (with_append W.columns block prefixes table) self.old.tables) }
    {
        let mut table = table;
        table.add_command::<W>(number, Command::Append(prefixes))?;
        lay_out_if::<W>(block.stands_apart(), number, Layout::EndBlock, &mut table)?;
        self.tables.current = Some(table);
        Ok(())
    }

    /// Draws a table that ends.
    fn draw_ended(&mut self, number: usize, table: TableScript) -> Result<(), Refusal>
        requires { GoesOn self.old.program }
        ensures draws { let made = drawing W.columns (decoration_of D.TextDecorator D.Annotation.tells) in
            OnOk result (made (with_bare W.columns step.EndTable table) self.old.program ≡ Ok self.new.program) }
        ensures inside { self.new.levels.inside ≡ self.old.levels.inside }
        ensures tables { OnOk result (self.new.tables ≡ record { texts = table.texts; current = None }) }
        ensures live { OnOk result (GoesOn self.new.program) }
    {
        let mut table = table;
        table.add_step::<W>(number, Step::EndTable)?;
        self.draw(&table)?;
        self.tables = Tables {
            texts: table.texts(),
            current: None,
        };
        Ok(())
    }

    /// Draws what is recorded of a table, in the columns of the innermost level.
    fn draw(&mut self, table: &TableScript) -> Result<(), Refusal>
        requires { GoesOn self.old.program }
        ensures draws { let made = drawing W.columns (decoration_of D.TextDecorator D.Annotation.tells) in
            OnOk result (made table.now self.old.program ≡ Ok self.new.program) }
        ensures inside { self.new.levels.inside ≡ self.old.levels.inside }
        ensures live { OnOk result (GoesOn self.new.program) }
    {
        let room = self.program.top().width();
        let calls = table.draw(room)?;
        for drawn in &calls {
            self.draw_one(table, *drawn)?;
        }
        Ok(())
    }

    /// Does one call.
    fn draw_one(&mut self, table: &TableScript, drawn: Drawn) -> Result<(), Refusal>
        requires live { GoesOn self.old.program }
        requires sized { IsSizedCall drawn }
        ensures draws { let made = drawn_made W.columns (decoration_of D.TextDecorator D.Annotation.tells) in
            OnOk result (made table.now drawn self.old.program ≡ Ok self.new.program) }
        ensures inside { self.new.levels.inside ≡ self.old.levels.inside }
        ensures live { OnOk result (GoesOn self.new.program) }
    {
        let number = table.line(drawn.step);
        match table.command_of(drawn.call) {
            Some(command) => self.draw_command(number, &command),
            None => match table.given(drawn.step) {
                Some(command) => self.draw_command(number, command),
                None => Ok(()),
            },
        }
    }

    /// Does what a command asks for that draws a table. What it opens and closes was noted where it was recorded.
    fn draw_command(&mut self, number: usize, command: &Command) -> Result<(), Refusal>
        requires live { GoesOn self.old.program }
        requires sized { asked.IsSized (command_of command.now) }
        ensures does { OnOk result (CommandDoes W.columns (decoration_of D.TextDecorator D.Annotation.tells)
            self.old.program (command_of command.now)
            self.new.program) }
        ensures inside { self.new.levels.inside ≡ self.old.levels.inside }
        ensures live { OnOk result (GoesOn self.new.program) }
    {
        self.note_texts(number, command);
        self.command(number, command)
    }
}

/// Records the beginning or the end of a block of lines, if that is asked for.
fn lay_out_if<W: CharWidth>(
    is_asked: bool,
    number: usize,
    layout: Layout,
    table: &mut TableScript,
) -> Result<(), OutOfMemory>
    ensures { OnOk result (table.new ≡ with_if W.columns is_asked (ask (laid layout)) table.old) }
{
    if is_asked {
        table.add_command::<W>(number, Command::Ask(Request::Layout(layout)))?;
    }
    Ok(())
}
