//! A script for people, line after line, on a program.
ghost use Rattle.std.specs.Prelude.{◌≡◌, ◌≢◌, ◌<◌, [], Some, map, find, chars, IfOk, OnOk};
ghost use Rattle.tbr_decor.specs.Decoration.{decoration_of};
ghost use Rattle.tbr_commands.specs.Command.{command_of, ask};
ghost use Rattle.tbr_commands.specs.Command as asked;
ghost use Rattle.tbr_commands.specs.Request.{layout as laid};
ghost use Rattle.tbr_program.specs.Progress.{GoesOn};
ghost use Rattle.tbr_kept_lines.specs.Line.{line_seen};
ghost use Rattle.tbr_statements.specs.Level.{innermost, opener_of, may_not_append, known_in, noted, takes_two};
ghost use Rattle.tbr_view.specs.Session as model;
ghost use Rattle.tbr_view.specs.Tables.{no_tables, place_of, counted};
ghost use Rattle.tbr_view.specs.Lines.{begun, Does, DoesOutside, LineDoes, EndsIn};
ghost use Rattle.tbr_script.specs.Lines.{bytes_of};
ghost use Rattle.tbr_statements.specs.Statement.{IsSized};

use std::alloc::{AllocError, Global};
use tbr_annotations::Annotations;
use tbr_border::RenderLine;
use tbr_commands::{Command, Decorator, Layout, Opening, Request};
use tbr_headings::{Headings, heading_columns};
use tbr_model::CharWidth;
use tbr_program::Program;
use tbr_recorded::{TableScript, Texts};
use tbr_renderer::{RenderOptions, Renderer};
use tbr_script::{RunError, TextPair};
use tbr_statements::{
    Block, Levels, Opener, Problem, Refusal, Statement, Stretch, Stretches, TooWide, advice,
    is_skipped,
};
use tbr_tagged::text_width;

mod recording;

/// What is recorded of tables that find their widths.
#[derive(Drop)]
struct Tables {
    /// What decides what commands write.
    texts: Texts,
    /// The table that is open, if one is.
    current: Option<TableScript>,
}

/// A script of which some lines were done.
#[derive(Drop)]
pub struct Session<D: Headings, W: CharWidth> {
    alloc: Global,
    program: Program<D, W>,
    levels: Levels,
    stretches: Stretches,
    tables: Tables,
    /// The columns that were set in place of those of the script, until a row is wider.
    set_width: Option<usize>,
    /// What was lost so far.
    lost: Vec<Problem>,
    /// What else isn't shown as the script says.
    warnings: Vec<Problem>,
}

impl Tables {
    /// None is open, and no link has begun, under the decorator of a name.
    fn none(decorator: Decorator, options: RenderOptions) -> Tables
        ensures { result ≡ no_tables decorator options }
    {
        let texts = Texts {
            decorator,
            options,
            links: 0,
        };
        Tables {
            texts,
            current: None,
        }
    }
}

impl<D: Headings, W: CharWidth> Session<D, W> {
    /// A script after its first command, under the decorator that has its name. `set_width` are the columns, if they
    /// were set in place of its own. It refuses only where memory is refused.
    pub fn new(
        alloc: Global,
        opening: Opening,
        decorator: D,
        set_width: Option<usize>,
    ) -> Result<Session<D, W>, Refusal>
        requires width { 0 < opening.width }
        requires wrap_width { opening.options.wrap_width ≢ Some 0 }
        ensures begins { IfOk result (λ session.
            place_of session.program session.levels.inside.items session.tables ≡ begun opening decorator) }
        ensures live { IfOk result (λ session. GoesOn session.program) }
    {
        let Opening {
            width,
            decorator: name,
            options,
        } = opening;
        let Ok(program) = Program::new(alloc, width, options, decorator) else {
            return Err(Refusal::OutOfMemory);
        };
        Ok(Session {
            alloc,
            program,
            levels: Levels::none(alloc),
            stretches: Stretches::none(alloc),
            tables: Tables::none(name, options),
            set_width,
            lost: Vec::new(alloc),
            warnings: Vec::new(alloc),
        })
    }

    /// Does what the line of this number asks for. An empty line and a comment ask for nothing. It refuses where the
    /// line is at fault, and where memory is refused.
    pub fn run_line(&mut self, number: usize, line: Result<&str, &[u8]>) -> Result<(), Refusal>
        requires { GoesOn self.old.program }
        ensures does { OnOk result (LineDoes W.columns (decoration_of D.TextDecorator D.Annotation.tells)
            (place_of self.old.program self.old.levels.inside.items self.old.tables) (bytes_of line.entry)
            (place_of self.new.program self.new.levels.inside.items self.new.tables)) }
        ensures live { OnOk result (GoesOn self.new.program) }
    {
        if is_skipped(line) {
            return Ok(());
        }
        let Ok(line) = line else {
            return Err(advice::not_utf8(self.alloc, number));
        };
        match Statement::parse(self.alloc, line)? {
            Some(statement) => self.run_statement(number, statement),
            None => Err(advice::not_a_command(self.alloc, number, line)),
        }
    }

    /// Does what a line of this number asks for.
    fn run_statement(&mut self, number: usize, statement: Statement) -> Result<(), Refusal>
        requires live { GoesOn self.old.program }
        requires sized { IsSized statement }
        ensures does { OnOk result (Does W.columns (decoration_of D.TextDecorator D.Annotation.tells)
            (place_of self.old.program self.old.levels.inside.items self.old.tables) statement
            (place_of self.new.program self.new.levels.inside.items self.new.tables)) }
        ensures live { OnOk result (GoesOn self.new.program) }
    {
        match self.tables.current.take() {
            Some(table) => self.run_in_table(number, statement, table),
            None => self.run_outside(number, statement),
        }
    }

    /// The same where no table is open that finds its widths.
    fn run_outside(&mut self, number: usize, statement: Statement) -> Result<(), Refusal>
        requires live { GoesOn self.old.program }
        requires sized { IsSized statement }
        ensures does { OnOk result (DoesOutside W.columns (decoration_of D.TextDecorator D.Annotation.tells)
            (place_of self.old.program self.old.levels.inside.items self.old.tables) statement
            (place_of self.new.program self.new.levels.inside.items self.new.tables)) }
        ensures live { OnOk result (GoesOn self.new.program) }
    {
        match statement {
            Statement::Command(command) => self.run(number, &command),
            Statement::Open(block) => self.open(number, block),
            Statement::Close(by) => self.close(number, by),
            Statement::Table => self.begin_table(number),
            Statement::Cell(_) => Err(advice::in_no_table(self.alloc, number, None)),
            Statement::EndTable => Err(self.not_open("endtable", number)),
        }
    }

    /// Does what a command of `blockrender` asks for.
    fn run(&mut self, number: usize, command: &Command) -> Result<(), Refusal>
        requires live { GoesOn self.old.program }
        requires sized { asked.IsSized (command_of command.now) }
        ensures does { OnOk result (model.Commands W.columns (decoration_of D.TextDecorator D.Annotation.tells)
            (model.state_of self.old.program self.old.levels.inside.items) command.now
            (model.state_of self.new.program self.new.levels.inside.items)) }
        ensures tables { OnOk result (self.new.tables ≡ counted command.now self.old.tables) }
        ensures live { OnOk result (GoesOn self.new.program) }
    {
        if self.may_not_append(command) {
            return Err(self.not_open("append", number));
        }
        self.note_texts(number, command);
        self.tables.texts.note(command);
        self.note_losses_of(number, command)?;
        self.note_ends_of(command)?;
        self.command(number, command)?;
        self.note_row(number, command)?;
        self.note_stretch(number, command)?;
        self.note_levels(number, command)?;
        Ok(())
    }

    /// Whether a command would close a block with a prefix that it doesn't end.
    fn may_not_append(&self, command: &Command) -> bool
        ensures { result ≡ may_not_append command.now (opener_of (innermost self.now.levels.inside.items)) }
    {
        matches!(command, Command::Append(_)) && self.levels.is_in_a_block()
    }

    /// Does what a command asks for, and says why it refuses.
    fn command(&mut self, number: usize, command: &Command) -> Result<(), Refusal>
        requires live { GoesOn self.old.program }
        requires sized { asked.IsSized (command_of command.now) }
        ensures does { OnOk result (model.CommandDoes W.columns (decoration_of D.TextDecorator D.Annotation.tells)
            self.old.program (command_of command.now)
            self.new.program) }
        ensures levels { self.new.levels ≡ self.old.levels }
        ensures lost { self.new.lost ≡ self.old.lost }
        ensures live { OnOk result (GoesOn self.new.program) }
        ensures tables { self.new.tables ≡ self.old.tables }
    {
        let columns = self.program.top().width();
        match self.program.run(self.alloc, number, command) {
            Ok(()) => Ok(()),
            Err(RunError::NothingToEnd(_)) => Err(self.not_open(advice::word(command), number)),
            Err(RunError::NotACommand(_)) => Err(self.cells_wait(number)),
            Err(RunError::RowDoesNotFit(_)) => Err(self.row_does_not_fit(number, columns)),
            Err(RunError::TooNarrow) => Err(self.too_narrow(number)),
            Err(_) => Err(Refusal::OutOfMemory),
        }
    }

    /// Opens a block with a prefix of the decorator, in as many columns as the prefix leaves.
    fn open(&mut self, number: usize, block: Block) -> Result<(), Refusal>
        requires { GoesOn self.old.program }
        ensures opens { OnOk result (model.BlockOpens W.columns (decoration_of D.TextDecorator D.Annotation.tells)
            (model.state_of self.old.program self.old.levels.inside.items) block
            (model.state_of self.new.program self.new.levels.inside.items)) }
        ensures live { OnOk result (GoesOn self.new.program) }
        ensures tables { self.new.tables ≡ self.old.tables }
    {
        self.check_room(number, block)?;
        let Ok(prefix) = self.program.prefix(block.prefix()) else {
            return Err(Refusal::OutOfMemory);
        };
        let columns = text_width::<W>(prefix.as_str())?;
        let width = self.program.top().width();
        if width <= columns {
            return Err(advice::no_room(self.alloc, number, block, columns, width));
        }
        let prefixes = block.prefixes::<W>(self.alloc, prefix)?;
        self.lay_out_if(block.stands_apart(), number, Layout::StartBlock)?;
        self.command(number, &Command::Sub(width - columns))?;
        self.levels.enter(Opener::Block(block, prefixes), number)?;
        Ok(())
    }

    /// Refuses a block whose prefix is known to leave it no column, before the prefix is made.
    fn check_room(&self, number: usize, block: Block) -> Result<(), Refusal>
        requires { GoesOn self.now.program }
    {
        let width = self.program.top().width();
        match columns_ahead::<D, W>(block) {
            Some(columns) if width <= columns => Err(advice::no_room(
                self.alloc, number, block, columns, width,
            )),
            _ => Ok(()),
        }
    }

    /// Closes the block that this command ends.
    fn close(&mut self, number: usize, by: &'static str) -> Result<(), Refusal>
        requires { GoesOn self.old.program }
        ensures closes { OnOk result (model.BlockCloses W.columns (decoration_of D.TextDecorator D.Annotation.tells)
            (model.state_of self.old.program self.old.levels.inside.items) by.now
            (model.state_of self.new.program self.new.levels.inside.items)) }
        ensures live { OnOk result (GoesOn self.new.program) }
        ensures tables { self.new.tables ≡ self.old.tables }
    {
        if !self.levels.is_closed_by(by) {
            return Err(self.not_open(by, number));
        }
        self.note_losses(number)?;
        self.note_ends()?;
        match self.levels.leave() {
            Some(Opener::Block(block, prefixes)) => self.close_block(number, block, prefixes),
            _ => Err(self.not_open(by, number)),
        }
    }

    /// Appends a block after its prefixes to the level outside.
    fn close_block(
        &mut self,
        number: usize,
        block: Block,
        prefixes: TextPair,
    ) -> Result<(), Refusal>
        requires { GoesOn self.old.program }
        ensures appends { OnOk result (model.BlockAppends W.columns (decoration_of D.TextDecorator D.Annotation.tells)
            self.old.program block prefixes
            self.new.program) }
        ensures levels { self.new.levels ≡ self.old.levels }
        ensures lost { self.new.lost ≡ self.old.lost }
        ensures live { OnOk result (GoesOn self.new.program) }
        ensures tables { self.new.tables ≡ self.old.tables }
    {
        self.command(number, &Command::Append(prefixes))?;
        self.lay_out_if(block.stands_apart(), number, Layout::EndBlock)
    }

    /// Begins or ends a block of lines, if that is asked for.
    fn lay_out_if(&mut self, is_asked: bool, number: usize, layout: Layout) -> Result<(), Refusal>
        requires { GoesOn self.old.program }
        ensures does { OnOk result (model.DoesIf W.columns (decoration_of D.TextDecorator D.Annotation.tells) is_asked
            self.old.program (ask (laid layout))
            self.new.program) }
        ensures levels { self.new.levels ≡ self.old.levels }
        ensures lost { self.new.lost ≡ self.old.lost }
        ensures live { OnOk result (GoesOn self.new.program) }
        ensures tables { self.new.tables ≡ self.old.tables }
    {
        if !is_asked {
            return Ok(());
        }
        self.command(number, &Command::Ask(Request::Layout(layout)))
    }

    /// Notes a text with a character that is wider than its block, if it is the first.
    fn note_texts(&mut self, number: usize, command: &Command)
        requires { GoesOn self.old.program }
        ensures program { self.new.program ≡ self.old.program }
        ensures inside { self.new.levels.inside ≡ self.old.levels.inside }
        ensures lost { self.new.lost ≡ self.old.lost }
        ensures tables { self.new.tables ≡ self.old.tables }
    {
        let text = match command {
            Command::Ask(Request::Text(text)) => text.as_str(),
            Command::Ask(Request::Image(image)) => image.second.as_str(),
            _ => return,
        };
        let top = self.program.top();
        let columns = top
            .options()
            .wrap_width
            .unwrap_or(usize::MAX)
            .min(top.width());
        if columns >= 2 || self.levels.notes.too_wide.is_some() {
            return;
        }
        self.levels.notes.too_wide = first_wide::<W>(text).map(|character| TooWide {
            line: number,
            character,
            columns,
        });
    }

    /// Notes what a command opened and closed.
    fn note_levels(&mut self, number: usize, command: &Command) -> Result<(), AllocError>
        ensures levels { OnOk result
            (known_in self.new.levels ≡ noted (known_in self.old.levels) number command.now) }
        ensures program { self.new.program ≡ self.old.program }
        ensures lost { self.new.lost ≡ self.old.lost }
        ensures tables { self.new.tables ≡ self.old.tables }
    {
        match command {
            Command::Sub(_) => self.levels.enter(Opener::Sub, number),
            Command::Cell(cell) => {
                self.levels.notes.add_cell(number, cell.width, cell.span);
                self.levels.enter(Opener::Cell, number)
            }
            Command::Append(_) | Command::EndCell => {
                let _ = self.levels.leave();
                Ok(())
            }
            Command::Row { .. } | Command::VerticalRow => {
                self.levels.notes.take_cells();
                Ok(())
            }
            _ => Ok(()),
        }
    }

    /// Notes if lines of a cell that takes several rows are lost in the innermost level.
    fn note_losses(&mut self, number: usize) -> Result<(), Refusal>
        requires { GoesOn self.old.program }
        ensures program { self.new.program ≡ self.old.program }
        ensures levels { self.new.levels ≡ self.old.levels }
        ensures lost { OnOk result (model.TellsLoss (model.loses self.old.program) number
            self.old.levels.notes.spanning self.old.lost.items self.new.lost.items) }
        ensures tables { self.new.tables ≡ self.old.tables }
    {
        if !self.loses_lines() {
            return Ok(());
        }
        let problem = advice::lost_lines(self.alloc, number, self.levels.notes.spanning)?;
        self.lost.push(problem)?;
        Ok(())
    }

    /// Notes such lost lines, if a command closes the innermost level.
    fn note_losses_of(&mut self, number: usize, command: &Command) -> Result<(), Refusal>
        requires { GoesOn self.old.program }
        ensures program { self.new.program ≡ self.old.program }
        ensures levels { self.new.levels ≡ self.old.levels }
        ensures tables { self.new.tables ≡ self.old.tables }
    {
        match command {
            Command::Append(_) | Command::EndCell => self.note_losses(number),
            _ => Ok(()),
        }
    }

    /// Notes the stretches of the innermost level that aren't ended. The level closes, and they end with it.
    fn note_ends(&mut self) -> Result<(), Refusal>
        ensures program { self.new.program ≡ self.old.program }
        ensures levels { self.new.levels ≡ self.old.levels }
        ensures lost { self.new.lost ≡ self.old.lost }
        ensures tables { self.new.tables ≡ self.old.tables }
    {
        let first = self.stretches.first_in(self.levels.inside.len());
        self.warn_of(first)?;
        self.stretches.end_from(first);
        Ok(())
    }

    /// Warns of each stretch from this place on that isn't ended.
    fn warn_of(&mut self, first: usize) -> Result<(), Refusal>
        ensures program { self.new.program ≡ self.old.program }
        ensures levels { self.new.levels ≡ self.old.levels }
        ensures lost { self.new.lost ≡ self.old.lost }
        ensures tables { self.new.tables ≡ self.old.tables }
    {
        for place in first..self.stretches.len() {
            self.warn_at(place)?;
        }
        Ok(())
    }

    /// Warns of the stretch at a place, if it isn't ended.
    fn warn_at(&mut self, place: usize) -> Result<(), Refusal>
        ensures program { self.new.program ≡ self.old.program }
        ensures levels { self.new.levels ≡ self.old.levels }
        ensures lost { self.new.lost ≡ self.old.lost }
        ensures stretches { self.new.stretches ≡ self.old.stretches }
        ensures tables { self.new.tables ≡ self.old.tables }
    {
        if let Some((stretch, line)) = self.stretches.open_at(place) {
            let problem = advice::not_ended(self.alloc, line, stretch)?;
            self.warnings.push(problem)?;
        }
        Ok(())
    }

    /// Notes the stretches that aren't ended, if a command closes the innermost level.
    fn note_ends_of(&mut self, command: &Command) -> Result<(), Refusal>
        ensures program { self.new.program ≡ self.old.program }
        ensures levels { self.new.levels ≡ self.old.levels }
        ensures lost { self.new.lost ≡ self.old.lost }
        ensures tables { self.new.tables ≡ self.old.tables }
    {
        match command {
            Command::Append(_) | Command::EndCell => self.note_ends(),
            _ => Ok(()),
        }
    }

    /// Notes what a command began or ended in the innermost level.
    fn note_stretch(&mut self, number: usize, command: &Command) -> Result<(), AllocError>
        ensures program { self.new.program ≡ self.old.program }
        ensures levels { self.new.levels ≡ self.old.levels }
        ensures lost { self.new.lost ≡ self.old.lost }
        ensures tables { self.new.tables ≡ self.old.tables }
    {
        if let Some(stretch) = Stretch::begun_by(command) {
            return self
                .stretches
                .begin(stretch, number, self.levels.inside.len());
        }
        if let Some(stretch) = Stretch::ended_by(command) {
            self.stretches.end(stretch);
        }
        Ok(())
    }

    /// Notes the first row that is wider than the columns that were set.
    fn note_row(&mut self, number: usize, command: &Command) -> Result<(), Refusal>
        ensures program { self.new.program ≡ self.old.program }
        ensures levels { self.new.levels ≡ self.old.levels }
        ensures lost { self.new.lost ≡ self.old.lost }
        ensures warns { let columns = self.old.levels.notes.row_columns in
            OnOk result (model.TellsRow (model.passed self.old.set_width command.now columns) number
            self.old.set_width self.new.set_width self.old.warnings.items self.new.warnings.items) }
        ensures tables { self.new.tables ≡ self.old.tables }
    {
        let columns = self.levels.notes.row_columns;
        let Some(width) = passed(self.set_width, command, columns) else {
            return Ok(());
        };
        let problem = advice::row_too_wide(self.alloc, number, columns, width)?;
        self.warnings.push(problem)?;
        self.set_width = None;
        Ok(())
    }

    /// Whether a cell that overhangs in the innermost level has lines that no row has shown.
    fn loses_lines(&self) -> bool
        requires { GoesOn self.now.program }
        ensures { result ≡ model.loses self.now.program }
    {
        self.program.top().has_overhanging_lines()
    }

    /// Ends the script. The number is that of the line after the last. It refuses where a level is open or cells wait.
    fn end(&mut self, number: usize) -> Result<(), Refusal>
        requires { GoesOn self.old.program }
        ensures inside { OnOk result (self.old.levels.inside.items ≡ []) }
        ensures cells { OnOk result (self.old.program.pending.cells ≡ []) }
        ensures program { self.new.program ≡ self.old.program }
        ensures levels { self.new.levels ≡ self.old.levels }
        ensures lost { OnOk result (model.TellsLoss (model.loses self.old.program) number
            self.old.levels.notes.spanning self.old.lost.items self.new.lost.items) }
    {
        if let Some(level) = self.levels.innermost() {
            return Err(advice::still_open(self.alloc, number, level));
        }
        if self.program.waiting_cells() > 0 {
            return Err(self.cells_wait(number));
        }
        self.note_losses(number)?;
        self.note_ends()?;
        Ok(())
    }

    /// The lines of the script, what was lost of them, and what else isn't shown as the script says. The number is that
    /// of the line after the last. It refuses as `end` does, where the last text is too narrow, and where memory is
    /// refused.
    pub fn finish(
        mut self,
        number: usize,
    ) -> Result<
        (
            Vec<RenderLine<Annotations<D::Annotation>>>,
            Vec<Problem>,
            Vec<Problem>,
        ),
        Refusal,
    >
        requires { GoesOn self.program }
        ensures lines { IfOk result (λ r. EndsIn W.columns (decoration_of D.TextDecorator D.Annotation.tells)
            (model.state_of self.program self.levels.inside.items)
            (map line_seen r.0.items)) }
        ensures lost { IfOk result (λ r. model.TellsLoss (model.loses self.program) number
            self.levels.notes.spanning self.lost.items r.1.items) }
    {
        self.end(number)?;
        let Session {
            program,
            levels,
            alloc,
            lost,
            warnings,
            ..
        } = self;
        if program.open_levels() > 0 || program.waiting_cells() > 0 {
            return Err(Refusal::OutOfMemory);
        }
        match program.finish_lines(true) {
            Ok(lines) => Ok((lines, lost, warnings)),
            Err(tbr_tagged::Error::TooNarrow) => {
                Err(advice::too_narrow(alloc, number, levels.notes.too_wide))
            }
            Err(tbr_tagged::Error::OutOfMemory) => Err(Refusal::OutOfMemory),
        }
    }

    /// A command ends what isn't open here.
    fn not_open(&self, word: &str, number: usize) -> Refusal {
        advice::not_open(self.alloc, number, word, self.levels.innermost())
    }

    /// A command comes before the row of cells that wait.
    fn cells_wait(&self, number: usize) -> Refusal {
        advice::cells_wait(self.alloc, number, self.levels.notes.first_cell)
    }

    /// A row is in the way of cells above it.
    fn row_does_not_fit(&self, number: usize, columns: usize) -> Refusal {
        advice::row_does_not_fit(self.alloc, number, columns, &self.levels.notes)
    }

    /// A text has a character that is wider than its block.
    fn too_narrow(&self, number: usize) -> Refusal {
        advice::too_narrow(self.alloc, number, self.levels.too_wide())
    }
}

/// The columns of the prefix of a block, where they are known before it is made. `None` also where they pass `usize`.
fn columns_ahead<D: Headings, W: CharWidth>(block: Block) -> Option<usize> {
    match block {
        Block::Heading(level) => heading_columns::<D, W>(level),
        _ => None,
    }
}

/// The columns that were set, if a command adds a row of `columns` columns and that is wider. 0 counts as none.
fn passed(set: Option<usize>, command: &Command, columns: usize) -> Option<usize>
    ensures { result ≡ model.passed set command.now columns }
{
    let Command::Row { .. } = command else {
        return None;
    };
    let width = set?;
    if 0 < width && width < columns {
        Some(width)
    } else {
        None
    }
}

/// The first character of a text that takes two columns.
fn first_wide<W: CharWidth>(text: &str) -> Option<char>
    ensures { result ≡ find (λ c. takes_two (W.columns c)) (chars text.now) }
{
    text.chars().find(|c| W::width(*c) == Some(2))
}
