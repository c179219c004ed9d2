//! What is open in a script, and the lines where it was opened.
ghost use Rattle.std.specs.Prelude.{◌≡◌, [], OnOk, IfSome, IfNone};
ghost use Rattle.std.specs.Option.{option_copied, option_or};
ghost use Rattle.tbr_statements.specs.Level as model;

use crate::block::Block;
use std::alloc::{AllocError, Global};
use std::mem;
use tbr_commands::Command;
use tbr_script::TextPair;

/// What opened a level.
#[derive(Debug, Drop)]
pub enum Opener {
    /// `sub`.
    Sub,
    /// `cell`.
    Cell,
    /// `table auto` in no other one.
    Table,
    /// `table auto` in a cell of another one.
    InnerTable,
    /// `cell auto`.
    TableCell,
    /// A block with these prefixes.
    Block(Block, TextPair),
}

/// A level that is open.
#[derive(Debug, Drop)]
pub struct Level {
    /// What opened it.
    pub by: Opener,
    /// The line of the command that opened it.
    pub line: usize,
    /// What is known of the level outside.
    pub outside: Notes,
}

/// What errors may say of a level. Lines count from 1.
#[derive(Clone, Copy, Debug, Default)]
pub struct Notes {
    /// The line of the first cell that waits.
    pub first_cell: Option<usize>,
    /// The columns of the cells that wait, with those of the lines between them, or the greatest `usize` if they pass
    /// it.
    pub row_columns: usize,
    /// The line of the last cell that takes more rows than one.
    pub spanning: Option<usize>,
    /// The first text with a character that is wider than its block.
    pub too_wide: Option<TooWide>,
}

/// A character that is wider than its block.
#[derive(Clone, Copy, Debug)]
pub struct TooWide {
    /// The line of its text.
    pub line: usize,
    /// The character.
    pub character: char,
    /// The columns of the block.
    pub columns: usize,
}

impl Opener {
    /// What an error calls it.
    pub fn name(&self) -> &'static str
        ensures { result.now ≡ model.called self.now }
    {
        match self {
            Opener::Sub => "a block",
            Opener::Cell | Opener::TableCell => "a cell",
            Opener::Table | Opener::InnerTable => "a table",
            Opener::Block(block, _) => block.name(),
        }
    }

    /// The command that closes it.
    pub fn end(&self) -> &'static str
        ensures { result.now ≡ model.closing self.now }
    {
        match self {
            Opener::Sub => "append >  | > ",
            Opener::Cell | Opener::TableCell => "endcell",
            Opener::Table | Opener::InnerTable => "endtable",
            Opener::Block(block, _) => block.end(),
        }
    }

    /// The remark at the line where it was opened.
    pub fn note(&self) -> &'static str
        ensures { result.now ≡ model.note_of self.now }
    {
        match self {
            Opener::Sub => "the block was opened here",
            Opener::Cell | Opener::TableCell => "the cell was opened here",
            Opener::Table | Opener::InnerTable => "the table was opened here",
            Opener::Block(Block::Quote, _) => "the quote was opened here",
            Opener::Block(Block::Heading(_), _) => "the heading was opened here",
            Opener::Block(_, _) => "the item was opened here",
        }
    }

    /// Whether it is a table that finds its widths.
    fn is_table(&self) -> bool
        ensures { result ≡ model.opens_a_table self.now }
    {
        matches!(self, Opener::Table | Opener::InnerTable)
    }
}

impl Notes {
    /// What is known of a level that has just opened: nothing.
    fn nothing() -> Notes
        ensures { result ≡ model.nothing }
    {
        Notes {
            first_cell: None,
            row_columns: 0,
            spanning: None,
            too_wide: None,
        }
    }

    /// Notes that one more cell waits, which was opened on a line, with this many columns and rows.
    pub fn add_cell(&mut self, line: usize, columns: usize, rows: usize)
        ensures { self.new ≡ model.with_cell self.old line columns rows }
    {
        let between = usize::from(self.first_cell.is_some());
        self.row_columns = self
            .row_columns
            .saturating_add(columns)
            .saturating_add(between);
        self.first_cell = self.first_cell.or(Some(line));
        if rows > 1 {
            self.spanning = Some(line);
        }
    }

    /// Notes that no cell waits any more.
    pub fn take_cells(&mut self)
        ensures { self.new ≡ model.without_cells self.old }
    {
        self.first_cell = None;
        self.row_columns = 0;
    }
}

/// The levels that are open inside the outermost one, and what is known of the innermost.
#[derive(Drop)]
pub struct Levels {
    /// The innermost last.
    pub inside: Vec<Level>,
    /// What is known of the innermost.
    pub notes: Notes,
}

impl Levels {
    /// None is open.
    pub fn none(alloc: Global) -> Levels
        ensures inside { result.inside.items ≡ [] }
        ensures notes { result.notes ≡ model.nothing }
    {
        Levels {
            inside: Vec::new(alloc),
            notes: Notes::nothing(),
        }
    }

    /// The innermost level, if one is open.
    pub fn innermost(&self) -> Option<&Level>
        ensures { option_copied result ≡ model.innermost self.now.inside.items }
    {
        self.inside.as_slice().last()
    }

    /// The first text that is known to be too wide. One of the innermost level comes before those of the levels
    /// outside.
    pub fn too_wide(&self) -> Option<TooWide>
        ensures { result ≡ option_or self.now.notes.too_wide (model.outside_too_wide self.now.inside.items) }
    {
        let mut found = None;
        for level in &self.inside {
            found = level.outside.too_wide.or(found);
        }
        self.notes.too_wide.or(found)
    }

    /// Whether the innermost level is a block with a prefix.
    pub fn is_in_a_block(&self) -> bool
        ensures { result ≡ model.is_in_a_block (model.opener_of (model.innermost self.now.inside.items)) }
    {
        match self.innermost() {
            Some(level) => matches!(level.by, Opener::Block(_, _)),
            None => false,
        }
    }

    /// The line where the innermost level was opened, if that is a table.
    pub fn table(&self) -> Option<usize>
        ensures { result ≡ model.table_line (model.innermost self.now.inside.items) }
    {
        match self.innermost() {
            Some(level) if level.by.is_table() => Some(level.line),
            _ => None,
        }
    }

    /// Whether a command inside a table ends the innermost level, if it ends a level: a block or a cell.
    pub fn ends_by(&self, command: &Command) -> bool
        ensures { result ≡ model.ends_by command.now (model.opener_of (model.innermost self.now.inside.items)) }
    {
        match (command, self.innermost()) {
            (Command::Append(_), Some(level)) => matches!(level.by, Opener::Sub),
            (Command::EndCell, Some(level)) => matches!(level.by, Opener::TableCell),
            _ => true,
        }
    }

    /// Whether this command closes the innermost level.
    pub fn is_closed_by(&self, command: &str) -> bool
        ensures { result ≡ model.is_closed_by command.now (model.innermost self.now.inside.items) }
    {
        match self.innermost() {
            Some(level) => level.by.end() == command,
            None => false,
        }
    }

    /// Opens a level on a line. Nothing is known of it yet. It refuses only where memory is refused.
    pub fn enter(&mut self, by: Opener, line: usize) -> Result<(), AllocError>
        ensures { OnOk result (model.known_in self.new ≡ model.entered (model.known_in self.old) by line) }
    {
        let outside = mem::replace(&mut self.notes, Notes::nothing());
        self.inside.push(Level { by, line, outside })?;
        Ok(())
    }

    /// Closes the innermost level, if one is open, and returns to what is known of the level outside. A text inside
    /// that is too wide is then known there, unless one was known already.
    pub fn leave(&mut self) -> Option<Opener>
        ensures closed { IfSome result (λ by. model.Leaves self.old.inside.items self.old.notes by
            self.new.inside.items self.new.notes) }
        ensures none { IfNone result ((self.old.inside.items ≡ []) × (self.new.inside.items ≡ [])
            × (self.new.notes ≡ self.old.notes)) }
    {
        let Level { by, outside, .. } = self.inside.pop()?;
        let too_wide = outside.too_wide.or(self.notes.too_wide);
        self.notes = Notes {
            too_wide,
            ..outside
        };
        Some(by)
    }
}
