//! What errors say: what is wrong with a line, and one way to correct it. If memory for the words is refused, so is the
//! call.
ghost use Rattle.std.specs.Prelude.{◌≡◌, None, Some, IfOk};
ghost use Rattle.std.specs.Option.{option_map};
ghost use Rattle.tbr_statements.specs.Problem.{IsOf, Tells};
ghost use Rattle.tbr_statements.specs.Statement.{word_of};
ghost use Rattle.tbr_statements.specs.declared.problem.Kind.TheVariants as kind_is;

use crate::block::Block;
use crate::fault::{Fault, fault_of};
use crate::level::{Level, Notes, Opener, TooWide};
use crate::problem::{Kind, Problem, Refusal, Related};
use crate::stretch::{Stretch, ending};
use std::alloc::{AllocError, Global};
use tbr_commands::{Command, Request};

/// The column of a line's command.
const FIRST: Option<usize> = Some(1);

/// A problem with a line, or that memory for its text was refused.
fn refusal(
    kind: Kind,
    line: usize,
    column: Option<usize>,
    related: Option<Related>,
    texts: Result<(String, String), AllocError>,
) -> Refusal
    ensures { Tells result kind line (option_map (λ r. r.line) related) }
{
    match texts {
        Ok((message, help)) => Refusal::Script(Problem {
            kind,
            line,
            column,
            message,
            related,
            help,
        }),
        Err(_) => Refusal::OutOfMemory,
    }
}

/// The line isn't a command.
pub fn not_a_command(alloc: Global, line: usize, writing: &str) -> Refusal
    ensures { Tells result kind_is.NotACommand line None }
{
    faulty(line, fault_of(alloc, writing, false))
}

/// The line isn't the first command that it should be.
pub fn not_an_opening(alloc: Global, line: usize, writing: &str) -> Refusal
    ensures { Tells result kind_is.NotACommand line None }
{
    faulty(line, fault_of(alloc, writing, true))
}

/// The line isn't UTF-8.
pub fn not_utf8(alloc: Global, line: usize) -> Refusal
    ensures { Tells result kind_is.NotACommand line None }
{
    let texts = both(alloc, "the line isn't UTF-8", "save the file as UTF-8");
    refusal(Kind::NotACommand, line, None, None, texts)
}

/// The line has a fault.
fn faulty(line: usize, fault: Result<Fault, AllocError>) -> Refusal
    ensures { Tells result kind_is.NotACommand line None }
{
    match fault {
        Ok(fault) => {
            let Fault {
                column,
                message,
                help,
            } = fault;
            let texts = Ok((message, help));
            refusal(Kind::NotACommand, line, column, None, texts)
        }
        Err(_) => Refusal::OutOfMemory,
    }
}

/// The script has no first command.
pub fn nothing_there(alloc: Global, line: usize) -> Refusal
    ensures { Tells result kind_is.NotACommand line None }
{
    let texts = both(
        alloc,
        "the script has no command",
        "begin it with `new 60 plain`",
    );
    refusal(Kind::NotACommand, line, None, None, texts)
}

/// A command ends something that isn't open, or a level that isn't the innermost.
pub fn not_open(alloc: Global, line: usize, word: &str, level: Option<&Level>) -> Refusal
    ensures { Tells result kind_is.NothingToEnd line (option_map (λ l. l.now.line) level.entry) }
{
    let Some(level) = level else {
        let texts = nothing_to_end(alloc, word);
        return refusal(Kind::NothingToEnd, line, FIRST, None, texts);
    };
    let related = Some(Related {
        line: level.line,
        note: level.by.note(),
    });
    let texts = inside(alloc, word, level);
    refusal(Kind::NothingToEnd, line, FIRST, related, texts)
}

/// What is said if a command could end nothing that is open.
fn nothing_to_end(alloc: Global, word: &str) -> Result<(String, String), AllocError> {
    Ok((
        format!(in alloc; "nothing that `{word}` ends is open")?,
        format!(in alloc; "take the line away, or begin what it ends before it")?,
    ))
}

/// What is said if a level is open, and a command could end nothing that is open inside it.
fn inside(alloc: Global, word: &str, level: &Level) -> Result<(String, String), AllocError> {
    let name = level.by.name();
    let end = level.by.end();
    Ok((
        format!(in alloc; "nothing that `{word}` ends is open inside {name}")?,
        format!(in alloc; "write `{end}` first")?,
    ))
}

/// A line is in a table that finds its widths, and in no cell of it. The other line is that of the table.
pub fn in_no_cell(alloc: Global, line: usize, table: usize) -> Refusal
    ensures { Tells result kind_is.Misplaced line (Some table) }
{
    let texts = both(
        alloc,
        "only cells, `row` and `endtable` are directly inside a table",
        "write `cell auto` before it, and `endcell` after it",
    );
    let related = Some(of_table(table));
    refusal(Kind::Misplaced, line, FIRST, related, texts)
}

/// The line of a table.
fn of_table(line: usize) -> Related
    ensures { result.line ≡ line }
{
    Related {
        line,
        note: Opener::Table.note(),
    }
}

/// A row of such a table has no cell. The other line is that of the table.
pub fn empty_row(alloc: Global, line: usize, table: usize) -> Refusal
    ensures { Tells result kind_is.Misplaced line (Some table) }
{
    let texts = both(
        alloc,
        "no cell came before this `row`",
        "write the cells of the row before it, or take the line away",
    );
    let related = Some(of_table(table));
    refusal(Kind::Misplaced, line, FIRST, related, texts)
}

/// A line has cells of given widths, and is in a table that finds them.
pub fn given_widths(alloc: Global, line: usize) -> Refusal
    ensures { Tells result kind_is.Misplaced line None }
{
    let texts = both(
        alloc,
        "cells of given widths can't be in a table that finds its own",
        "write `cell auto` and `row`, in a `table auto` of its own for a table in a cell",
    );
    refusal(Kind::Misplaced, line, FIRST, None, texts)
}

/// A cell that finds its width isn't directly inside a table. The other line is that of the innermost level of one, if
/// it is in one.
pub fn in_no_table(alloc: Global, line: usize, level: Option<&Level>) -> Refusal
    ensures { Tells result kind_is.Misplaced line (option_map (λ l. l.now.line) level.entry) }
{
    let related = level.map(|level| Related {
        line: level.line,
        note: level.by.note(),
    });
    let texts = outside_of_table(alloc, level);
    refusal(Kind::Misplaced, line, FIRST, related, texts)
}

/// What is said of such a cell.
fn outside_of_table(alloc: Global, level: Option<&Level>) -> Result<(String, String), AllocError> {
    let message = String::from_str(alloc, "`cell auto` isn't directly inside a table")?;
    let help = match level {
        Some(level) => {
            let end = level.by.end();
            format!(in alloc; "write `{end}` first")?
        }
        None => String::from_str(
            alloc,
            "write `table auto` before it, or give the cell its columns, as `cell 12 1`",
        )?,
    };
    Ok((message, help))
}

/// A table would begin under a cell that takes more rows than were added. The other line is that of the last one.
pub fn under_a_cell(alloc: Global, line: usize, cell: Option<usize>) -> Refusal
    ensures { Tells result kind_is.RowDoesNotFit line cell }
{
    let texts = both(
        alloc,
        "a table can't begin under a cell that takes more rows",
        "write a `row` for each row that the cell takes, or give it fewer",
    );
    refusal(Kind::RowDoesNotFit, line, FIRST, taking_rows(cell), texts)
}

/// The line of a cell that takes more rows than one.
fn taking_rows(cell: Option<usize>) -> Option<Related>
    ensures { option_map (λ r. r.line) result ≡ cell }
{
    cell.map(|line| Related {
        line,
        note: "this cell takes more rows than one",
    })
}

/// A level is still open at the end of the script.
pub fn still_open(alloc: Global, line: usize, level: &Level) -> Refusal
    ensures { Tells result kind_is.StillOpen line (Some level.now.line) }
{
    let related = Some(Related {
        line: level.line,
        note: level.by.note(),
    });
    let name = level.by.name();
    let end = level.by.end();
    let texts = unended(alloc, name, end);
    refusal(Kind::StillOpen, line, None, related, texts)
}

/// What is said where a level isn't ended.
fn unended(alloc: Global, name: &str, end: &str) -> Result<(String, String), AllocError> {
    Ok((
        format!(in alloc; "the script ends inside {name}")?,
        format!(in alloc; "write `{end}` before the end")?,
    ))
}

/// A level closes, or the script ends, before the row of cells that wait.
pub fn cells_wait(alloc: Global, line: usize, first_cell: Option<usize>) -> Refusal
    ensures { Tells result kind_is.CellsWait line first_cell }
{
    let related = first_cell.map(|line| Related {
        line,
        note: "the first cell that waits was opened here",
    });
    let texts = both(alloc, "cells wait for their row", "write `row` before it");
    refusal(Kind::CellsWait, line, None, related, texts)
}

/// A row is in the way of cells that overhang from the rows above.
pub fn row_does_not_fit(alloc: Global, line: usize, columns: usize, notes: &Notes) -> Refusal
    ensures { Tells result kind_is.RowDoesNotFit line notes.now.spanning }
{
    let texts = in_the_way(alloc, columns, notes.row_columns);
    refusal(
        Kind::RowDoesNotFit,
        line,
        FIRST,
        taking_rows(notes.spanning),
        texts,
    )
}

/// What is said of a row that doesn't fit.
fn in_the_way(
    alloc: Global,
    columns: usize,
    row_columns: usize,
) -> Result<(String, String), AllocError> {
    Ok((
        format!(in alloc;
            "the row takes {row_columns} of {columns} columns, and is in the way of a cell above that takes more rows"
        )?,
        format!(in alloc; "this row needs an empty cell of the same width under that cell")?,
    ))
}

/// A text has a character that is wider than its block.
pub fn too_narrow(alloc: Global, line: usize, too_wide: Option<TooWide>) -> Refusal
    ensures { Tells result kind_is.TooNarrow line (option_map (λ t. t.line) too_wide) }
{
    let related = too_wide.map(|found| Related {
        line: found.line,
        note: "the text is here",
    });
    refusal(Kind::TooNarrow, line, None, related, wider(alloc, too_wide))
}

/// What is said of a character that is wider than its block.
fn wider(alloc: Global, too_wide: Option<TooWide>) -> Result<(String, String), AllocError> {
    let message = match too_wide {
        Some(
            TooWide {
                character,
                columns,
                ..
            },
        ) => format!(in alloc; "`{character}` takes 2 columns, and its block has {columns}")?,
        None => format!(in alloc; "a character is wider than its block")?,
    };
    let help = format!(in alloc; "give the block two columns, or `new` the option `overflow`")?;
    Ok((message, help))
}

/// The prefix of a block leaves it no column.
pub fn no_room(alloc: Global, line: usize, block: Block, columns: usize, width: usize) -> Refusal
    ensures { Tells result kind_is.NoRoom line None }
{
    let texts = no_column(alloc, block.name(), columns, width);
    refusal(Kind::NoRoom, line, FIRST, None, texts)
}

/// What is said of a prefix that leaves no column.
fn no_column(
    alloc: Global,
    name: &str,
    columns: usize,
    width: usize,
) -> Result<(String, String), AllocError> {
    Ok((
        format!(in alloc; "the prefix of {name} takes {columns} columns, and there are {width}")?,
        format!(in alloc; "give it more columns, or put it further out")?,
    ))
}

/// Lines of a cell are lost, since it takes more rows than are added. The other line is that of the last cell that
/// takes several.
pub fn lost_lines(alloc: Global, line: usize, cell: Option<usize>) -> Result<Problem, AllocError>
    ensures { IfOk result (λ problem. IsOf problem kind_is.LinesLost line cell) }
{
    let (message, help) = both(
        alloc,
        "a cell takes more rows than come, and what is left of it isn't shown",
        "write a `row` for each row that the cell takes, or give it fewer",
    )?;
    Ok(Problem {
        kind: Kind::LinesLost,
        line,
        column: None,
        message,
        related: taking_rows(cell),
        help,
    })
}

/// Something that began on a line isn't ended in its level.
pub fn not_ended(alloc: Global, line: usize, stretch: Stretch) -> Result<Problem, AllocError>
    ensures { IfOk result (λ problem. IsOf problem kind_is.NotEnded line None) }
{
    let word = stretch.word();
    let end = stretch.end();
    Ok(Problem {
        kind: Kind::NotEnded,
        line,
        column: FIRST,
        message: format!(in alloc; "`{word}` isn't ended")?,
        related: None,
        help: format!(in alloc; "write `{end}` after it, in the same block or cell")?,
    })
}

/// A row takes more columns than were set instead of those of the script.
pub fn row_too_wide(
    alloc: Global,
    line: usize,
    columns: usize,
    width: usize,
) -> Result<Problem, AllocError>
    ensures { IfOk result (λ problem. IsOf problem kind_is.RowTooWide line None) }
{
    Ok(Problem {
        kind: Kind::RowTooWide,
        line,
        column: FIRST,
        message: format!(in alloc; "the row takes {columns} columns, and --width says {width}")?,
        related: None,
        help: format!(in alloc;
            "cells keep the columns that the script says: give --width {columns}"
        )?,
    })
}

/// Two texts.
fn both(alloc: Global, message: &str, help: &str) -> Result<(String, String), AllocError> {
    Ok((
        String::from_str(alloc, message)?,
        String::from_str(alloc, help)?,
    ))
}

/// The word of a command that ends something.
pub fn word(command: &Command) -> &'static str
    ensures { result.now ≡ word_of command.now }
{
    match command {
        Command::Ask(Request::End(kind)) => ending(*kind),
        Command::EndLink => "endlink",
        Command::EndCell => "endcell",
        Command::Append(_) => "append",
        _ => "it",
    }
}
