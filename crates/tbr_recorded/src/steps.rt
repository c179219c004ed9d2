//! Commands as steps, and calls as commands.
ghost use Rattle.std.specs.Prelude.{◌≡◌, [], max, chars, string_bytes, IfOk, IfSome};
ghost use Rattle.std.specs.Option.{option_map};
ghost use Rattle.tbr_model.specs.Width.{width_of_text};
ghost use Rattle.tbr_commands.specs.Request.{request_of};
ghost use Rattle.tbr_commands.specs.Command.{command_of, IsSized};
ghost use Rattle.tbr_tables.specs.Laws.{HasSize};
ghost use Rattle.tbr_recorded.specs.Steps as model;

use std::alloc::Global;
use tbr_commands::{Beginning, Command, Kind, Layout, NewCell, Request};
use tbr_model::CharWidth;
use tbr_script::TextPair;
use tbr_tables::{Call, Step};
use tbr_tagged::{OutOfMemory, text_width};

/// The step that a command is.
pub fn step_of<W: CharWidth>(command: &Command) -> Result<Step, OutOfMemory>
    ensures { IfOk result (λ step. step ≡ model.step_of W.columns (command_of command.now)) }
{
    match command {
        Command::Ask(request) => Ok(step_of_request(request)),
        Command::Link(_) | Command::EndLink => Ok(Step::Text),
        Command::Sub(width) => Ok(Step::Sub(*width)),
        Command::Append(prefixes) => Ok(Step::Append(columns_of::<W>(prefixes)?)),
        Command::Cell(cell) => Ok(Step::GivenCell(cell.width, cell.align)),
        Command::EndCell => Ok(Step::EndGivenCell),
        Command::Row { .. } => Ok(Step::GivenRow),
        Command::VerticalRow => Ok(Step::VerticalRow),
    }
}

/// The same of a request.
fn step_of_request(request: &Request) -> Step
    ensures { result ≡ model.step_of_request (request_of request.now) }
{
    match request {
        Request::Layout(_) | Request::Border(None) => Step::EndLine,
        Request::Border(Some(width)) => Step::Border(*width),
        Request::Begin(Beginning::Mode(mode)) => Step::BeginMode(*mode),
        Request::End(Kind::Mode) => Step::EndMode,
        _ => Step::Text,
    }
}

/// The columns of the wider of two prefixes.
fn columns_of<W: CharWidth>(prefixes: &TextPair) -> Result<usize, OutOfMemory>
    ensures { IfOk result (λ columns. columns
        ≡ max (width_of_text W.columns (chars (string_bytes prefixes.now.first)))
        (width_of_text W.columns (chars (string_bytes prefixes.now.second)))) }
{
    let first = text_width::<W>(prefixes.first.as_str())?;
    let others = text_width::<W>(prefixes.second.as_str())?;
    Ok(first.max(others))
}

/// The command that a call is, where borders are drawn or not, or `None` for that of its step.
pub fn command_of(alloc: Global, borders: bool, call: Call) -> Option<Command>
    ensures command { option_map command_of result ≡ model.command_for borders call }
    ensures sized { HasSize call → IfSome result (λ command. IsSized (command_of command)) }
{
    match call {
        Call::Given => None,
        Call::StartTable => Some(Command::Ask(Request::Layout(Layout::StartTable))),
        Call::EndBlock => Some(Command::Ask(Request::Layout(Layout::EndBlock))),
        Call::Border(_) if !borders => None,
        Call::Border(width) => Some(Command::Ask(Request::Border(Some(width)))),
        Call::Sub(width) => Some(Command::Sub(width)),
        Call::Append => Some(Command::Append(no_prefixes(alloc))),
        Call::EndCell => Some(Command::EndCell),
        Call::Row => Some(Command::Row { collapse: borders }),
        Call::VerticalRow => Some(Command::VerticalRow),
        Call::Cell(cell) => Some(Command::Cell(NewCell {
            width: cell.width,
            span: cell.rows,
            align: cell.align,
        })),
    }
}

/// Empty prefixes.
fn no_prefixes(alloc: Global) -> TextPair
    ensures first { string_bytes result.first ≡ [] }
    ensures second { string_bytes result.second ≡ [] }
{
    TextPair {
        first: String::new(alloc),
        second: String::new(alloc),
    }
}
