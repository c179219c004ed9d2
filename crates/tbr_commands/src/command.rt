//! What a line of a script asks for.
ghost use Rattle.std.specs.Prelude.{◌≡◌, Some, None, IfOk, IfSome, codes};
ghost use Rattle.std.specs.Option.{option_map};
ghost use Rattle.tbr_commands.specs.Command as asked;
ghost use Rattle.tbr_commands.specs.Command.{command_of};
ghost use Rattle.tbr_commands.specs.Read.{looked_up, endings, names, name_read, level_readers, read_by, argument_read, line_read, command_read, as_written, plain_read};
ghost use Rattle.tbr_commands.specs.Request as requests;

use crate::command::new_cell::NewCell;
use crate::request::Request;
use crate::request::beginning::Beginning;
use crate::request::kind::Kind;
use crate::request::layout::Layout;
use crate::spaces::split_at_space;
use memchr::memchr;
use std::alloc::{AllocError, Global};
use tbr_script::{TextPair, parse_size, unescape};

pub mod new_cell;

/// What a line of a script after the first command asks for.
#[derive(Debug, Drop)]
pub enum Command {
    /// One call of the renderer that is open.
    Ask(Request),
    /// A link begins, by its target.
    Link(String),
    /// The link that began last ends.
    EndLink,
    /// A block of this many columns, at least 1, opens inside the renderer that is open.
    Sub(usize),
    /// The block that is open closes. Its lines are added to the renderer outside: the first after one prefix, and each
    /// other after another.
    Append(TextPair),
    /// A cell opens inside the renderer that is open.
    Cell(NewCell),
    /// The cell that is open closes, and waits.
    EndCell,
    /// The cells that wait are added to the renderer that is open, side by side.
    Row {
        /// Whether borders at the tops and bottoms of cells are merged with those of the row.
        collapse: bool,
    },
    /// The cells that wait are added to the renderer that is open, one below another.
    VerticalRow,
}

impl Command {
    /// The text that a line asks for, where it is written without a backslash: what follows the word and a space.
    /// `None` for any other line. It takes no memory.
    pub fn plain_text(line: &str) -> Option<&str>
        ensures value { option_map (λ text. text.now) result ≡ plain_read (codes "text ") line.now }
        ensures asked { IfSome result (λ text. command_read line.now ≡ Some (asked.ask (requests.text text.now))) }
    {
        as_written(line.strip_prefix("text ")?)
    }

    /// The target of the link that a line begins, where it is written so too. `None` for any other line. It takes no
    /// memory.
    pub fn plain_link(line: &str) -> Option<&str>
        ensures value { option_map (λ target. target.now) result ≡ plain_read (codes "link ") line.now }
        ensures asked { IfSome result (λ target. command_read line.now ≡ Some (asked.link target.now)) }
    {
        as_written(line.strip_prefix("link ")?)
    }

    /// What a line asks for, without its newline. `Ok(None)` where it is no command. It refuses only where memory is
    /// refused.
    pub fn parse(alloc: Global, line: &str) -> Result<Option<Command>, AllocError>
        ensures { IfOk result (λ found. option_map command_of found ≡ command_read line.now) }
    {
        match split_at_space(line) {
            Some((word, argument)) => Command::with_argument(alloc, word, argument),
            None => Ok(Command::named(line)),
        }
    }

    /// The command that is a name alone.
    fn named(name: &str) -> Option<Command>
        ensures { option_map command_of result ≡ name_read name.now }
    {
        match Command::ending(name) {
            Some(command) => Some(command),
            None => Command::beginning(name),
        }
    }

    /// The command that is a name alone, which begins with `end`.
    fn ending(name: &str) -> Option<Command>
        ensures { option_map command_of result ≡ looked_up endings name.now }
    {
        match name {
            "endlink" => Some(Command::EndLink),
            "endcell" => Some(Command::EndCell),
            "endblock" => Some(Command::Ask(Request::Layout(Layout::EndBlock))),
            "endws" => Some(Command::Ask(Request::End(Kind::Mode))),
            "endpre" => Some(Command::Ask(Request::End(Kind::Preformat))),
            "endem" => Some(Command::Ask(Request::End(Kind::Emphasis))),
            "endstrong" => Some(Command::Ask(Request::End(Kind::Strong))),
            "endstrike" => Some(Command::Ask(Request::End(Kind::Strikeout))),
            "endcode" => Some(Command::Ask(Request::End(Kind::Code))),
            "endsuper" => Some(Command::Ask(Request::End(Kind::Superscript))),
            "endcolour" => Some(Command::Ask(Request::End(Kind::Colour))),
            "endbg" => Some(Command::Ask(Request::End(Kind::Background))),
            _ => None,
        }
    }

    /// The command that is another name alone.
    fn beginning(name: &str) -> Option<Command>
        ensures { option_map command_of result ≡ looked_up names name.now }
    {
        match name {
            "block" => Some(Command::Ask(Request::Layout(Layout::StartBlock))),
            "table" => Some(Command::Ask(Request::Layout(Layout::StartTable))),
            "line" => Some(Command::Ask(Request::Layout(Layout::NewLine))),
            "hardline" => Some(Command::Ask(Request::Layout(Layout::HardNewLine))),
            "empty" => Some(Command::Ask(Request::Layout(Layout::EmptyLine))),
            "pre" => Some(Command::Ask(Request::Begin(Beginning::Preformat))),
            "em" => Some(Command::Ask(Request::Begin(Beginning::Emphasis))),
            "strong" => Some(Command::Ask(Request::Begin(Beginning::Strong))),
            "strike" => Some(Command::Ask(Request::Begin(Beginning::Strikeout))),
            "code" => Some(Command::Ask(Request::Begin(Beginning::Code))),
            "super" => Some(Command::Ask(Request::Begin(Beginning::Superscript))),
            "border" => Some(Command::Ask(Request::Border(None))),
            "row" => Some(Command::Row { collapse: false }),
            "vrow" => Some(Command::VerticalRow),
            _ => None,
        }
    }

    /// The command that a word and its argument are.
    fn with_argument(
        alloc: Global,
        word: &str,
        argument: &str,
    ) -> Result<Option<Command>, AllocError>
        ensures { IfOk result (λ found. option_map command_of found ≡ argument_read word.now argument.now) }
    {
        match Request::with_argument(alloc, word, argument)? {
            Some(request) => Ok(Some(Command::Ask(request))),
            None => Command::of_levels(alloc, word, argument),
        }
    }

    /// What a line that begins or ends a link, a block, a cell or a row asks for. `None` where it is no such command.
    fn of_levels(alloc: Global, word: &str, argument: &str) -> Result<Option<Command>, AllocError>
        ensures { IfOk result (λ found. option_map command_of found ≡ read_by level_readers word.now argument.now) }
    {
        match word {
            "link" => Ok(unescape(alloc, argument)?.map(Command::Link)),
            "sub" => Ok(parse_size(argument).map(Command::Sub)),
            "append" => Ok(TextPair::parse(alloc, argument)?.map(Command::Append)),
            "cell" => Ok(NewCell::parse(argument).map(Command::Cell)),
            "row" if argument == "collapse" => Ok(Some(Command::Row { collapse: true })),
            _ => Ok(None),
        }
    }
}

/// A writing, as it is, where it has no backslash.
fn as_written(writing: &str) -> Option<&str>
    ensures { option_map (λ text. text.now) result ≡ as_written writing.now }
{
    match memchr(b'\\', writing.as_bytes()) {
        Some(_) => None,
        None => Some(writing),
    }
}
