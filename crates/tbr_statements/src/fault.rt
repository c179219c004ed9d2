//! Why a line isn't a command.
ghost use Rattle.std.specs.Prelude.{◌≡◌, ◌≤◌, length, IfOk, IfSome};
ghost use Rattle.tbr_statements.specs.Fault as model;

use crate::number::Number;
use crate::placed::{PlacedWords, characters};
use crate::words::{ALIGNMENTS, DECORATORS, FORMS, MODES, OPTIONS, first_word, form_of, nearest};
use std::alloc::{AllocError, Global};
use tbr_commands::Opening;
use tbr_script::unescape;

/// U+FEFF, which some editors put in front of a file.
const BYTE_ORDER_MARK: char = '\u{feff}';

/// The words of commands whose text is written on a line below.
const TEXT_BELOW: [&str; 9] = [
    "heading", "quote", "item", "ordered", "block", "line", "em", "strong", "code",
];

/// How a cell begins that finds its width, and how it is written.
const AUTO_CELL: &str = "cell auto";

const AUTO_CELL_FORM: &str = "cell auto [ROWS [COLUMNS]] [left|right|centre]";

/// How a table of such cells begins, which is how it is written.
const AUTO_TABLE: &str = "table auto";

/// What is before the number of an option.
const WRAP: &str = "wrap=";

/// What is wrong with a line, and one way to correct it.
#[derive(Debug, Drop)]
pub struct Fault {
    /// The character of the line where the word at fault begins, counted from 1, if a word is at fault.
    pub column: Option<usize>,
    /// What is wrong.
    pub message: String,
    /// The way to correct it.
    pub help: String,
}

/// The column of a line's first word.
const FIRST: usize = 1;

/// Why a line isn't a command, or isn't a first command. It refuses only where memory is refused.
pub fn fault_of(alloc: Global, line: &str, is_first: bool) -> Result<Fault, AllocError> {
    if let Some(fault) = fault_of_file(alloc, line)? {
        return Ok(fault);
    }
    if let Some(fault) = fault_of_spaces(alloc, line)? {
        return Ok(fault);
    }
    match (first_word(line), is_first) {
        ("new", true) => fault_of_opening(alloc, line),
        ("new", false) => fixed(
            alloc,
            FIRST,
            "`new` comes once, at the beginning",
            "take the line away",
        ),
        (word, true) if form_of(word).is_some() => fixed(
            alloc,
            FIRST,
            "the first command isn't `new`",
            "begin the script with `new 60 plain`",
        ),
        (word, _) => fault_of_word(alloc, word, line),
    }
}

/// A fault whose texts are known.
fn fixed(alloc: Global, column: usize, message: &str, help: &str) -> Result<Fault, AllocError> {
    Ok(Fault {
        column: Some(column),
        message: String::from_str(alloc, message)?,
        help: String::from_str(alloc, help)?,
    })
}

/// What an editor did to the file, if that is wrong with the line.
fn fault_of_file(alloc: Global, line: &str) -> Result<Option<Fault>, AllocError> {
    if line.starts_with(BYTE_ORDER_MARK) {
        let fault = fixed(
            alloc,
            FIRST,
            "the line begins with a byte order mark",
            "save the file without it",
        )?;
        return Ok(Some(fault));
    }
    if line.ends_with('\r') {
        let fault = fixed(
            alloc,
            characters(line),
            "the line ends with CR LF",
            "save the file with lines that end with LF, as `tr -d '\\r'` makes it",
        )?;
        return Ok(Some(fault));
    }
    Ok(None)
}

/// What is wrong with the spaces and tabs of the line, if that is it.
fn fault_of_spaces(alloc: Global, line: &str) -> Result<Option<Fault>, AllocError> {
    if line.starts_with(' ') || line.starts_with('\t') {
        let fault = fixed(
            alloc,
            FIRST,
            "white space is before the command",
            "begin the line with the command",
        )?;
        return Ok(Some(fault));
    }
    let trimmed = line.trim_end_matches(' ');
    let is_command = form_of(trimmed).is_some() || matches!(trimmed, AUTO_CELL | AUTO_TABLE);
    if trimmed.len() < line.len() && is_command {
        let fault = Fault {
            column: Some(characters(trimmed).saturating_add(1)),
            message: String::from_str(alloc, "a space is after the command")?,
            help: format!(in alloc; "write `{trimmed}`")?,
        };
        return Ok(Some(fault));
    }
    Ok(None)
}

/// What is wrong with a line that begins with a word.
fn fault_of_word(alloc: Global, word: &str, line: &str) -> Result<Fault, AllocError> {
    let Some(form) = form_of(word) else {
        return unknown_word(alloc, word);
    };
    if takes_text(word) {
        return fault_of_text(alloc, word, form, line);
    }
    let mut words = PlacedWords::of(line);
    let _ = words.next();
    match (word, second_word(line)) {
        ("cell", Some("auto")) => {
            let _ = words.next();
            fault_of_words(alloc, AUTO_CELL, AUTO_CELL_FORM, words)
        }
        ("table", Some("auto")) => {
            let _ = words.next();
            fault_of_words(alloc, AUTO_TABLE, AUTO_TABLE, words)
        }
        _ => fault_of_words(alloc, word, form, words),
    }
}

/// The second word of a line, if it has one.
fn second_word(line: &str) -> Option<&str> {
    let mut words = PlacedWords::of(line);
    let _ = words.next();
    let (_, word) = words.next()?;
    Some(word)
}

/// What is wrong with the words after a command.
fn fault_of_words(
    alloc: Global,
    word: &str,
    form: &str,
    words: PlacedWords<'_>,
) -> Result<Fault, AllocError> {
    match fault_of_arguments(alloc, word, form, words)? {
        Some(fault) => Ok(fault),
        None => written_otherwise(alloc, word, form),
    }
}

/// A command isn't written as it should be.
fn written_otherwise(alloc: Global, word: &str, form: &str) -> Result<Fault, AllocError> {
    Ok(Fault {
        column: Some(FIRST),
        message: format!(in alloc; "`{word}` isn't written so")?,
        help: help_of(alloc, word, form)?,
    })
}

/// How the command with this word is written.
fn help_of(alloc: Global, word: &str, form: &str) -> Result<String, AllocError> {
    let besides = besides(word);
    format!(in alloc; "write it as `{form}`{besides}")
}

/// What else is said about how the command of a word is written.
fn besides(word: &str) -> &'static str
    ensures { result.now ≡ model.besides word.now }
{
    if word == "cell" {
        "; SPAN is 1 for an ordinary cell"
    } else if TEXT_BELOW.contains(&word) {
        ", and its text on a `text` line below"
    } else {
        ""
    }
}

/// What is wrong with the first of the words after a command's that isn't allowed there, if there is one.
fn fault_of_arguments(
    alloc: Global,
    word: &str,
    form: &str,
    words: PlacedWords<'_>,
) -> Result<Option<Fault>, AllocError> {
    let mut words = words;
    let mut place = 0usize;
    while let Some((column, argument)) = words.next() {
        let fault = fault_of_argument(alloc, word, form, place, argument, column)?;
        if fault.is_some() {
            return Ok(fault);
        }
        place = place.saturating_add(1);
    }
    Ok(None)
}

/// What is wrong with the word at a place after a command's, counted from 0, if something is.
fn fault_of_argument(
    alloc: Global,
    word: &str,
    form: &str,
    place: usize,
    argument: &str,
    column: usize,
) -> Result<Option<Fault>, AllocError> {
    if let Some(number) = number_at(word, place, argument) {
        if number.takes(argument) {
            return Ok(None);
        }
        let message = not_in_limits(alloc, word, number, argument)?;
        let help = help_of(alloc, word, form)?;
        let column = Some(column);
        return Ok(Some(Fault {
            column,
            message,
            help,
        }));
    }
    match (word, place, argument) {
        ("cell", 2, "left" | "right" | "centre") | ("row", 0, "collapse") => Ok(None),
        ("cell auto", _, "left" | "right" | "centre") => Ok(None),
        ("cell", 2, _) | ("cell auto", _, _) => Ok(Some(unknown(
            alloc,
            column,
            "an alignment",
            argument,
            &ALIGNMENTS,
        )?)),
        ("ws", 0, "normal" | "pre" | "prewrap") => Ok(None),
        ("ws", 0, _) => Ok(Some(unknown(alloc, column, "a mode", argument, &MODES)?)),
        _ => Ok(Some(too_much(alloc, word, form, column)?)),
    }
}

/// The number that a command takes at a place after it, if it takes one there. Those of `cell auto` may be left out, so
/// only what begins with a digit is meant as one.
fn number_at(word: &str, place: usize, argument: &str) -> Option<Number> {
    if word == AUTO_CELL && !argument.starts_with(|c: char| c.is_ascii_digit()) {
        return None;
    }
    Number::of(word, place)
}

/// What is said of a number that isn't within its limits.
fn not_in_limits(
    alloc: Global,
    of: &str,
    number: Number,
    digits: &str,
) -> Result<String, AllocError> {
    let Number {
        name,
        least,
        greatest,
    } = number;
    format!(in alloc; "`{of}` takes {name} from {least} to {greatest}, not `{digits}`")
}

/// A command has more words than it may have.
fn too_much(alloc: Global, word: &str, form: &str, column: usize) -> Result<Fault, AllocError> {
    Ok(Fault {
        column: Some(column),
        message: format!(in alloc; "`{word}` has too much after it")?,
        help: help_of(alloc, word, form)?,
    })
}

/// A word that isn't a command.
fn unknown_word(alloc: Global, word: &str) -> Result<Fault, AllocError> {
    let message = format!(in alloc; "`{word}` isn't a command")?;
    let help = match nearest(alloc, word, &FORMS)? {
        Some(form) => format!(in alloc; "write `{form}`")?,
        None => help_far_from_all(alloc, word)?,
    };
    Ok(Fault {
        column: Some(FIRST),
        message,
        help,
    })
}

/// The help if no command is similar to a word.
fn help_far_from_all(alloc: Global, word: &str) -> Result<String, AllocError> {
    match word.strip_prefix("end") {
        Some(begun) if form_of(begun).is_some() => {
            format!(in alloc; "take the line away: `{begun}` has no end")
        }
        _ => String::from_str(alloc, "`blockview --help` lists the commands"),
    }
}

/// Whether what is after a word is a text with escapes.
fn takes_text(word: &str) -> bool {
    matches!(word, "text" | "frag" | "link" | "image" | "append")
}

/// What is wrong with a command that takes a text.
fn fault_of_text(alloc: Global, word: &str, form: &str, line: &str) -> Result<Fault, AllocError> {
    match bad_escape(alloc, line)? {
        Some(column) => fixed(
            alloc,
            column,
            "a backslash begins no escape",
            "write `\\\\` for a backslash; there are `\\n`, `\\t`, `\\\\` and `\\u{h}` besides",
        ),
        None => written_otherwise(alloc, word, form),
    }
}

/// The character of a line, counted from 1, that is a backslash which begins no escape, if there is one.
fn bad_escape(alloc: Global, line: &str) -> Result<Option<usize>, AllocError> {
    let mut rest = line;
    while let Some((_, after)) = rest.split_once('\\') {
        match after_escape(alloc, after)? {
            Some(later) => rest = later,
            None => {
                let column = characters(line).saturating_sub(characters(after));
                return Ok(Some(column));
            }
        }
    }
    Ok(None)
}

/// What follows the escape that begins after a backslash, if one does.
fn after_escape(alloc: Global, after: &str) -> Result<Option<&str>, AllocError>
    ensures { IfOk result (λ found. IfSome found (λ rest. length rest.now ≤ length after.now)) }
{
    let mut rest = after.chars();
    match rest.next() {
        Some('n' | 't' | '\\') => Ok(Some(rest.as_str())),
        Some('u') => after_code(alloc, rest.as_str()),
        _ => Ok(None),
    }
}

/// What follows the braces of an escape, if a character is in them.
fn after_code(alloc: Global, after: &str) -> Result<Option<&str>, AllocError>
    ensures { IfOk result (λ found. IfSome found (λ rest. length rest.now ≤ length after.now)) }
{
    let Some((code, rest)) = after.split_once('}') else {
        return Ok(None);
    };
    let escape = format!(in alloc; "\\u{code}}}")?;
    match unescape(alloc, escape.as_str())? {
        Some(_) => Ok(Some(rest)),
        None => Ok(None),
    }
}

/// What is wrong with a `new`.
fn fault_of_opening(alloc: Global, line: &str) -> Result<Fault, AllocError> {
    let mut words = PlacedWords::of(line);
    let _ = words.next();
    let (Some((at, width)), Some((column, decorator))) = (words.next(), words.next()) else {
        return fixed(
            alloc,
            FIRST,
            "`new` has no width or no decorator",
            "write it as `new 60 plain`",
        );
    };
    if let Some(number) = Number::of("new", 0)
        && !number.takes(width)
    {
        return Ok(Fault {
            column: Some(at),
            message: not_in_limits(alloc, "new", number, width)?,
            help: String::from_str(alloc, "write it as `new 60 plain`")?,
        });
    }
    if !DECORATORS.contains(&decorator) {
        return unknown(alloc, column, "a decorator", decorator, &DECORATORS);
    }
    fault_of_options(alloc, words)
}

/// What is wrong with the first of the words that isn't an option.
fn fault_of_options(alloc: Global, words: PlacedWords<'_>) -> Result<Fault, AllocError> {
    let mut words = words;
    while let Some((column, option)) = words.next() {
        let line = format!(in alloc; "new 1 plain {option}")?;
        if Opening::parse(line.as_str()).is_none() {
            return fault_of_option(alloc, column, option);
        }
    }
    fixed(
        alloc,
        FIRST,
        "`new` isn't written so",
        "write it as `new W DECORATOR OPTIONS`",
    )
}

/// What is wrong with a word that isn't an option.
fn fault_of_option(alloc: Global, column: usize, option: &str) -> Result<Fault, AllocError> {
    match option.strip_prefix(WRAP) {
        Some(digits) => Ok(Fault {
            column: Some(column.saturating_add(WRAP.len())),
            message: not_in_limits(alloc, "wrap=N", Number::of_wrap(), digits)?,
            help: String::from_str(alloc, "write it as `wrap=40`")?,
        }),
        None => unknown(alloc, column, "an option", option, &OPTIONS),
    }
}

/// A word that isn't one of those that are allowed there.
fn unknown(
    alloc: Global,
    column: usize,
    what: &str,
    word: &str,
    among: &[&'static str],
) -> Result<Fault, AllocError> {
    let message = format!(in alloc; "`{word}` isn't {what}")?;
    let help = match nearest(alloc, word, among)? {
        Some(near) => format!(in alloc; "write `{near}`")?,
        None => listed(alloc, among)?,
    };
    Ok(Fault {
        column: Some(column),
        message,
        help,
    })
}

/// The words that are allowed there.
fn listed(alloc: Global, among: &[&'static str]) -> Result<String, AllocError> {
    let mut help = String::from_str(alloc, "one of")?;
    for (place, word) in among.iter().enumerate() {
        let before = if place == 0 { " " } else { ", " };
        help.push_str(before)?;
        help.push_str(word)?;
    }
    Ok(help)
}
