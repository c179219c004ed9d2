//! How problems are reported.

use std::alloc::{AllocError, Global};
use std::io::ErrorKind;
use tbr_statements::Problem;

/// The characters of a line that are shown at most.
const SHOWN: usize = 120;

/// The characters that the escape of a control character has at most.
const ESCAPE: usize = 6;

/// The lines that report a problem with a script of this name. Control characters are shown as escapes.
pub fn report(
    alloc: Global,
    name: &str,
    script: &[u8],
    problem: &Problem,
) -> Result<String, AllocError> {
    let mut text = String::new(alloc);
    push_place(alloc, &mut text, name, problem.line, problem.column)?;
    let kind = if problem.kind.is_warning() {
        "warning: "
    } else {
        "error: "
    };
    text.push_str(kind)?;
    push_line(&mut text, problem.message.as_str())?;
    push_line_of(&mut text, alloc, script, problem.line)?;
    if let Some(related) = problem.related {
        push_place(alloc, &mut text, name, related.line, None)?;
        text.push_str("note: ")?;
        push_line(&mut text, related.note)?;
        push_line_of(&mut text, alloc, script, related.line)?;
    }
    text.push_str("  help: ")?;
    push_line(&mut text, problem.help.as_str())?;
    Ok(text)
}

/// The line that says why a file of this name isn't read. Control characters are shown as escapes.
pub fn unread(alloc: Global, name: &str, kind: ErrorKind) -> Result<String, AllocError> {
    let mut text = String::from_str(alloc, "blockview: ")?;
    push_shown(&mut text, name)?;
    text.push(' ')?;
    push_line(&mut text, why_unread(kind))?;
    Ok(text)
}

/// Why a file isn't read.
fn why_unread(kind: ErrorKind) -> &'static str {
    match kind {
        ErrorKind::NotFound => "isn't there",
        ErrorKind::IsADirectory => "is a folder",
        ErrorKind::PermissionDenied => "may not be read: permission is denied",
        _ => "can't be read",
    }
}

/// Appends a place in a script of this name, with its column if that is known.
fn push_place(
    alloc: Global,
    text: &mut String,
    name: &str,
    line: usize,
    column: Option<usize>,
) -> Result<(), AllocError> {
    push_shown(text, name)?;
    let place = match column {
        Some(column) => format!(in alloc; ":{line}:{column}: ")?,
        None => format!(in alloc; ":{line}: ")?,
    };
    text.push_str(place.as_str())
}

/// Appends the line of a script that has this number, if there is one.
fn push_line_of(
    text: &mut String,
    alloc: Global,
    script: &[u8],
    number: usize,
) -> Result<(), AllocError> {
    let Some(line) = script.split(|b| *b == b'\n').nth(number.saturating_sub(1)) else {
        return Ok(());
    };
    if line.is_empty() {
        return Ok(());
    }
    let line = String::from_utf8_lossy(alloc, line)?;
    text.push_str("    ")?;
    push_line(text, &line)
}

/// Appends a line as far as it is shown.
fn push_line(text: &mut String, line: &str) -> Result<(), AllocError> {
    let mut left = SHOWN;
    for c in line.chars() {
        let length = if c.is_control() { ESCAPE } else { 1 };
        if length > left {
            text.push('…')?;
            break;
        }
        left -= length;
        push_character(text, c)?;
    }
    text.push('\n')
}

/// Appends a text whose control characters are shown as escapes.
fn push_shown(text: &mut String, more: &str) -> Result<(), AllocError> {
    for c in more.chars() {
        push_character(text, c)?;
    }
    Ok(())
}

/// Appends a character, a control character as the escape that a script has for it.
fn push_character(text: &mut String, c: char) -> Result<(), AllocError> {
    match c {
        '\n' => text.push_str("\\n"),
        '\t' => text.push_str("\\t"),
        _ if c.is_control() => {
            let code = u32::from(c);
            let escape = format!(in *text.allocator(); "\\u{{{code:x}}}")?;
            text.push_str(escape.as_str())
        }
        _ => text.push(c),
    }
}
