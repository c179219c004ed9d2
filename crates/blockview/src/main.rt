//! Shows scripts for people: as text, for a terminal, as JSON or as HTML.
#![tactic(auto)]

ghost use Rattle.std.specs.Prelude.{◌≡◌};
ghost use Rattle.blockview.specs.Status.{status_of_refusal};

use crate::arguments::{command, has_idle_colour, settings_of, shows_colours};
use crate::output::Output;
use crate::report::{report, unread};
use clap::error::ErrorKind;
use clap::{ArgMatches, Command, Error};
use std::io::{IsTerminal, Read};
use std::process::ExitCode;
use std::{env, fs, io};
use tbr_show::AmbiguousWide;
use tbr_statements::{Problem, Refusal};
use tbr_tagged::UnicodeColumns;
use tbr_view::{Settings, Shown, view};

mod arguments;
mod output;
mod report;
mod version;

/// The status where memory is refused.
const OUT_OF_MEMORY: u8 = 1;

/// The status where a file isn't read, or the output isn't written.
const FAILED: u8 = 3;

fn main(rt: HostRuntime) -> ExitCode {
    let Ok(words) = words_of(&rt) else {
        let _ = rt.eprintln("blockview: the command line isn't UTF-8, or memory is refused");
        return ExitCode::from(OUT_OF_MEMORY);
    };
    match matches_of(&rt, words.as_slice()) {
        Ok(matches) => ExitCode::from(show_all(&rt, &matches)),
        Err(e) => {
            let _ = e.print(&rt);
            ExitCode::from(if e.use_stderr() { 2 } else { 0 })
        }
    }
}

/// The words of the command line.
fn words_of(rt: &HostRuntime) -> io::Result<Vec<String>> {
    Ok(env::args(rt)?.collect(rt.alloc())?)
}

/// What the words ask for.
fn matches_of<'a>(rt: &HostRuntime, words: &'a [String]) -> Result<ArgMatches<'a>, Error> {
    let mut command: Command<'a> = command(rt.alloc())?;
    let matches = command.try_get_matches_from_mut(words)?;
    if has_idle_colour(&matches) {
        let message = "the argument '--colour' says nothing without '--format ansi'";
        return Err(command.error(ErrorKind::ArgumentConflict, message)?);
    }
    Ok(matches)
}

/// Shows all files, and answers the status.
fn show_all(rt: &HostRuntime, matches: &ArgMatches) -> u8 {
    let no_color = env::var(rt, "NO_COLOR").ok();
    let no_color = no_color.as_ref().map(|value| value.as_str());
    let settings = settings_of(matches, shows_colours(rt.stdout().is_terminal(), no_color));
    let is_wide = matches.get_str("ambiguous") == Some("wide");
    let files = matches.get_strs("FILE").unwrap_or(&[]);
    let mut output = Output::new(settings.format);
    let mut status = 0;
    for file in files {
        status = status.max(show_file(rt, file, settings, is_wide, &mut output));
    }
    status.max(status_written(rt, output.end(rt)))
}

/// Shows a file, and answers the status. Nothing is written of it before its text is complete.
fn show_file(
    rt: &HostRuntime,
    file: &str,
    settings: Settings,
    is_wide: bool,
    output: &mut Output,
) -> u8 {
    let script = match read(rt, file) {
        Ok(script) => script,
        Err(e) => return tell_unread(rt, file, &e),
    };
    let result = if is_wide {
        view::<AmbiguousWide>(rt.alloc(), &script, settings)
    } else {
        view::<UnicodeColumns>(rt.alloc(), &script, settings)
    };
    match result {
        Ok(shown) => {
            tell_warnings(rt, file, &script, &shown);
            status_written(rt, output.write(rt, shown.text.as_str()))
        }
        Err(refusal) => {
            tell_refusal(rt, file, &script, &refusal);
            status_of(&refusal)
        }
    }
}

/// Says why a file isn't read, and answers the status.
fn tell_unread(rt: &HostRuntime, file: &str, e: &io::Error) -> u8 {
    if let Ok(text) = unread(rt.alloc(), file, e.kind()) {
        let _ = rt.eprint(text.as_str());
    }
    FAILED
}

/// Reports where the lines of a file differ from what its script says.
fn tell_warnings(rt: &HostRuntime, file: &str, script: &[u8], shown: &Shown) {
    for problem in shown.lost.iter().chain(shown.warnings.iter()) {
        tell(rt, file, script, problem);
    }
}

/// The status after something was written. If it couldn't be written, that is reported.
fn status_written(rt: &HostRuntime, written: io::Result<()>) -> u8 {
    match written {
        Ok(()) => 0,
        Err(_) => {
            let _ = rt.eprintln("blockview: standard output can't be written");
            FAILED
        }
    }
}

/// Says why a file isn't shown.
fn tell_refusal(rt: &HostRuntime, file: &str, script: &[u8], refusal: &Refusal) {
    match refusal {
        Refusal::Script(problem) => tell(rt, file, script, problem),
        Refusal::OutOfMemory => {
            let _ = rt.eprintln("blockview: out of memory");
        }
    }
}

/// The status where a file isn't shown.
fn status_of(refusal: &Refusal) -> u8
    ensures { result ≡ status_of_refusal refusal.now }
{
    match refusal {
        Refusal::Script(problem) => problem.kind.status(),
        Refusal::OutOfMemory => OUT_OF_MEMORY,
    }
}

/// All bytes of a file, or of standard input.
fn read(rt: &HostRuntime, file: &str) -> io::Result<Vec<u8>> {
    if file != "-" {
        return fs::read(rt, file);
    }
    let mut script = Vec::new(rt.alloc());
    rt.reader().read_to_end(&mut script)?;
    Ok(script)
}

/// Writes a problem to standard error.
fn tell(rt: &HostRuntime, file: &str, script: &[u8], problem: &Problem) {
    if let Ok(text) = report(rt.alloc(), file, script, problem) {
        let _ = rt.eprint(text.as_str());
    }
}
