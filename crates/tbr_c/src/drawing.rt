//! A table that is drawn by the commands that were recorded.
ghost use Rattle.std.specs.Prelude.{◌≡◌, Ok, Err, OnOk};
ghost use Rattle.tbr_tagged.specs.UnicodeColumns.{unicode_columns};
ghost use Rattle.tbr_tagged.specs.declared.Error.TheVariants as Refusal;
ghost use Rattle.tbr_decor.specs.Decoration.{decoration_of};
ghost use Rattle.tbr_script.specs.declared.error.RunError.TheVariants as unrun;
ghost use Rattle.tbr_commands.specs.Command.{command_of, IsSized};
ghost use Rattle.tbr_program.specs.Progress.{GoesOn};
ghost use Rattle.tbr_tables.specs.Laws.{IsSized as IsSizedCall};
ghost use Rattle.tbr_c.specs.Drawing.{drawing, drawn_made, shown_made};

use std::alloc::Global;
use tbr_commands::Command;
use tbr_decor::TextDecorator;
use tbr_program::Program;
use tbr_recorded::TableScript;
use tbr_renderer::Renderer;
use tbr_script::RunError;
use tbr_tables::Drawn;
use tbr_tagged::{Error, UnicodeColumns};

/// Draws what is recorded in the columns of the innermost level. Afterwards a program that refused isn't to be used any
/// more.
pub fn draw<D: TextDecorator>(
    program: &mut Program<D, UnicodeColumns>,
    alloc: Global,
    raw: bool,
    script: &TableScript,
) -> Result<(), Error>
    requires { GoesOn program.old }
    ensures goes_on { OnOk result (GoesOn program.new) }
    ensures drawn { let made = drawing (decoration_of D.TextDecorator D.Annotation.tells) raw script.now in
        OnOk result (made program.old ≡ Ok program.new) }
    ensures refused { let made = drawing (decoration_of D.TextDecorator D.Annotation.tells) raw script.now in
        result ≡ Err Refusal.TooNarrow → made program.old ≡ Err unrun.TooNarrow }
{
    let room = program.top().width();
    let calls = script.draw(room)?;
    for drawn in &calls {
        draw_one(program, alloc, raw, script, *drawn)?;
    }
    Ok(())
}

/// Does one call.
fn draw_one<D: TextDecorator>(
    program: &mut Program<D, UnicodeColumns>,
    alloc: Global,
    raw: bool,
    script: &TableScript,
    drawn: Drawn,
) -> Result<(), Error>
    requires goes_on { GoesOn program.old }
    requires sized { IsSizedCall drawn }
    ensures goes_on { OnOk result (GoesOn program.new) }
    ensures drawn { let made = drawn_made (decoration_of D.TextDecorator D.Annotation.tells) raw script.now drawn in
        OnOk result (made program.old ≡ Ok program.new) }
    ensures refused { let made = drawn_made (decoration_of D.TextDecorator D.Annotation.tells) raw script.now drawn in
        result ≡ Err Refusal.TooNarrow → made program.old ≡ Err unrun.TooNarrow }
{
    match script.command_of(drawn.call) {
        Some(command) => run(program, alloc, raw, &command),
        None => match script.given(drawn.step) {
            Some(command) => run(program, alloc, raw, command),
            None => Ok(()),
        },
    }
}

/// Does what a command asks for. No recorded command has another refusal than these two: where a table begins, no cell
/// waits or overhangs, and what ends in it was begun there. Others would count as `OutOfMemory`.
fn run<D: TextDecorator>(
    program: &mut Program<D, UnicodeColumns>,
    alloc: Global,
    raw: bool,
    command: &Command,
) -> Result<(), Error>
    requires goes_on { GoesOn program.old }
    requires sized { IsSized (command_of command.now) }
    ensures goes_on { OnOk result (GoesOn program.new) }
    ensures done { let make = shown_made (decoration_of D.TextDecorator D.Annotation.tells) raw in
        OnOk result (make (command_of command.now) program.old ≡ Ok program.new) }
    ensures refused { let make = shown_made (decoration_of D.TextDecorator D.Annotation.tells) raw in
        result ≡ Err Refusal.TooNarrow → make (command_of command.now) program.old ≡ Err unrun.TooNarrow }
{
    match program.run_shown(alloc, 0, command, raw) {
        Ok(()) => Ok(()),
        Err(RunError::TooNarrow) => Err(Error::TooNarrow),
        Err(_) => Err(Error::OutOfMemory),
    }
}
