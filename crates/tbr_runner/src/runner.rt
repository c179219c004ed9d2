//! From a script to its text.
ghost use Rattle.std.specs.Prelude.{◌≡◌, ◌≢◌, ◌<◌, ◌≤◌, ◌+◌, ◌^◌, ◌↔◌, ℕ, Bool, List, length, Option, Some, Result, true, false, Ok, Err, OnOk, IfOk, IfErr, IfSome, IsErrOf, string_bytes};
ghost use Rattle.std.specs.Io.KnownBytes.{Appends, Keeps};
ghost use Rattle.tbr_tagged.specs.UnicodeColumns.{unicode_columns};
ghost use Rattle.tbr_script.specs.Streams.{AppendsBeginning};
ghost use Rattle.tbr_decor.specs.Decoration.{decoration_of};
ghost use Rattle.tbr_script.specs.Script.{lines_of};
ghost use Rattle.tbr_program.specs.Progress.{GoesOn};
ghost use Rattle.tbr_program.specs.Commands.{ended, started};
ghost use Rattle.tbr_program.specs.Safe.{shown_links};
ghost use Rattle.tbr_runner.specs.Scripts.{shown_on, shown_under, shown, rendered};
ghost use Rattle.tbr_script.specs.Refusal.{IsOfScript};

use std::alloc::Global;
use std::convert::AsSlice;
use tbr_commands::{Decorator, Opening};
use tbr_decor::{PlainDecorator, RichDecorator, TextDecorator, TrivialDecorator};
use tbr_model::CharWidth;
use tbr_program::Program;
use tbr_script::{Lines, RunError, Sink, Source, write_all};
use tbr_tagged::UnicodeColumns;

/// The most bytes that a read asks for.
const CHUNK: usize = 4096;

/// Reads the whole script and writes its text.
///
/// The script is read to its end first. Then its commands are done in order, up to the first line that is faulty or
/// refuses. Nothing is written before the text is complete. So nothing is written if the script is refused; if the
/// writer fails, a beginning of the text was written. It answers `ReadFailed` exactly where the reader fails, and
/// `WriteFailed` exactly where the writer does. It answers `OutOfMemory` only where memory is refused, or where the
/// script's length passes `usize`, as with a reader that never ends.
pub fn run<R: Source, S: Sink>(
    alloc: Global,
    reader: &mut R,
    writer: &mut S,
) -> Result<(), RunError>
    requires reader_works { R.failed reader.old ≡ false }
    requires writer_works { S.failed writer.old ≡ false }

    // Over a reader that tells its bytes, the text that they give is written.
    ensures text { OnOk result (IfSome (R.remaining reader.old) (λ script. (text : List ℕ)
        × (rendered unicode_columns script ≡ Ok text)
        × Appends (S.contents writer.old) (S.contents writer.new) text)) }

    // A refusal of the script is the one that they give, with its line.
    ensures refusal { IfErr result (λ e. IsOfScript e →
        IfSome (R.remaining reader.old) (λ script. rendered unicode_columns script ≡ Err e)) }
    ensures unwritten { IfErr result (λ e. e ≢ RunError.WriteFailed →
        Keeps (S.contents writer.old) (S.contents writer.new)) }

    // A failure of the reader or the writer is answered as such, and nothing else is.
    ensures read_failed { IsErrOf result RunError.ReadFailed ↔ (R.failed reader.new ≡ true) }
    ensures write_failed { IsErrOf result RunError.WriteFailed ↔ (S.failed writer.new ≡ true) }
    ensures beginning { IsErrOf result RunError.WriteFailed →
        IfSome (R.remaining reader.old) (λ script. (text : List ℕ)
        × (rendered unicode_columns script ≡ Ok text)
        × AppendsBeginning (S.contents writer.old) (S.contents writer.new) text) }
{
    let script = read_script(alloc, reader)?;
    let text = render::<UnicodeColumns, _>(alloc, script)?;
    write_all(writer, text.as_bytes()).map_err(|_| RunError::WriteFailed)
}

/// All the bytes that the reader still gives.
fn read_script<R: Source>(alloc: Global, reader: &mut R) -> Result<Vec<u8>, RunError>
    requires { R.failed reader.old ≡ false }
    ensures script { IfOk result (λ script. IfSome (R.remaining reader.old) (λ bytes. script.items ≡ bytes)) }
    ensures failed { IsErrOf result RunError.ReadFailed ↔ (R.failed reader.new ≡ true) }
    ensures memory { IfErr result (λ e. e ≢ RunError.ReadFailed → e ≡ RunError.OutOfMemory) }
{
    let mut script = Vec::new(alloc);
    let mut buffer = [0u8; CHUNK];
    loop {
        let Ok(count) = reader.read(&mut buffer) else {
            return Err(RunError::ReadFailed);
        };
        if count == 0 {
            return Ok(script);
        }
        script.extend_from_slice(&buffer[..count])?;
    }
}

/// The text of a script in memory. The script is dropped before its lines are turned into text.
///
/// It refuses as `run` does, except that no stream can fail.
pub fn render<W: CharWidth, B: AsSlice<u8> + Drop>(
    alloc: Global,
    script: B,
) -> Result<String, RunError>
    ensures text { IfOk result (λ text. rendered W.columns (B.items script) ≡ Ok (string_bytes text)) }
    ensures refusal { IfErr result (λ e. e ≢ RunError.OutOfMemory → rendered W.columns (B.items script) ≡ Err e) }
    ensures of_script { IfErr result (λ e. e ≢ RunError.OutOfMemory → IsOfScript e) }
{
    render_shown::<W, B>(alloc, script, true)
}

/// The text of a script in memory, as [`render`] gives it. Prefixes and the targets that footnotes list are shown
/// without control characters, unless `raw` is set.
pub fn render_shown<W: CharWidth, B: AsSlice<u8> + Drop>(
    alloc: Global,
    script: B,
    raw: bool,
) -> Result<String, RunError>
    ensures text { IfOk result (λ text. shown raw W.columns (B.items script) ≡ Ok (string_bytes text)) }
    ensures refusal { IfErr result (λ e. e ≢ RunError.OutOfMemory → shown raw W.columns (B.items script) ≡ Err e) }
    ensures of_script { IfErr result (λ e. e ≢ RunError.OutOfMemory → IsOfScript e) }
{
    let mut lines = Lines::of(script.as_slice());
    let (opening, number) = first_command(&mut lines)?;
    match opening.decorator {
        Decorator::Plain => {
            let decorator = PlainDecorator::new();
            let (program, end) = run_under::<_, W>(alloc, opening, decorator, number, lines, raw)?;
            finish(program, end, script, raw)
        }
        Decorator::Trivial => {
            let decorator = TrivialDecorator::new();
            let (program, end) = run_under::<_, W>(alloc, opening, decorator, number, lines, raw)?;
            finish(program, end, script, raw)
        }
        Decorator::Rich => {
            let decorator = RichDecorator::new();
            let (program, end) = run_under::<_, W>(alloc, opening, decorator, number, lines, raw)?;
            finish(program, end, script, raw)
        }
    }
}

/// A program under this decorator that has run the script after its first command, and the number of the line after the
/// script.
fn run_under<D: TextDecorator, W: CharWidth>(
    alloc: Global,
    opening: Opening,
    decorator: D,
    number: usize,
    lines: Lines<'_>,
    raw: bool,
) -> Result<(Program<D, W>, usize), RunError>
    requires width { 0 < opening.width }
    requires wrap_width { opening.options.wrap_width ≢ Some 0 }
    requires number { number + length lines < 2 ^ 64 }
    ensures told { IfOk result (λ told. shown_on raw W.columns (decoration_of D.TextDecorator D.Annotation.tells)
        number (lines_of lines.entry) (started opening decorator)
        ≡ ended W.columns (decoration_of D.TextDecorator D.Annotation.tells) told.1 (shown_links raw told.0)) }
    ensures goes_on { IfOk result (λ told. GoesOn told.0) }
    ensures refusal { IfErr result (λ e. e ≢ RunError.OutOfMemory →
        shown_on raw W.columns (decoration_of D.TextDecorator D.Annotation.tells)
        number (lines_of lines.entry) (started opening decorator) ≡ Err e) }
    ensures of_script { IfErr result (λ e. e ≢ RunError.OutOfMemory → IsOfScript e) }
{
    let program = Program::<D, W>::new(alloc, opening.width, opening.options, decorator)?;
    run_lines(alloc, program, number, lines, raw)
}

/// The text of a program that has run a whole script. The script is dropped first.
fn finish<D: TextDecorator, W: CharWidth, B: Drop>(
    program: Program<D, W>,
    number: usize,
    script: B,
    raw: bool,
) -> Result<String, RunError>
    requires { GoesOn program }
    ensures text { IfOk result (λ text. ended W.columns (decoration_of D.TextDecorator D.Annotation.tells) number
        (shown_links raw program) ≡ Ok (string_bytes text)) }
    ensures refused { IfErr result (λ e. e ≢ RunError.OutOfMemory →
        ended W.columns (decoration_of D.TextDecorator D.Annotation.tells) number
        (shown_links raw program) ≡ Err e) }
    ensures of_script { IfErr result (λ e. e ≢ RunError.OutOfMemory → IsOfScript e) }
{
    drop(script);
    program.finish(number, raw)
}

/// The first command of a script, and the number of the line after it. It takes the lines up to that command.
fn first_command(lines: &mut Lines<'_>) -> Result<(Opening, usize), RunError>
    requires { length lines.old < 2 ^ 63 }
    ensures found { IfOk result (λ r. (raw : Bool) (columns : ℕ → Option ℕ) →
        shown raw columns lines.old ≡ shown_under raw columns r.0.decorator r.0 r.1 (lines_of lines.new)) }
    ensures bound { IfOk result (λ r. r.1 + length lines.new ≤ length lines.old + 1) }
    ensures width { IfOk result (λ r. 0 < r.0.width) }
    ensures wrap_width { IfOk result (λ r. r.0.options.wrap_width ≢ Some 0) }
    ensures refused { IfErr result (λ e. (raw : Bool) (columns : ℕ → Option ℕ) →
        shown raw columns lines.old ≡ Err e) }
    ensures of_script { IfErr result (λ e. IsOfScript e) }
{
    let mut number = 1;
    while let Some(line) = lines.next() {
        let Ok(line) = line else {
            return Err(RunError::NotACommand(number));
        };
        if !line.is_empty() {
            let Some(opening) = Opening::parse(line) else {
                return Err(RunError::NotACommand(number));
            };
            return Ok((opening, number + 1));
        }
        number += 1;
    }
    Err(RunError::NotACommand(number))
}

/// A program that has run these lines, the first of which has this number, and the number of the line after them.
fn run_lines<D: TextDecorator, W: CharWidth>(
    alloc: Global,
    program: Program<D, W>,
    number: usize,
    lines: Lines<'_>,
    raw: bool,
) -> Result<(Program<D, W>, usize), RunError>
    requires goes_on { GoesOn program }
    requires number { number + length lines < 2 ^ 64 }
    ensures told { IfOk result (λ told. shown_on raw W.columns (decoration_of D.TextDecorator D.Annotation.tells)
        number (lines_of lines.entry) program
        ≡ ended W.columns (decoration_of D.TextDecorator D.Annotation.tells) told.1 (shown_links raw told.0)) }
    ensures goes_on { IfOk result (λ told. GoesOn told.0) }
    ensures refusal { IfErr result (λ e. e ≢ RunError.OutOfMemory →
        shown_on raw W.columns (decoration_of D.TextDecorator D.Annotation.tells)
        number (lines_of lines.entry) program ≡ Err e) }
    ensures of_script { IfErr result (λ e. e ≢ RunError.OutOfMemory → IsOfScript e) }
{
    let mut program = program;
    let mut lines = lines;
    let mut number = number;
    while let Some(line) = lines.next() {
        let Ok(line) = line else {
            return Err(RunError::NotACommand(number));
        };
        program.run_line(alloc, number, line, raw)?;
        number += 1;
    }
    Ok((program, number))
}
