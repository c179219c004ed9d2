//! From a script for people to what is shown of it.
ghost use Rattle.std.specs.Prelude.{◌≡◌, ◌≢◌, ◌<◌, Some, map, IfOk, IfErr};
ghost use Rattle.tbr_tagged.specs.View.{chars_of};
ghost use Rattle.tbr_decor.specs.Decoration.{decoration_of};
ghost use Rattle.tbr_script.specs.Script.{lines_of};
ghost use Rattle.tbr_kept_lines.specs.Line.{line_seen};
ghost use Rattle.tbr_view.specs.Script.{Begins, BeginsNot};
ghost use Rattle.tbr_view.specs.Lines.{LinesGive, begun};
ghost use Rattle.tbr_view.specs.Shown.{IsShown, opening_in};

use crate::session::Session;
use crate::show::show;
use std::alloc::Global;
use tbr_annotations::Annotations;
use tbr_border::RenderLine;
use tbr_commands::{Decorator, Opening};
use tbr_decor::{PlainDecorator, RichDecorator, TrivialDecorator};
use tbr_headings::Headings;
use tbr_model::CharWidth;
use tbr_script::Lines;
use tbr_statements::{Problem, Refusal, advice, is_skipped};

/// What is written.
#[derive(Clone, Copy, Debug, PartialEq, Eq)]
pub enum Format {
    /// The characters of the lines, as `blockrender` writes them.
    Text,
    /// The characters of the lines without control characters.
    Bare,
    /// The lines for a terminal, with the control sequences of annotations.
    Ansi,
    /// One object of JSON for each line.
    Ndjson,
    /// The lines in HTML, as they are in a `<pre>`.
    Html,
}

/// How a script is shown.
#[derive(Clone, Copy, Debug)]
pub struct Settings {
    /// What is written.
    pub format: Format,
    /// The columns of the renderer, in place of those of the script. 0 counts as none.
    pub width: Option<usize>,
    /// The decorator, in place of that of the script.
    pub decorator: Option<Decorator>,
}

/// What is shown of a script.
#[derive(Debug, Drop)]
pub struct Shown {
    /// In the format that was asked for.
    pub text: String,
    /// What was lost.
    pub lost: Vec<Problem>,
    /// What else isn't shown as the script says: stretches that aren't ended, and a row that is wider than the columns
    /// that were set.
    pub warnings: Vec<Problem>,
}

/// What is shown of a script. It refuses where the script is at fault, and where memory is refused.
pub fn view<W: CharWidth>(alloc: Global, script: &[u8], view: Settings) -> Result<Shown, Refusal>
    ensures { IfOk result (λ shown. IsShown W.columns script.now view (chars_of shown.text)) }
{
    let mut lines = Lines::of(script);
    let (opening, number) = first_command(alloc, &mut lines)?;
    let opening = with_settings(opening, view);
    match opening.decorator {
        Decorator::Plain => {
            let decorator = PlainDecorator::new();
            let (shown, lost, warnings) = run::<_, W>(
                alloc, opening, decorator, view.width, number, lines,
            )?;
            let text = show::<_, W>(alloc, shown, view.format)?;
            Ok(Shown {
                text,
                lost,
                warnings,
            })
        }
        Decorator::Trivial => {
            let decorator = TrivialDecorator::new();
            let (shown, lost, warnings) = run::<_, W>(
                alloc, opening, decorator, view.width, number, lines,
            )?;
            let text = show::<_, W>(alloc, shown, view.format)?;
            Ok(Shown {
                text,
                lost,
                warnings,
            })
        }
        Decorator::Rich => {
            let decorator = RichDecorator::new();
            let (shown, lost, warnings) = run::<_, W>(
                alloc, opening, decorator, view.width, number, lines,
            )?;
            let text = show::<_, W>(alloc, shown, view.format)?;
            Ok(Shown {
                text,
                lost,
                warnings,
            })
        }
    }
}

/// A first command, with its columns and its decorator replaced if others are given.
fn with_settings(opening: Opening, view: Settings) -> Opening
    requires width { 0 < opening.width }
    requires wrap_width { opening.options.wrap_width ≢ Some 0 }
    ensures opening { result ≡ opening_in view opening }
    ensures width { 0 < result.width }
    ensures wrap_width { result.options.wrap_width ≢ Some 0 }
{
    let width = match view.width {
        Some(columns) if columns > 0 => columns,
        _ => opening.width,
    };
    Opening {
        width,
        decorator: view.decorator.unwrap_or(opening.decorator),
        options: opening.options,
    }
}

/// The first command of a script, and the number of the line after it. It takes the lines up to that command.
fn first_command(alloc: Global, lines: &mut Lines<'_>) -> Result<(Opening, usize), Refusal>
    ensures begins { IfOk result (λ r. Begins lines.old r.0 r.1 lines.new) }
    ensures refused { IfErr result (λ e. BeginsNot lines.old e) }
    ensures width { IfOk result (λ r. 0 < r.0.width) }
    ensures wrap_width { IfOk result (λ r. r.0.options.wrap_width ≢ Some 0) }
{
    let mut number = 1usize;
    while let Some(line) = lines.next() {
        if !is_skipped(line) {
            let Ok(line) = line else {
                return Err(advice::not_utf8(alloc, number));
            };
            let Some(opening) = Opening::parse(line) else {
                return Err(advice::not_an_opening(alloc, number, line));
            };
            return Ok((opening, number.saturating_add(1)));
        }
        number = number.saturating_add(1);
    }
    Err(advice::nothing_there(alloc, number))
}

/// The lines of a script after its first command, what was lost of them, and what else isn't shown as the script says.
fn run<D: Headings, W: CharWidth>(
    alloc: Global,
    opening: Opening,
    decorator: D,
    set_width: Option<usize>,
    number: usize,
    lines: Lines<'_>,
) -> Result<
    (
        Vec<RenderLine<Annotations<D::Annotation>>>,
        Vec<Problem>,
        Vec<Problem>,
    ),
    Refusal,
>
    requires width { 0 < opening.width }
    requires wrap_width { opening.options.wrap_width ≢ Some 0 }
    ensures { IfOk result (λ r. LinesGive W.columns (decoration_of D.TextDecorator D.Annotation.tells)
        (begun opening decorator) (lines_of lines.entry) (map line_seen r.0.items)) }
{
    let mut session: Session<D, W> = Session::new(alloc, opening, decorator, set_width)?;
    let mut lines = lines;
    let mut number = number;
    while let Some(line) = lines.next() {
        session.run_line(number, line)?;
        number = number.saturating_add(1);
    }
    session.finish(number)
}
