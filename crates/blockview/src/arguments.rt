//! What the command line asks for.
ghost use Rattle.std.specs.Prelude.{◌≡◌, ◌≢◌, ◌&&◌, ◌↔◌, Bool, Some, None, IsTrue, IfSome, IfNone, codes};
ghost use Rattle.std.specs.Option.{option_map};
ghost use Rattle.clap.specs.Matches.{found_of, one_text};
ghost use Rattle.tbr_commands.specs.Opening.{name_of};
ghost use Rattle.tbr_commands.specs.declared.opening.Decorator.{Decorator as Name};
ghost use Rattle.blockview.specs.Arguments as model;
ghost use Rattle.blockview.specs.Arguments.{AreColours, IsFormat, value_of};

use crate::version::VERSION;
use clap::builder::ArgAction;
use clap::error::ErrorKind;
use clap::parser::ValueSource;
use clap::{Arg, ArgMatches, Command, Error, value_parser};
use std::alloc::Global;
use tbr_commands::Decorator;
use tbr_view::{Format, Settings};

/// How a script is written, and what the exit status says. No line has more than 80 columns.
const AFTER_HELP: &str =
    "A script begins with `new W DECORATOR OPTIONS`, as `new 60 plain footnotes`.
Each line after it is a command:

  text T          a text after one space; further spaces belong to it. Two texts
                  without a space make one word
  block           an empty line between two blocks
  line, empty     a new line alone; an empty line
  heading N .. endheading
                  a heading of level N, with empty lines around it
  quote .. endquote
                  a quotation, with empty lines around it
  item .. enditem, ordered N .. endordered
                  an item of a list, without empty lines; with the number N
  em, strong, strike, code, super
                  begin what endem, endstrong, endstrike, endcode, endsuper end
  link TARGET .. endlink
                  a link; image SOURCE | TITLE: an image; frag NAME: a place to
                  link to
  colour R G B .. endcolour, bg R G B .. endbg
                  colours of text and of its background
  border [N]      a border
  table auto .. endtable
                  a table that finds its widths: cells, and `row` after those of
                  each row
  cell auto [ROWS [COLUMNS]] [left|right|centre] .. endcell
                  a cell of such a table, which spans so many rows and columns
  cell N SPAN [left|right|centre] .. endcell
                  a cell of N columns, whatever W is, which waits for its row
  row, vrow       the cells that wait, side by side or one below another
  row collapse    a row that joins the borders of tables inside its cells with
                  its own
  sub N .. append P | Q
                  a block of N columns: its first line comes after P, and the
                  others after Q
  ws pre|prewrap .. endws
                  white space that is kept
  # ..            a comment

The text of a heading, quote, item or cell is on `text` lines between the
command and its end. There \\n, \\t, \\\\ and \\u{h} are a newline, a tab, a
backslash and the character of that code.
A table of given widths is `border N` once, then for each row its cells and
`row`, which draws the line below. The line between two cells takes a column, so
that N is the columns of all cells and one for each line between. SPAN is 1, or
the rows that the cell takes; each further row has an empty cell of the same N
there.

Decorators: plain writes `#`, `>`, `*`, numbers, and brackets at links and
images; rich all but the brackets; trivial none. In text em, strong and code
leave no mark; rich keeps emphasis, links and colours for ansi, json and html.
Options: footnotes writes [n] after each link, and the targets at the end;
nowraplinks doesn't cut these; wrap=N wraps text to N columns; pad fills lines
up to W; overflow allows a character wider than its line; nostrike: no strokes;
noborders: no borders at tables; img=ignore|always|filename: without title
nothing, the empty title, the file's name.
Formats: text, as blockrender has it; ansi, with colours where --colour allows;
json, an object a line; html, a <pre>.
Exit status: 0 all was shown; 1 a text is too narrow, or memory is refused; 2 a
script or the command line is wrong; 3 a file isn't read, or the output isn't
written. Of several files it is the greatest.";

/// The command line, except for its words.
pub fn command<'a>(alloc: Global) -> Result<Command<'a>, Error> {
    let files = Arg::new(alloc, "FILE")
        .help("Scripts, each shown by itself; standard input for `-` or for none")
        .action(ArgAction::Append)
        .num_args(0..)
        .default_value("-")
        .hide_default_value(true);
    let format = Arg::new(alloc, "format")
        .long("format")
        .value_name("FORMAT")
        .value_parser(["text", "ansi", "json", "html"].as_slice())
        .default_value("text")
        .hide_default_value(true)
        .hide_possible_values(true)
        .help("text, which is the default, ansi, json or html");
    let width = Arg::new(alloc, "width")
        .long("width")
        .value_name("N")
        .value_parser(value_parser!(usize).range(1..))
        .help("Columns, in the place of those of `new`");
    let decorator = Arg::new(alloc, "decorator")
        .long("decorator")
        .value_name("NAME")
        .value_parser(["plain", "trivial", "rich"].as_slice())
        .hide_possible_values(true)
        .help("plain, trivial or rich, in the place of that of `new`");
    Ok(
        Command::new(alloc, "blockview")
            .version(VERSION)
            .about("Shows scripts of text blocks: letters, tables, help pages")
            .after_help(AFTER_HELP)
            .arg(files)?
            .arg(format)?
            .arg(width)?
            .arg(decorator)?
            .arg(colour(alloc))?
            .arg(ambiguous(alloc))?,
    )
}

/// `--colour`.
fn colour<'a>(alloc: Global) -> Arg<'a> {
    Arg::new(alloc, "colour")
        .long("colour")
        .value_name("WHEN")
        .value_parser(["auto", "always", "never"].as_slice())
        .default_value("auto")
        .hide_default_value(true)
        .hide_possible_values(true)
        .help("auto, on a terminal without NO_COLOR, always or never")
}

/// `--ambiguous`.
fn ambiguous<'a>(alloc: Global) -> Arg<'a> {
    Arg::new(alloc, "ambiguous")
        .long("ambiguous")
        .value_name("WIDTH")
        .value_parser(["narrow", "wide"].as_slice())
        .default_value("narrow")
        .hide_default_value(true)
        .hide_possible_values(true)
        .help("Of ambiguous East Asian characters: narrow or wide")
}

/// Whether `--colour` was given with another format than `ansi`, where it has no effect.
pub fn has_idle_colour(matches: &ArgMatches) -> bool {
    matches.value_source("colour") == Some(ValueSource::CommandLine)
        && matches.get_str("format") != Some("ansi")
}

/// Whether `--colour auto` shows colours: standard output is a terminal, and the variable `NO_COLOR` is empty or isn't
/// set.
pub fn shows_colours(is_terminal: bool, no_color: Option<&str>) -> bool
    ensures { result ≡ is_terminal && model.says_nothing (option_map (λ s. s.now) no_color.entry) }
{
    is_terminal && no_color.is_none_or(|value| value.is_empty())
}

/// How scripts are shown. `shows_colours` is whether `--colour auto` shows colours.
pub fn settings_of(matches: &ArgMatches, shows_colours: bool) -> Settings
    ensures format { (colours : Bool) × AreColours (value_of matches.now (codes "colour")) shows_colours colours
        × IsFormat (value_of matches.now (codes "format")) colours result.format }
    ensures width { one_text (found_of matches.now) (codes "width") ≡ None → result.width ≡ None }
    ensures decorator { IfSome result.decorator (λ decorator.
        value_of matches.now (codes "decorator") ≡ Some (name_of decorator)) }
    ensures no_decorator { IfNone result.decorator ((decorator : Name) →
        value_of matches.now (codes "decorator") ≢ Some (name_of decorator)) }
{
    let colours = has_colours(matches.get_str("colour"), shows_colours);
    Settings {
        format: format_named(matches.get_str("format"), colours),
        width: matches.get_one::<usize>("width"),
        decorator: decorator_named(matches.get_str("decorator")),
    }
}

/// Whether lines have colours, as the word after `--colour` says.
fn has_colours(word: Option<&str>, shows_colours: bool) -> bool
    ensures { AreColours (option_map (λ s. s.now) word.entry) shows_colours result }
{
    match word {
        Some("always") => true,
        Some("never") => false,
        _ => shows_colours,
    }
}

/// The format of a name, with colours or without.
fn format_named(name: Option<&str>, colours: bool) -> Format
    ensures { IsFormat (option_map (λ s. s.now) name.entry) colours result }
{
    match name {
        Some("ansi") if colours => Format::Ansi,
        Some("ansi") => Format::Bare,
        Some("json") => Format::Ndjson,
        Some("html") => Format::Html,
        _ => Format::Text,
    }
}

/// The decorator of a name, if there is one.
fn decorator_named(name: Option<&str>) -> Option<Decorator>
    ensures found { IfSome result (λ decorator.
        option_map (λ s. s.now) name.entry ≡ Some (name_of decorator)) }
    ensures none { IfNone result ((decorator : Name) →
        option_map (λ s. s.now) name.entry ≢ Some (name_of decorator)) }
{
    match name? {
        "plain" => Some(Decorator::Plain),
        "trivial" => Some(Decorator::Trivial),
        "rich" => Some(Decorator::Rich),
        _ => None,
    }
}
