//! Calls that fill a renderer.
ghost use Rattle.std.specs.Prelude.{◌≡◌, ◌≢◌, None, Some, Result, Ok, Err, IfOk, IfErr};
ghost use Rattle.tbr_decor.specs.Ground as ground;
ghost use Rattle.tbr_commands.specs.Command.{Command as Asked, command_of, IsSized};
ghost use Rattle.tbr_commands.specs.Command as command;
ghost use Rattle.tbr_commands.specs.Request.{request_of};
ghost use Rattle.tbr_commands.specs.Request as request;
ghost use Rattle.tbr_commands.specs.declared.request.layout.Layout.TheVariants as layout;
ghost use Rattle.tbr_commands.specs.declared.request.beginning.Beginning.TheVariants as begun;
ghost use Rattle.tbr_commands.specs.declared.request.kind.Kind.TheVariants as kind;
ghost use Rattle.tbr_commands.specs.declared.opening.Opening.{Opening};
ghost use Rattle.tbr_c_lines.specs.declared.fault.Fault.{Fault as Refusal};
ghost use Rattle.tbr_c_lines.specs.declared.fault.Fault.TheVariants as F;
ghost use Rattle.tbr_c.specs.Answers.{Gives, GivesNew, GivesEnd, GivesText};
ghost use Rattle.tbr_c.specs.Arguments.{ReadsCommand, with_text, with_texts, mode_asked, sub_asked, cell_asked, opening_asked};
ghost use Rattle.tbr_c.specs.Page.{new_page};
ghost use Rattle.tbr_c.specs.declared.state.State.TheVariants as S;

use crate::answers::put;
use crate::arguments;
use crate::handle::{Handle, Returned, hand_back};
use crate::held::Held;
use crate::options::Options;
use std::alloc::Global;
use tbr_c_lines::{Fault, status};
use tbr_commands::{Beginning, Command, Kind, Layout, Request};
use tbr_decor::Colour;

/// A renderer, or why none can be made.
fn made(alloc: Global, options: &Options) -> Result<Box<Held>, Fault>
    ensures made { IfOk result (λ held. (opening : Opening) × (opening_asked options.now ≡ Ok opening)
        × (held.value ≡ S.Filled (new_page opening options.now.raw))) }
    ensures refused { IfErr result (λ fault. fault ≢ F.OutOfMemory → opening_asked options.now ≡ Err fault) }
{
    let held = Held::new(alloc, options.opening()?, options.raw)?;
    match Box::new(alloc, held) {
        Ok(held) => Ok(held),
        Err(_) => Err(Fault::OutOfMemory),
    }
}

/// Makes a renderer.
#[unsafe(no_mangle)]
pub extern "C" fn tbr1_new(alloc: Global, options: &Options, back: &mut Returned) -> u32
    ensures { GivesNew (opening_asked options.now) options.now.raw back.old.value back.new.value result }
{
    match made(alloc, options) {
        Ok(held) => {
            hand_back(held, back);
            status(Ok(()))
        }
        Err(fault) => fault.code(),
    }
}

/// Frees a renderer.
#[unsafe(no_mangle)]
pub extern "C" fn tbr1_free(renderer: Handle) {
    drop(renderer.open());
}

/// Does what the arguments ask for, or refuses them if they are no command.
fn run(renderer: Handle, read: Result<Command, Fault>, back: &mut Returned) -> u32
    requires { IfOk read (λ command. IsSized (command_of command)) }
    ensures { (asked : Result Asked Refusal) → ReadsCommand asked read →
        Gives renderer.value asked back.new.value result }
{
    let mut held = renderer.open();
    let done = held.run(read);
    hand_back(held, back);
    status(done)
}

/// Does what a request asks for.
fn ask(renderer: Handle, request: Request, back: &mut Returned) -> u32
    ensures { Gives renderer.value (Ok (command.ask (request_of request))) back.new.value result }
{
    run(renderer, Ok(Command::Ask(request)), back)
}

#[unsafe(no_mangle)]
pub extern "C" fn tbr1_add_text(
    alloc: Global,
    renderer: Handle,
    text: &[u8],
    back: &mut Returned,
) -> u32
    ensures { Gives renderer.value (with_text text.now (λ text. command.ask (request.text text)))
        back.new.value result }
{
    run(renderer, arguments::text(alloc, text), back)
}

#[unsafe(no_mangle)]
pub extern "C" fn tbr1_start_block(renderer: Handle, back: &mut Returned) -> u32
    ensures { Gives renderer.value (Ok (command.ask (request.layout layout.StartBlock))) back.new.value result }
{
    ask(renderer, Request::Layout(Layout::StartBlock), back)
}

#[unsafe(no_mangle)]
pub extern "C" fn tbr1_end_block(renderer: Handle, back: &mut Returned) -> u32
    ensures { Gives renderer.value (Ok (command.ask (request.layout layout.EndBlock))) back.new.value result }
{
    ask(renderer, Request::Layout(Layout::EndBlock), back)
}

#[unsafe(no_mangle)]
pub extern "C" fn tbr1_start_table(renderer: Handle, back: &mut Returned) -> u32
    ensures { Gives renderer.value (Ok (command.ask (request.layout layout.StartTable))) back.new.value result }
{
    ask(renderer, Request::Layout(Layout::StartTable), back)
}

#[unsafe(no_mangle)]
pub extern "C" fn tbr1_new_line(renderer: Handle, back: &mut Returned) -> u32
    ensures { Gives renderer.value (Ok (command.ask (request.layout layout.NewLine))) back.new.value result }
{
    ask(renderer, Request::Layout(Layout::NewLine), back)
}

#[unsafe(no_mangle)]
pub extern "C" fn tbr1_new_line_hard(renderer: Handle, back: &mut Returned) -> u32
    ensures { Gives renderer.value (Ok (command.ask (request.layout layout.HardNewLine))) back.new.value result }
{
    ask(renderer, Request::Layout(Layout::HardNewLine), back)
}

#[unsafe(no_mangle)]
pub extern "C" fn tbr1_add_empty_line(renderer: Handle, back: &mut Returned) -> u32
    ensures { Gives renderer.value (Ok (command.ask (request.layout layout.EmptyLine))) back.new.value result }
{
    ask(renderer, Request::Layout(Layout::EmptyLine), back)
}

#[unsafe(no_mangle)]
pub extern "C" fn tbr1_add_border(renderer: Handle, back: &mut Returned) -> u32
    ensures { Gives renderer.value (Ok (command.ask (request.border None))) back.new.value result }
{
    ask(renderer, Request::Border(None), back)
}

#[unsafe(no_mangle)]
pub extern "C" fn tbr1_add_border_width(
    renderer: Handle,
    columns: usize,
    back: &mut Returned,
) -> u32
    ensures { Gives renderer.value (Ok (command.ask (request.border (Some columns)))) back.new.value result }
{
    ask(renderer, Request::Border(Some(columns)), back)
}

#[unsafe(no_mangle)]
pub extern "C" fn tbr1_push_white_space(renderer: Handle, mode: u32, back: &mut Returned) -> u32
    ensures { Gives renderer.value (mode_asked mode) back.new.value result }
{
    run(renderer, arguments::mode(mode), back)
}

#[unsafe(no_mangle)]
pub extern "C" fn tbr1_pop_white_space(renderer: Handle, back: &mut Returned) -> u32
    ensures { Gives renderer.value (Ok (command.ask (request.end kind.Mode))) back.new.value result }
{
    ask(renderer, Request::End(Kind::Mode), back)
}

#[unsafe(no_mangle)]
pub extern "C" fn tbr1_start_preformatted(renderer: Handle, back: &mut Returned) -> u32
    ensures { Gives renderer.value (Ok (command.ask (request.begin begun.Preformat))) back.new.value result }
{
    ask(renderer, Request::Begin(Beginning::Preformat), back)
}

#[unsafe(no_mangle)]
pub extern "C" fn tbr1_end_preformatted(renderer: Handle, back: &mut Returned) -> u32
    ensures { Gives renderer.value (Ok (command.ask (request.end kind.Preformat))) back.new.value result }
{
    ask(renderer, Request::End(Kind::Preformat), back)
}

#[unsafe(no_mangle)]
pub extern "C" fn tbr1_start_link(
    alloc: Global,
    renderer: Handle,
    target: &[u8],
    back: &mut Returned,
) -> u32
    ensures { Gives renderer.value (with_text target.now command.link) back.new.value result }
{
    run(renderer, arguments::link(alloc, target), back)
}

#[unsafe(no_mangle)]
pub extern "C" fn tbr1_end_link(renderer: Handle, back: &mut Returned) -> u32
    ensures { Gives renderer.value (Ok command.end_link) back.new.value result }
{
    run(renderer, Ok(Command::EndLink), back)
}

#[unsafe(no_mangle)]
pub extern "C" fn tbr1_start_emphasis(renderer: Handle, back: &mut Returned) -> u32
    ensures { Gives renderer.value (Ok (command.ask (request.begin begun.Emphasis))) back.new.value result }
{
    ask(renderer, Request::Begin(Beginning::Emphasis), back)
}

#[unsafe(no_mangle)]
pub extern "C" fn tbr1_end_emphasis(renderer: Handle, back: &mut Returned) -> u32
    ensures { Gives renderer.value (Ok (command.ask (request.end kind.Emphasis))) back.new.value result }
{
    ask(renderer, Request::End(Kind::Emphasis), back)
}

#[unsafe(no_mangle)]
pub extern "C" fn tbr1_start_strong(renderer: Handle, back: &mut Returned) -> u32
    ensures { Gives renderer.value (Ok (command.ask (request.begin begun.Strong))) back.new.value result }
{
    ask(renderer, Request::Begin(Beginning::Strong), back)
}

#[unsafe(no_mangle)]
pub extern "C" fn tbr1_end_strong(renderer: Handle, back: &mut Returned) -> u32
    ensures { Gives renderer.value (Ok (command.ask (request.end kind.Strong))) back.new.value result }
{
    ask(renderer, Request::End(Kind::Strong), back)
}

#[unsafe(no_mangle)]
pub extern "C" fn tbr1_start_strikeout(renderer: Handle, back: &mut Returned) -> u32
    ensures { Gives renderer.value (Ok (command.ask (request.begin begun.Strikeout))) back.new.value result }
{
    ask(renderer, Request::Begin(Beginning::Strikeout), back)
}

#[unsafe(no_mangle)]
pub extern "C" fn tbr1_end_strikeout(renderer: Handle, back: &mut Returned) -> u32
    ensures { Gives renderer.value (Ok (command.ask (request.end kind.Strikeout))) back.new.value result }
{
    ask(renderer, Request::End(Kind::Strikeout), back)
}

#[unsafe(no_mangle)]
pub extern "C" fn tbr1_start_code(renderer: Handle, back: &mut Returned) -> u32
    ensures { Gives renderer.value (Ok (command.ask (request.begin begun.Code))) back.new.value result }
{
    ask(renderer, Request::Begin(Beginning::Code), back)
}

#[unsafe(no_mangle)]
pub extern "C" fn tbr1_end_code(renderer: Handle, back: &mut Returned) -> u32
    ensures { Gives renderer.value (Ok (command.ask (request.end kind.Code))) back.new.value result }
{
    ask(renderer, Request::End(Kind::Code), back)
}

#[unsafe(no_mangle)]
pub extern "C" fn tbr1_start_superscript(renderer: Handle, back: &mut Returned) -> u32
    ensures { Gives renderer.value (Ok (command.ask (request.begin begun.Superscript))) back.new.value result }
{
    ask(renderer, Request::Begin(Beginning::Superscript), back)
}

#[unsafe(no_mangle)]
pub extern "C" fn tbr1_end_superscript(renderer: Handle, back: &mut Returned) -> u32
    ensures { Gives renderer.value (Ok (command.ask (request.end kind.Superscript))) back.new.value result }
{
    ask(renderer, Request::End(Kind::Superscript), back)
}

#[unsafe(no_mangle)]
pub extern "C" fn tbr1_start_colour(
    renderer: Handle,
    red: u8,
    green: u8,
    blue: u8,
    back: &mut Returned,
) -> u32
    ensures { let colour = request.colour ground.text (record { r = red; g = green; b = blue }) in
        Gives renderer.value (Ok (command.ask colour)) back.new.value result }
{
    let colour = Colour {
        r: red,
        g: green,
        b: blue,
    };
    ask(renderer, Request::Colour(colour), back)
}

#[unsafe(no_mangle)]
pub extern "C" fn tbr1_end_colour(renderer: Handle, back: &mut Returned) -> u32
    ensures { Gives renderer.value (Ok (command.ask (request.end kind.Colour))) back.new.value result }
{
    ask(renderer, Request::End(Kind::Colour), back)
}

#[unsafe(no_mangle)]
pub extern "C" fn tbr1_start_background(
    renderer: Handle,
    red: u8,
    green: u8,
    blue: u8,
    back: &mut Returned,
) -> u32
    ensures { let colour = request.colour ground.background (record { r = red; g = green; b = blue }) in
        Gives renderer.value (Ok (command.ask colour)) back.new.value result }
{
    let colour = Colour {
        r: red,
        g: green,
        b: blue,
    };
    ask(renderer, Request::Background(colour), back)
}

#[unsafe(no_mangle)]
pub extern "C" fn tbr1_end_background(renderer: Handle, back: &mut Returned) -> u32
    ensures { Gives renderer.value (Ok (command.ask (request.end kind.Background))) back.new.value result }
{
    ask(renderer, Request::End(Kind::Background), back)
}

#[unsafe(no_mangle)]
pub extern "C" fn tbr1_add_image(
    alloc: Global,
    renderer: Handle,
    source: &[u8],
    title: &[u8],
    back: &mut Returned,
) -> u32
    ensures { let asked = with_texts source.now title.now (λ first second. command.ask (request.image first second)) in
        Gives renderer.value asked back.new.value result }
{
    run(renderer, arguments::image(alloc, source, title), back)
}

#[unsafe(no_mangle)]
pub extern "C" fn tbr1_add_marker(
    alloc: Global,
    renderer: Handle,
    name: &[u8],
    back: &mut Returned,
) -> u32
    ensures { Gives renderer.value (with_text name.now (λ text. command.ask (request.fragment text)))
        back.new.value result }
{
    run(renderer, arguments::marker(alloc, name), back)
}

#[unsafe(no_mangle)]
pub extern "C" fn tbr1_start_sub(renderer: Handle, width: usize, back: &mut Returned) -> u32
    ensures { Gives renderer.value (sub_asked width) back.new.value result }
{
    run(renderer, arguments::sub(width), back)
}

#[unsafe(no_mangle)]
pub extern "C" fn tbr1_append_sub(
    alloc: Global,
    renderer: Handle,
    first: &[u8],
    others: &[u8],
    back: &mut Returned,
) -> u32
    ensures { Gives renderer.value (with_texts first.now others.now command.append) back.new.value result }
{
    run(renderer, arguments::append(alloc, first, others), back)
}

#[unsafe(no_mangle)]
pub extern "C" fn tbr1_start_cell(
    renderer: Handle,
    width: usize,
    span: usize,
    alignment: u32,
    back: &mut Returned,
) -> u32
    ensures { Gives renderer.value (cell_asked width span alignment) back.new.value result }
{
    run(renderer, arguments::cell(width, span, alignment), back)
}

#[unsafe(no_mangle)]
pub extern "C" fn tbr1_end_cell(renderer: Handle, back: &mut Returned) -> u32
    ensures { Gives renderer.value (Ok command.end_cell) back.new.value result }
{
    run(renderer, Ok(Command::EndCell), back)
}

#[unsafe(no_mangle)]
pub extern "C" fn tbr1_add_row(renderer: Handle, collapse: bool, back: &mut Returned) -> u32
    ensures { Gives renderer.value (Ok (command.row collapse)) back.new.value result }
{
    run(renderer, Ok(Command::Row { collapse }), back)
}

#[unsafe(no_mangle)]
pub extern "C" fn tbr1_add_vertical_row(renderer: Handle, back: &mut Returned) -> u32
    ensures { Gives renderer.value (Ok command.vertical_row) back.new.value result }
{
    run(renderer, Ok(Command::VerticalRow), back)
}

/// Ends the last line. The lines can then be taken.
#[unsafe(no_mangle)]
pub extern "C" fn tbr1_finish(renderer: Handle, back: &mut Returned) -> u32
    ensures { GivesEnd renderer.value back.new.value result }
{
    let mut held = renderer.open();
    let done = held.finish();
    hand_back(held, back);
    status(done)
}

/// Ends the last line. The text of all lines can then be taken.
#[unsafe(no_mangle)]
pub extern "C" fn tbr1_finish_text(renderer: Handle, length: &mut usize, back: &mut Returned) -> u32
    ensures { GivesText renderer.value back.new.value length.old length.new result }
{
    let mut held = renderer.open();
    let count = held.finish_text();
    hand_back(held, back);
    put(count, length)
}
