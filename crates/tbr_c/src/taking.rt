//! Lines of a renderer that is finished.
ghost use Rattle.std.specs.Prelude.{◌≡◌, ◌≢◌, Some, Ok, Err, MatchResult};
ghost use Rattle.tbr_c.specs.Answers.{GivesRest, GivesShown, GivesLine, GivesNext};
ghost use Rattle.tbr_c_lines.specs.Formats.{format_named};
ghost use Rattle.tbr_c_lines.specs.Copied.{Copies};
ghost use Rattle.tbr_c.specs.Questions.{Puts, text_taken, piece_taken, name_taken, annotation_taken, kind_taken, target_taken};

use crate::answers::{copy, put};
use crate::handle::{Handle, Returned, hand_back};
use crate::held::Held;
use tbr_c_lines::{AnnotationKind, Fault, Format, LineSize, PiecePlace, kind, status, target};
use tbr_decor::RichAnnotation;

#[unsafe(no_mangle)]
pub extern "C" fn tbr1_text(
    renderer: Handle,
    out: &mut [u8],
    needed: &mut usize,
    back: &mut Returned,
) -> u32
    ensures { GivesRest renderer.value back.new.value out.old out.new needed.old needed.new result }
{
    let mut held = renderer.open();
    let done = held.copy_text(out, needed);
    hand_back(held, back);
    status(done)
}

/// Copies the lines that weren't taken in the format of a number.
#[unsafe(no_mangle)]
pub extern "C" fn tbr1_text_as(
    renderer: Handle,
    number: u32,
    out: &mut [u8],
    needed: &mut usize,
    back: &mut Returned,
) -> u32
    ensures { GivesShown (format_named number) renderer.value back.new.value
        out.old out.new needed.old needed.new result }
{
    let mut held = renderer.open();
    match Format::named(number) {
        Ok(format) => {
            let done = held.copy_shown(format, out, needed);
            hand_back(held, back);
            status(done)
        }
        Err(fault) => {
            hand_back(held, back);
            fault.code()
        }
    }
}

/// Copies the line that was taken last in the format of a number.
#[unsafe(no_mangle)]
pub extern "C" fn tbr1_line_as(
    renderer: Handle,
    number: u32,
    out: &mut [u8],
    needed: &mut usize,
    back: &mut Returned,
) -> u32
    ensures { GivesLine (format_named number) renderer.value back.new.value
        out.old out.new needed.old needed.new result }
{
    let mut held = renderer.open();
    match Format::named(number) {
        Ok(format) => {
            let done = held.copy_current(format, out, needed);
            hand_back(held, back);
            status(done)
        }
        Err(fault) => {
            hand_back(held, back);
            fault.code()
        }
    }
}

#[unsafe(no_mangle)]
pub extern "C" fn tbr1_next_line(renderer: Handle, line: &mut LineSize, back: &mut Returned) -> u32
    ensures { GivesNext renderer.value back.new.value line.old line.new result }
{
    let mut held = renderer.open();
    let size = held.next_line();
    hand_back(held, back);
    put(size, line)
}

#[unsafe(no_mangle)]
pub extern "C" fn tbr1_line_text(
    renderer: Handle,
    out: &mut [u8],
    needed: &mut usize,
    back: &mut Returned,
) -> u32
    ensures text { Copies (text_taken renderer.value) out.old out.new needed.old needed.new result }
    ensures same { back.new.value ≡ Some renderer.value }
{
    let held = renderer.open();
    let done = copy(line_text(&held), out, needed);
    hand_back(held, back);
    done
}

/// The text of the line that was taken last.
fn line_text(held: &Held) -> Result<&str, Fault>
    ensures { MatchResult result (λ text. text_taken held.now ≡ Ok text.now) (λ f. text_taken held.now ≡ Err f) }
{
    Ok(held.line()?.text())
}

#[unsafe(no_mangle)]
pub extern "C" fn tbr1_get_piece(
    renderer: Handle,
    place: usize,
    piece: &mut PiecePlace,
    back: &mut Returned,
) -> u32
    ensures piece { Puts (piece_taken place renderer.value) piece.old piece.new result }
    ensures same { back.new.value ≡ Some renderer.value }
{
    let held = renderer.open();
    let found = piece_at(&held, place);
    hand_back(held, back);
    put(found, piece)
}

/// The piece at a place.
fn piece_at(held: &Held, place: usize) -> Result<PiecePlace, Fault>
    ensures { result ≡ piece_taken place held.now }
{
    held.line()?.piece(place)
}

#[unsafe(no_mangle)]
pub extern "C" fn tbr1_marker_name(
    renderer: Handle,
    place: usize,
    out: &mut [u8],
    needed: &mut usize,
    back: &mut Returned,
) -> u32
    ensures name { Copies (name_taken place renderer.value) out.old out.new needed.old needed.new result }
    ensures same { back.new.value ≡ Some renderer.value }
{
    let held = renderer.open();
    let done = copy(marker_name(&held, place), out, needed);
    hand_back(held, back);
    done
}

/// The name of the marker at a place.
fn marker_name(held: &Held, place: usize) -> Result<&str, Fault>
    ensures { MatchResult result (λ name. name_taken place held.now ≡ Ok name.now)
        (λ f. name_taken place held.now ≡ Err f) }
{
    held.line()?.marker_name(place)
}

#[unsafe(no_mangle)]
pub extern "C" fn tbr1_get_annotation(
    renderer: Handle,
    piece: usize,
    place: usize,
    annotation: &mut AnnotationKind,
    back: &mut Returned,
) -> u32
    ensures kind { Puts (kind_taken piece place renderer.value) annotation.old annotation.new result }
    ensures same { back.new.value ≡ Some renderer.value }
{
    let held = renderer.open();
    let found = annotation_kind(&held, piece, place);
    hand_back(held, back);
    put(found, annotation)
}

/// The annotation at a place of a piece, by numbers.
fn annotation_kind(held: &Held, piece: usize, place: usize) -> Result<AnnotationKind, Fault>
    ensures { result ≡ kind_taken piece place held.now }
{
    Ok(kind(annotation_at(held, piece, place)?))
}

/// The annotation at a place of a piece.
fn annotation_at(held: &Held, piece: usize, place: usize) -> Result<&RichAnnotation, Fault>
    ensures { MatchResult result (λ found. annotation_taken piece place held.now ≡ Ok found.now)
        (λ f. annotation_taken piece place held.now ≡ Err f) }
{
    held.line()?.annotation(piece, place)
}

#[unsafe(no_mangle)]
pub extern "C" fn tbr1_annotation_target(
    renderer: Handle,
    piece: usize,
    place: usize,
    out: &mut [u8],
    needed: &mut usize,
    back: &mut Returned,
) -> u32
    ensures target { Copies (target_taken piece place renderer.value)
        out.old out.new needed.old needed.new result }
    ensures same { back.new.value ≡ Some renderer.value }
{
    let held = renderer.open();
    let done = copy(annotation_target(&held, piece, place), out, needed);
    hand_back(held, back);
    done
}

/// The target of the annotation at a place of a piece.
fn annotation_target(held: &Held, piece: usize, place: usize) -> Result<&str, Fault>
    ensures { MatchResult result (λ found. target_taken piece place held.now ≡ Ok found.now)
        (λ f. target_taken piece place held.now ≡ Err f) }
{
    target(annotation_at(held, piece, place)?)
}
