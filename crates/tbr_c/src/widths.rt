//! How wide texts are.
ghost use Rattle.std.specs.Prelude.{◌≡◌, ◌≢◌, ◌<◌, ◌^◌, Some};
ghost use Rattle.std.specs.Str.{IsUtf8};
ghost use Rattle.tbr_c_lines.specs.Columns as wide;
ghost use Rattle.tbr_c.specs.Arguments.{extent_asked};
ghost use Rattle.tbr_c.specs.Questions.{Puts, extent_in};

use crate::answers::put;
use crate::arguments::mode_named;
use crate::extent::Extent;
use crate::handle::{Handle, Returned, hand_back};
use std::str;
use tbr_c_lines::{Fault, answer, columns_of, status};
use tbr_tables::measure;
use tbr_tagged::UnicodeColumns;

/// The columns of a text.
#[unsafe(no_mangle)]
pub extern "C" fn tbr1_text_width(text: &[u8], columns: &mut usize) -> u32
    ensures width { IsUtf8 text.now → wide.columns_of text.now < 2 ^ 64 →
        (result ≡ 0) × (columns.new ≡ wide.columns_of text.now) }
    ensures not_utf8 { ¬ (IsUtf8 text.now) → result ≡ 6 }
    ensures left { result ≢ 0 → columns.new ≡ columns.old }
{
    status(answer(columns_of(text), columns))
}

/// The longest word and the widest line of a text in the mode of white space of this number.
#[unsafe(no_mangle)]
pub extern "C" fn tbr1_measure(text: &[u8], mode: u32, extent: &mut Extent) -> u32
    ensures { Puts (extent_asked mode text.now) extent.old extent.new result }
{
    put(extent_of(text, mode), extent)
}

fn extent_of(text: &[u8], mode: u32) -> Result<Extent, Fault>
    ensures { result ≡ extent_asked mode text.now }
{
    let mode = mode_named(mode)?;
    let Ok(text) = str::from_utf8(text) else {
        return Err(Fault::NotUtf8);
    };
    Ok(Extent::of(measure::<UnicodeColumns>(mode, text)))
}

/// The same of what came in the innermost part of a table.
#[unsafe(no_mangle)]
pub extern "C" fn tbr1_measure_open(
    renderer: Handle,
    extent: &mut Extent,
    back: &mut Returned,
) -> u32
    ensures extent { Puts (extent_in renderer.value) extent.old extent.new result }
    ensures same { back.new.value ≡ Some renderer.value }
{
    let held = renderer.open();
    let room = held.room();
    hand_back(held, back);
    put(room.map(Extent::of), extent)
}
