//! Questions to a renderer that is filled. None changes it.
ghost use Rattle.std.specs.Prelude.{◌≡◌, ◌<◌, Some, IfSome};
ghost use Rattle.tbr_decor.specs.Prefix.{asked_prefix};
ghost use Rattle.tbr_decor.specs.Prefix as prefixes;
ghost use Rattle.tbr_c_lines.specs.Status.{status_of};
ghost use Rattle.tbr_c_lines.specs.Copied.{CopiesMade};
ghost use Rattle.tbr_c.specs.Questions.{Puts, facts_of, fact_of, levels_of, width_left, prefix_of, Needs, refusal_of};

use crate::answers::{copy, put};
use crate::handle::{Handle, Returned, hand_back};
use crate::held::Held;
use crate::page::Facts;
use tbr_c_lines::{Fault, status};
use tbr_decor::DecoratorPrefix;

/// What a renderer answers of its innermost level.
fn facts(renderer: Handle, back: &mut Returned) -> Result<Facts, Fault>
    ensures facts { result ≡ facts_of renderer.value }
    ensures same { back.new.value ≡ Some renderer.value }
{
    let held = renderer.open();
    let facts = held.facts();
    hand_back(held, back);
    facts
}

#[unsafe(no_mangle)]
pub extern "C" fn tbr1_refusal(renderer: Handle, back: &mut Returned) -> u32
    ensures refusal { result ≡ status_of (refusal_of renderer.value) }
    ensures same { back.new.value ≡ Some renderer.value }
{
    let held = renderer.open();
    let kept = held.refusal();
    hand_back(held, back);
    status(kept)
}

#[unsafe(no_mangle)]
pub extern "C" fn tbr1_is_empty(renderer: Handle, is_empty: &mut bool, back: &mut Returned) -> u32
    ensures fact { Puts (fact_of (λ facts. facts.is_empty) renderer.value) is_empty.old is_empty.new result }
    ensures same { back.new.value ≡ Some renderer.value }
{
    put(facts(renderer, back).map(|facts| facts.is_empty), is_empty)
}

#[unsafe(no_mangle)]
pub extern "C" fn tbr1_has_overhang(
    renderer: Handle,
    has_overhang: &mut bool,
    back: &mut Returned,
) -> u32
    ensures fact { Puts (fact_of (λ facts. facts.has_overhang) renderer.value)
        has_overhang.old has_overhang.new result }
    ensures same { back.new.value ≡ Some renderer.value }
{
    put(
        facts(renderer, back).map(|facts| facts.has_overhang),
        has_overhang,
    )
}

#[unsafe(no_mangle)]
pub extern "C" fn tbr1_width(renderer: Handle, columns: &mut usize, back: &mut Returned) -> u32
    ensures fact { Puts (fact_of (λ facts. facts.width) renderer.value) columns.old columns.new result }
    ensures same { back.new.value ≡ Some renderer.value }
{
    put(facts(renderer, back).map(|facts| facts.width), columns)
}

#[unsafe(no_mangle)]
pub extern "C" fn tbr1_width_minus(
    renderer: Handle,
    prefix: usize,
    least: usize,
    columns: &mut usize,
    back: &mut Returned,
) -> u32
    ensures left { Puts (width_left prefix least renderer.value) columns.old columns.new result }
    ensures same { back.new.value ≡ Some renderer.value }
{
    let held = renderer.open();
    let left = held.width_minus(prefix, least);
    hand_back(held, back);
    put(left, columns)
}

#[unsafe(no_mangle)]
pub extern "C" fn tbr1_open_levels(renderer: Handle, count: &mut usize, back: &mut Returned) -> u32
    ensures levels { Puts (levels_of renderer.value) count.old count.new result }
    ensures same { back.new.value ≡ Some renderer.value }
{
    let held = renderer.open();
    let levels = held.open_levels();
    hand_back(held, back);
    put(levels, count)
}

#[unsafe(no_mangle)]
pub extern "C" fn tbr1_open_links(renderer: Handle, count: &mut usize, back: &mut Returned) -> u32
    ensures fact { Puts (fact_of (λ facts. facts.open_links) renderer.value) count.old count.new result }
    ensures same { back.new.value ≡ Some renderer.value }
{
    put(facts(renderer, back).map(|facts| facts.open_links), count)
}

#[unsafe(no_mangle)]
pub extern "C" fn tbr1_waiting_cells(
    renderer: Handle,
    count: &mut usize,
    back: &mut Returned,
) -> u32
    ensures fact { Puts (fact_of (λ facts. facts.waiting_cells) renderer.value) count.old count.new result }
    ensures same { back.new.value ≡ Some renderer.value }
{
    put(
        facts(renderer, back).map(|facts| facts.waiting_cells),
        count,
    )
}

/// How many bytes a prefix has, if these are known before it is made and are more than `room`.
fn too_long(held: &Held, prefix: DecoratorPrefix, room: usize) -> Option<usize>
    ensures { IfSome result (λ n. Needs (prefix_of (asked_prefix prefix) held.now) n × (room < n)) }
{
    let needed = held.length_ahead(prefix)?;
    if needed > room { Some(needed) } else { None }
}

/// Copies a prefix of the decorator. If its length is known ahead and there is no room for it, it isn't made.
fn prefix(
    renderer: Handle,
    prefix: DecoratorPrefix,
    out: &mut [u8],
    length: &mut usize,
    back: &mut Returned,
) -> u32
    ensures text { CopiesMade (prefix_of (asked_prefix prefix) renderer.value)
        out.old out.new length.old length.new result }
    ensures same { back.new.value ≡ Some renderer.value }
{
    let mut held = renderer.open();
    if let Some(needed) = too_long(&held, prefix, out.len()) {
        hand_back(held, back);
        *length = needed;
        return Fault::BufferTooSmall.code();
    }
    let text = held.prefix(prefix);
    hand_back(held, back);
    match &text {
        Ok(text) => copy(Ok(text.as_str()), out, length),
        Err(fault) => fault.code(),
    }
}

#[unsafe(no_mangle)]
pub extern "C" fn tbr1_quote_prefix(
    renderer: Handle,
    out: &mut [u8],
    length: &mut usize,
    back: &mut Returned,
) -> u32
    ensures text { CopiesMade (prefix_of prefixes.quote renderer.value)
        out.old out.new length.old length.new result }
    ensures same { back.new.value ≡ Some renderer.value }
{
    prefix(renderer, DecoratorPrefix::Quote, out, length, back)
}

#[unsafe(no_mangle)]
pub extern "C" fn tbr1_item_prefix(
    renderer: Handle,
    out: &mut [u8],
    length: &mut usize,
    back: &mut Returned,
) -> u32
    ensures text { CopiesMade (prefix_of prefixes.unordered_item renderer.value)
        out.old out.new length.old length.new result }
    ensures same { back.new.value ≡ Some renderer.value }
{
    prefix(renderer, DecoratorPrefix::Item, out, length, back)
}

#[unsafe(no_mangle)]
pub extern "C" fn tbr1_ordered_item_prefix(
    renderer: Handle,
    number: i64,
    out: &mut [u8],
    length: &mut usize,
    back: &mut Returned,
) -> u32
    ensures text { CopiesMade (prefix_of (prefixes.ordered_item number) renderer.value)
        out.old out.new length.old length.new result }
    ensures same { back.new.value ≡ Some renderer.value }
{
    prefix(
        renderer,
        DecoratorPrefix::OrderedItem(number),
        out,
        length,
        back,
    )
}

#[unsafe(no_mangle)]
pub extern "C" fn tbr1_header_prefix(
    renderer: Handle,
    level: usize,
    out: &mut [u8],
    length: &mut usize,
    back: &mut Returned,
) -> u32
    ensures text { CopiesMade (prefix_of (prefixes.header level) renderer.value)
        out.old out.new length.old length.new result }
    ensures same { back.new.value ≡ Some renderer.value }
{
    prefix(renderer, DecoratorPrefix::Header(level), out, length, back)
}
