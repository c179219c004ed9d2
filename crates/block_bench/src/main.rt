//! Wraps the text on standard input, so that its cost can be measured. The first line is `tags`, `markers`, `pre` or
//! `narrow`, and what follows is the text. With `tags` it is under a tag for each character in turn, and with `markers`
//! a marker comes before each character. With `pre` it is preformatted under one tag. With `narrow` it is in one column
//! with overflow, where an `m` is a marker. The program prints how many lines there are and how many bytes they hold.
#![tactic(auto)]

ghost use Rattle.std.specs.Prelude.{◌≡◌, ℕ, List, IfOk};
ghost use Rattle.tbr_tagged.specs.Elements.{marker_element};
ghost use Rattle.tbr_tagged.specs.View.{element_of};

use std::alloc::Global;
use std::io;
use std::process::ExitCode;
use tbr_lines::{Error, OutOfMemory, TaggedLineElement, WhiteSpace, WrappedBlock};

const WIDTH: usize = 72;

/// How a text is added.
#[derive(Clone, Copy)]
enum Kind {
    /// Each character by itself, under the tags 1 and 2 in turn.
    Tags,
    /// Each character by itself, after a marker.
    Markers,
    /// All at once, preformatted under the tag 1, and under 2 after a full line.
    Pre,
    /// Each character by itself, with its white space kept, in one column that may overflow. An `m` is a marker.
    Narrow,
}

impl Kind {
    fn parse(word: &str) -> Option<Kind> {
        match word {
            "tags" => Some(Kind::Tags),
            "markers" => Some(Kind::Markers),
            "pre" => Some(Kind::Pre),
            "narrow" => Some(Kind::Narrow),
            _ => None,
        }
    }

    fn new_block(self, alloc: Global) -> Result<WrappedBlock<u8>, OutOfMemory> {
        match self {
            Kind::Tags | Kind::Markers | Kind::Pre => {
                WrappedBlock::new(alloc, WIDTH, false, false, 1)
            }
            Kind::Narrow => WrappedBlock::new(alloc, 1, false, true, 1),
        }
    }

    fn add(self, alloc: Global, block: &mut WrappedBlock<u8>, text: &str) -> Result<(), Error> {
        match self {
            Kind::Tags => add_under_tags_in_turn(block, text),
            Kind::Markers => add_after_markers(alloc, block, text),
            Kind::Pre => block.add_text(text, WhiteSpace::Pre, &1, &2),
            Kind::Narrow => add_and_mark(alloc, block, text),
        }
    }
}

fn add_under_tags_in_turn(block: &mut WrappedBlock<u8>, text: &str) -> Result<(), Error> {
    let mut tag = 1;
    for c in text.chars() {
        let mut buffer = [0; 4];
        block.add_text(c.encode_utf8(&mut buffer), WhiteSpace::Normal, &tag, &tag)?;
        tag = if tag == 1 { 2 } else { 1 };
    }
    Ok(())
}

fn add_after_markers(alloc: Global, block: &mut WrappedBlock<u8>, text: &str) -> Result<(), Error> {
    for c in text.chars() {
        let mut buffer = [0; 4];
        block.add_element(marker(alloc)?)?;
        block.add_text(c.encode_utf8(&mut buffer), WhiteSpace::Normal, &1, &1)?;
    }
    Ok(())
}

fn add_and_mark(alloc: Global, block: &mut WrappedBlock<u8>, text: &str) -> Result<(), Error> {
    for c in text.chars() {
        if c == 'm' {
            block.add_element(marker(alloc)?)?;
        } else {
            let mut buffer = [0; 4];
            block.add_text(c.encode_utf8(&mut buffer), WhiteSpace::PreWrap, &1, &1)?;
        }
    }
    Ok(())
}

fn marker(alloc: Global) -> Result<TaggedLineElement<u8>, OutOfMemory>
    ensures { IfOk result (λ marker. (name : List ℕ) × (element_of marker ≡ marker_element name)) }
{
    let name = String::from_str(alloc, "m")?;
    Ok(TaggedLineElement::FragmentStart(name))
}

fn run(rt: &HostRuntime) -> Option<()> {
    let input = io::read_to_string(rt.alloc(), rt.reader()).ok()?;
    let (word, text) = input.as_str().split_once('\n')?;
    let kind = Kind::parse(word)?;
    let mut block = kind.new_block(rt.alloc()).ok()?;
    kind.add(rt.alloc(), &mut block, text).ok()?;
    let lines = block.into_lines().ok()?;
    let mut bytes = 0usize;
    for line in &lines {
        for piece in line.tagged_strings() {
            bytes = bytes.checked_add(piece.s.len())?;
        }
    }
    println!(rt; "{} {bytes}", lines.len()).ok()
}

fn main(rt: HostRuntime) -> ExitCode {
    match run(&rt) {
        Some(()) => ExitCode::SUCCESS,
        None => ExitCode::FAILURE,
    }
}
