//! A line as C sees it.
ghost use Rattle.std.specs.Prelude.{◌≡◌, ◌+◌, None, Some, IfOk, MatchResult, length, slice_get, string_bytes};
ghost use Rattle.tbr_tagged.specs.View.{element_of, elements_of};
ghost use Rattle.tbr_c_lines.specs.Line.{what_of};
ghost use Rattle.tbr_c_lines.specs.Line as seen;
ghost use Rattle.tbr_c_lines.specs.declared.fault.Fault.TheVariants as F;

use crate::annotation::Annotation;
use crate::fault::Fault;
use std::alloc::Global;
use std::marker::Model;
use tbr_border::RenderLine;
use tbr_decor::{Colour, RichAnnotation};
use tbr_tagged::{OutOfMemory, TaggedLine, TaggedLineElement, TaggedString, UnicodeColumns};

/// A line: its text, and its pieces by their places in it.
#[derive(Drop)]
pub struct Line {
    text: String,
    columns: usize,
    is_border: bool,
    pieces: Vec<Piece>,
}

impl Model for Line {
    ghost use Rattle.std.specs.Prelude.{string_bytes};
    ghost use Rattle.tbr_c_lines.specs.Line.{Line};

    ghost Value = { Line };

    ghost view = { λ l. record {
      text = string_bytes l.text;
      columns = l.columns;
      is_border = l.is_border;
      pieces = l.pieces.items;
    } };
}

/// A piece of a line.
#[derive(Drop)]
pub struct Piece {
    /// Where its bytes begin in the line's.
    begin: usize,
    /// Where they end.
    end: usize,
    what: What,
}

impl Model for Piece {
    ghost use Rattle.tbr_c_lines.specs.Line.{Piece, what_of};

    ghost Value = { Piece };

    ghost view = { λ p. record { begin = p.begin; end = p.end; what = what_of p.what } };
}

/// What a piece is.
#[derive(Drop)]
pub enum What {
    /// Text under annotations, the outermost first.
    Text {
        text: String,
        annotations: Vec<RichAnnotation>,
    },
    /// A marker, by its name.
    Marker(String),
}

/// `tbr_line`.
#[repr(C)]
#[derive(Clone, Copy, Drop)]
pub struct LineSize {
    pub bytes: usize,
    pub columns: usize,
    pub pieces: usize,
    pub is_border: bool,
}

/// `tbr_piece`.
#[repr(C)]
#[derive(Clone, Copy, Drop)]
pub struct PiecePlace {
    pub begin: usize,
    pub end: usize,
    pub annotations: usize,
    pub name_bytes: usize,
    pub kind: u32,
}

/// `tbr_annotation`.
#[repr(C)]
#[derive(Clone, Copy, Drop)]
pub struct AnnotationKind {
    pub target_bytes: usize,
    pub kind: u32,
    pub red: u8,
    pub green: u8,
    pub blue: u8,
}

impl Line {
    /// A line that a renderer handed out. It refuses only where memory is refused, and where its columns pass `usize`.
    pub fn new<A: Annotation>(alloc: Global, line: RenderLine<Vec<A>>) -> Result<Line, OutOfMemory>
        ensures { IfOk result (λ l. seen.IsSeenAs A.eq A.shown line l) }
    {
        let is_border = is_border(&line);
        let tagged = line.into_tagged_line()?;
        Ok(Line {
            text: tagged.to_text()?,
            columns: tagged.width::<UnicodeColumns>()?,
            is_border,
            pieces: placed(alloc, tagged)?,
        })
    }

    /// Its text.
    pub fn text(&self) -> &str
        ensures { result.now ≡ self.now.text }
    {
        self.text.as_str()
    }

    /// How much there is of it.
    pub fn size(&self) -> LineSize
        ensures { result ≡ seen.size_of self.now }
    {
        LineSize {
            bytes: self.text.len(),
            columns: self.columns,
            pieces: self.pieces.len(),
            is_border: self.is_border,
        }
    }

    /// Its pieces.
    pub(crate) fn pieces(&self) -> &[Piece]
        ensures { result.now ≡ self.now.pieces }
    {
        self.pieces.as_slice()
    }

    /// The piece at a place, from 0. `NoPiece` where there is none.
    pub fn piece(&self, place: usize) -> Result<PiecePlace, Fault>
        ensures { result ≡ seen.placed (slice_get self.now.pieces place) }
    {
        let piece = self.pieces.get(place).ok_or(Fault::NoPiece)?;
        let (annotations, name_bytes, kind) = match &piece.what {
            What::Text { annotations, .. } => (annotations.len(), 0, 0),
            What::Marker(name) => (0, name.len(), 1),
        };
        Ok(PiecePlace {
            begin: piece.begin,
            end: piece.end,
            annotations,
            name_bytes,
            kind,
        })
    }

    /// The name of the marker at a place. `NoPiece` where there is none.
    pub fn marker_name(&self, place: usize) -> Result<&str, Fault>
        ensures { let name = seen.marked (slice_get self.now.pieces place) in
            MatchResult result (λ found. name ≡ Some found.now) (λ e. (e ≡ F.NoPiece) × (name ≡ None)) }
    {
        match &self.pieces.get(place).ok_or(Fault::NoPiece)?.what {
            What::Marker(name) => Ok(name.as_str()),
            What::Text { .. } => Err(Fault::NoPiece),
        }
    }

    /// The annotation at a place of the piece at a place. `NoPiece` where there is none.
    pub fn annotation(&self, piece: usize, place: usize) -> Result<&RichAnnotation, Fault>
        ensures { let annotation = slice_get (seen.annotated (slice_get self.now.pieces piece)) place in
            MatchResult result (λ found. annotation ≡ Some found.now) (λ e. (e ≡ F.NoPiece) × (annotation ≡ None)) }
    {
        match &self.pieces.get(piece).ok_or(Fault::NoPiece)?.what {
            What::Text { annotations, .. } => annotations.get(place).ok_or(Fault::NoPiece),
            What::Marker(_) => Err(Fault::NoPiece),
        }
    }
}

/// Whether a line is a border.
fn is_border<T>(line: &RenderLine<T>) -> bool
    ensures { result ≡ seen.is_border line.now }
{
    matches!(line, RenderLine::Line(_))
}

/// The elements of a line by their places in its text.
fn placed<A: Annotation>(alloc: Global, line: TaggedLine<Vec<A>>) -> Result<Vec<Piece>, OutOfMemory>
    ensures { IfOk result (λ pieces. pieces.items ≡ seen.pieces_at A.shown 0 line) }
{
    let mut pieces = Vec::new(alloc);
    let mut begin = 0usize;
    for element in line {
        let piece = Piece::new(alloc, begin, element)?;
        begin = piece.end;
        pieces.push(piece)?;
    }
    Ok(pieces)
}

impl Piece {
    /// What it is.
    pub(crate) fn what(&self) -> &What
        ensures { what_of result.now ≡ self.now.what }
    {
        &self.what
    }

    /// An element of a line whose text begins at a place.
    fn new<A: Annotation>(
        alloc: Global,
        begin: usize,
        element: TaggedLineElement<Vec<A>>,
    ) -> Result<Piece, OutOfMemory>
        ensures { IfOk result (λ p. p ≡ seen.piece_at A.shown begin (element_of element)) }
    {
        match element {
            TaggedLineElement::Str(TaggedString { s: text, tag }) => {
                let end = end_after(begin, text.as_str())?;
                let annotations = A::show(alloc, tag)?;
                Ok(Piece {
                    begin,
                    end,
                    what: What::Text { text, annotations },
                })
            }
            TaggedLineElement::FragmentStart(name) => Ok(Piece {
                begin,
                end: begin,
                what: What::Marker(name),
            }),
        }
    }
}

/// Where a text ends that begins at a place. It refuses where that passes `usize`.
fn end_after(begin: usize, text: &str) -> Result<usize, OutOfMemory>
    ensures { IfOk result (λ end. end ≡ begin + length text.now) }
{
    match begin.checked_add(text.len()) {
        Some(end) => Ok(end),
        None => Err(OutOfMemory),
    }
}

/// The target of a link, or the source of an image. `NoPiece` for anything else.
pub fn target(annotation: &RichAnnotation) -> Result<&str, Fault>
    ensures { let target = seen.target_of annotation.now in
        MatchResult result (λ found. target ≡ Some found.now) (λ e. (e ≡ F.NoPiece) × (target ≡ None)) }
{
    match annotation {
        RichAnnotation::Link(target) | RichAnnotation::Image(target) => Ok(target.as_str()),
        _ => Err(Fault::NoPiece),
    }
}

/// An annotation by numbers.
pub fn kind(annotation: &RichAnnotation) -> AnnotationKind
    ensures { result ≡ seen.kind_of annotation.now }
{
    match annotation {
        RichAnnotation::Default => plain(0),
        RichAnnotation::Link(target) => to(1, target.as_str()),
        RichAnnotation::Image(source) => to(2, source.as_str()),
        RichAnnotation::Emphasis => plain(3),
        RichAnnotation::Strong => plain(4),
        RichAnnotation::Strikeout => plain(5),
        RichAnnotation::Code => plain(6),
        RichAnnotation::Preformat(false) => plain(7),
        RichAnnotation::Preformat(true) => plain(8),
        RichAnnotation::Colour(colour) => coloured(9, *colour),
        RichAnnotation::BgColour(colour) => coloured(10, *colour),
    }
}

/// An annotation that is its kind alone.
fn plain(kind: u32) -> AnnotationKind
    ensures { result ≡ seen.plain kind }
{
    AnnotationKind {
        target_bytes: 0,
        kind,
        red: 0,
        green: 0,
        blue: 0,
    }
}

/// One with a target.
fn to(kind: u32, target: &str) -> AnnotationKind
    ensures { result ≡ record (seen.plain kind) { target_bytes = length target.now } }
{
    AnnotationKind {
        target_bytes: target.len(),
        ..plain(kind)
    }
}

/// One with a colour.
fn coloured(kind: u32, colour: Colour) -> AnnotationKind
    ensures { result ≡ seen.coloured kind colour }
{
    AnnotationKind {
        red: colour.r,
        green: colour.g,
        blue: colour.b,
        ..plain(kind)
    }
}
