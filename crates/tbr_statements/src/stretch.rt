//! What one command begins and another ends.
ghost use Rattle.std.specs.Prelude.{◌≡◌, ◌<◌, [], OnOk, IfSome};
ghost use Rattle.tbr_commands.specs.Syntax.{ending_name};
ghost use Rattle.tbr_statements.specs.Stretch as model;

use std::alloc::{AllocError, Global};
use std::mem;
use tbr_commands::{Command, Kind, Request};

/// How many kinds of stretches there are.
const KINDS: usize = 10;

/// What one command begins and another ends, inside one level.
#[derive(Clone, Copy, Debug, PartialEq, Eq)]
pub enum Stretch {
    /// A stretch of this kind.
    Of(Kind),
    /// A link.
    Link,
}

impl Stretch {
    /// What a command begins, if it begins something.
    pub fn begun_by(command: &Command) -> Option<Stretch>
        ensures { result ≡ model.begun_by command.now }
    {
        match command {
            Command::Ask(request) => Some(Stretch::Of(request.begins()?)),
            Command::Link(_) => Some(Stretch::Link),
            _ => None,
        }
    }

    /// What a command ends, if it ends something.
    pub fn ended_by(command: &Command) -> Option<Stretch>
        ensures { result ≡ model.ended_by command.now }
    {
        match command {
            Command::Ask(request) => Some(Stretch::Of(request.ends()?)),
            Command::EndLink => Some(Stretch::Link),
            _ => None,
        }
    }

    /// The word that begins it.
    pub fn word(self) -> &'static str
        ensures { result.now ≡ model.word_of self }
    {
        match self {
            Stretch::Link => "link",
            Stretch::Of(Kind::Mode) => "ws",
            Stretch::Of(Kind::Preformat) => "pre",
            Stretch::Of(Kind::Emphasis) => "em",
            Stretch::Of(Kind::Strong) => "strong",
            Stretch::Of(Kind::Strikeout) => "strike",
            Stretch::Of(Kind::Code) => "code",
            Stretch::Of(Kind::Superscript) => "super",
            Stretch::Of(Kind::Colour) => "colour",
            Stretch::Of(Kind::Background) => "bg",
        }
    }

    /// The word that ends it.
    pub fn end(self) -> &'static str
        ensures { result.now ≡ model.end_of self }
    {
        match self {
            Stretch::Link => "endlink",
            Stretch::Of(kind) => ending(kind),
        }
    }

    /// Its place among the kinds.
    fn place(self) -> usize
        ensures { result < 10 }
    {
        match self {
            Stretch::Link => 0,
            Stretch::Of(Kind::Mode) => 1,
            Stretch::Of(Kind::Preformat) => 2,
            Stretch::Of(Kind::Emphasis) => 3,
            Stretch::Of(Kind::Strong) => 4,
            Stretch::Of(Kind::Strikeout) => 5,
            Stretch::Of(Kind::Code) => 6,
            Stretch::Of(Kind::Superscript) => 7,
            Stretch::Of(Kind::Colour) => 8,
            Stretch::Of(Kind::Background) => 9,
        }
    }
}

/// The word that ends a stretch of a kind.
pub fn ending(kind: Kind) -> &'static str
    ensures { result.now ≡ ending_name kind }
{
    match kind {
        Kind::Mode => "endws",
        Kind::Preformat => "endpre",
        Kind::Emphasis => "endem",
        Kind::Strong => "endstrong",
        Kind::Strikeout => "endstrike",
        Kind::Code => "endcode",
        Kind::Superscript => "endsuper",
        Kind::Colour => "endcolour",
        Kind::Background => "endbg",
    }
}

/// A stretch that began.
#[derive(Clone, Copy, Debug)]
struct Begun {
    stretch: Stretch,
    line: usize,
    /// How many levels were open.
    level: usize,
    is_open: bool,
    /// The place of the last one of its kind that was open when it began.
    before: Option<usize>,
}

/// The stretches that are open, and some that were ended. Ending one takes constant time, even if they overlap.
#[derive(Drop)]
pub struct Stretches {
    /// The stretches, in the order in which they began. The last one is open.
    begun: Vec<Begun>,
    /// The place of the last open one of each kind.
    last: [Option<usize>; KINDS],
}

impl Stretches {
    /// No stretches.
    pub fn none(alloc: Global) -> Stretches {
        Stretches {
            begun: Vec::new(alloc),
            last: [None; KINDS],
        }
    }

    /// Begins a stretch on a line, where this many levels are open. It refuses only where memory is refused.
    pub fn begin(&mut self, stretch: Stretch, line: usize, level: usize) -> Result<(), AllocError> {
        let place = self.begun.len();
        let before = mem::replace(&mut self.last[stretch.place()], Some(place));
        self.begun.push(Begun {
            stretch,
            line,
            level,
            is_open: true,
            before,
        })?;
        Ok(())
    }

    /// Ends the last open stretch of its kind, if there is one.
    pub fn end(&mut self, stretch: Stretch) {
        let Some(place) = self.last[stretch.place()] else {
            return;
        };
        let Some(begun) = self.begun.get_mut(place) else {
            return;
        };
        begun.is_open = false;
        self.last[stretch.place()] = begun.before;
        self.forget_ended();
    }

    /// Whether one of a kind is open that began where so many levels were open.
    pub fn is_open_in(&self, stretch: Stretch, level: usize) -> bool {
        let Some(place) = self.last[stretch.place()] else {
            return false;
        };
        match self.begun.get(place) {
            Some(begun) => begun.level == level,
            None => false,
        }
    }

    /// Forgets those that were ended after the last that is open.
    fn forget_ended(&mut self) {
        let ended = self
            .begun
            .iter()
            .rev()
            .take_while(|begun| !begun.is_open)
            .count();
        self.begun.truncate(self.begun.len().saturating_sub(ended));
    }

    /// The place of the first that began where this many levels were open, or more.
    pub fn first_in(&self, level: usize) -> usize {
        let inside = self
            .begun
            .iter()
            .rev()
            .take_while(|begun| begun.level >= level)
            .count();
        self.begun.len().saturating_sub(inside)
    }

    /// How many there are.
    pub fn len(&self) -> usize {
        self.begun.len()
    }

    /// The stretch at a place, and the line on which it began, if it is open.
    pub fn open_at(&self, place: usize) -> Option<(Stretch, usize)> {
        let begun = self.begun.get(place).filter(|begun| begun.is_open)?;
        Some((begun.stretch, begun.line))
    }

    /// Ends those from a place on, with their level.
    pub fn end_from(&mut self, place: usize) {
        for _ in place..self.begun.len() {
            self.end_last();
        }
        self.forget_ended();
    }

    /// Ends the last one.
    fn end_last(&mut self) {
        if let Some(begun) = self.begun.pop()
            && begun.is_open
        {
            self.last[begun.stretch.place()] = begun.before;
        }
    }
}
