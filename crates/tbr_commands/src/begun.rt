//! What a script has begun and not ended yet.
ghost use Rattle.std.specs.Prelude.{◌≡◌, OnOk, OnErr};
ghost use Rattle.tbr_commands.specs.Begun.{nothing_begun, count, with_count, begins, ends_nothing, more, MorePasses, less, counted};
ghost use Rattle.tbr_commands.specs.Request.{request_of};

use crate::request::Request;
use crate::request::kind::Kind;
use tbr_tagged::OutOfMemory;

/// How many of each kind were begun and not ended yet.
#[derive(Clone, Copy, Debug, PartialEq, Eq)]
pub struct Begun {
    /// Modes of white space.
    pub modes: usize,
    /// Preformatted stretches.
    pub preformats: usize,
    /// Stretches of emphasised text.
    pub emphases: usize,
    /// Stretches of strong text.
    pub strongs: usize,
    /// Stretches of struck out text, even where it has no strokes.
    pub strikeouts: usize,
    /// Stretches of code.
    pub codes: usize,
    /// Superscripts.
    pub superscripts: usize,
    /// Colours of text.
    pub colours: usize,
    /// Colours of the background.
    pub backgrounds: usize,
}

impl Begun {
    /// Nothing begun yet.
    pub fn nothing() -> Begun
        ensures { result ≡ nothing_begun }
    {
        Begun {
            modes: 0,
            preformats: 0,
            emphases: 0,
            strongs: 0,
            strikeouts: 0,
            codes: 0,
            superscripts: 0,
            colours: 0,
            backgrounds: 0,
        }
    }

    /// How many of a kind are begun.
    fn count(&self, kind: Kind) -> usize
        ensures { result ≡ count self.now kind }
    {
        match kind {
            Kind::Mode => self.modes,
            Kind::Preformat => self.preformats,
            Kind::Emphasis => self.emphases,
            Kind::Strong => self.strongs,
            Kind::Strikeout => self.strikeouts,
            Kind::Code => self.codes,
            Kind::Superscript => self.superscripts,
            Kind::Colour => self.colours,
            Kind::Background => self.backgrounds,
        }
    }

    /// Sets how many of a kind are begun.
    fn set(&mut self, kind: Kind, count: usize)
        ensures { self.new ≡ with_count self.old kind count }
    {
        match kind {
            Kind::Mode => self.modes = count,
            Kind::Preformat => self.preformats = count,
            Kind::Emphasis => self.emphases = count,
            Kind::Strong => self.strongs = count,
            Kind::Strikeout => self.strikeouts = count,
            Kind::Code => self.codes = count,
            Kind::Superscript => self.superscripts = count,
            Kind::Colour => self.colours = count,
            Kind::Background => self.backgrounds = count,
        }
    }

    /// Whether a request ends what wasn't begun, or was ended already.
    pub fn lacks(&self, request: &Request) -> bool
        ensures { result ≡ ends_nothing self.now (request_of request.now) }
    {
        match request.ends() {
            Some(kind) => self.count(kind) == 0,
            None => false,
        }
    }

    /// Counts one more of a kind, if there is a kind. It refuses where the count would pass `usize`, and then changes
    /// nothing.
    fn add(&mut self, kind: Option<Kind>) -> Result<(), OutOfMemory>
        ensures counts { OnOk result (self.new ≡ more self.old kind) }
        ensures passes { OnErr result (MorePasses self.old kind) }
        ensures left { OnErr result (self.new ≡ self.old) }
    {
        let Some(kind) = kind else {
            return Ok(());
        };
        let Some(count) = self.count(kind).checked_add(1) else {
            return Err(OutOfMemory);
        };
        self.set(kind, count);
        Ok(())
    }

    /// Counts one less of a kind, if there is a kind and its count isn't 0.
    fn remove(&mut self, kind: Option<Kind>)
        ensures { self.new ≡ less self.old kind }
    {
        if let Some(kind) = kind {
            self.set(kind, self.count(kind).saturating_sub(1));
        }
    }

    /// Counts what a request begins or ends. It refuses where a count would pass `usize`, and then changes nothing.
    pub fn note(&mut self, request: &Request) -> Result<(), OutOfMemory>
        ensures counts { OnOk result (self.new ≡ counted self.old (request_of request.now)) }
        ensures passes { OnErr result (MorePasses self.old (begins (request_of request.now))) }
        ensures left { OnErr result (self.new ≡ self.old) }
    {
        self.add(request.begins())?;
        self.remove(request.ends());
        Ok(())
    }
}
