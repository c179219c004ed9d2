//! How wide a text is: its widest line, and its longest word.

ghost use Rattle.std.specs.Prelude.{◌≡◌, chars};
ghost use Rattle.tbr_model.specs.Run.{is_break};
ghost use Rattle.tbr_tables.specs.Numbers.{any_width};
ghost use Rattle.tbr_tables.specs.Ruler as model;
ghost use Rattle.tbr_tables.specs.Ruler.{no_text, room_of, line_ended, grown, settled, with_lines, joined, shown, after_normal, after_kept, after_wrapped, after_char, after_text, own_space};

use column_widths::Room;
use tbr_model::{CharWidth, WhiteSpace};
use tbr_tagged::is_wordbreak_point;

/// A tab goes to the next multiple of this many columns.
const TAB: usize = 8;

const ZERO_WIDTH_SPACE: char = '\u{200b}';

/// What is known of the lines of a text.
#[derive(Clone, Copy, Debug, PartialEq, Eq)]
pub struct Ruler {
    /// The most columns that a line may take.
    pub limit: usize,
    /// The most columns that a line of text takes.
    pub wrap: usize,
    /// The columns of the longest word that has ended.
    pub least: usize,
    /// The columns of the widest line, to the end of its last word that has ended.
    pub greatest: usize,
    /// The columns of the open line, to the end of its last word.
    pub line: usize,
    /// The columns of that word, or 0 if it has ended.
    pub word: usize,
    /// The columns of the white space after it.
    pub space: usize,
}

impl Ruler {
    /// No text. Lines take at most `limit` columns, and those of text at most `wrap`.
    pub fn new(limit: usize, wrap: usize) -> Ruler
        ensures { result ≡ no_text limit wrap }
    {
        Ruler {
            limit,
            wrap,
            least: 0,
            greatest: 0,
            line: 0,
            word: 0,
            space: 0,
        }
    }

    /// The columns of its longest word and its widest line.
    pub fn room(&self) -> Room
        ensures { result ≡ room_of self.now }
    {
        let mut settled = *self;
        settled.settle();
        Room {
            least: settled.least,
            greatest: settled.greatest,
        }
    }

    /// Adds a text.
    pub fn add_text<W: CharWidth>(&mut self, mode: WhiteSpace, text: &str)
        ensures { self.new ≡ after_text W.columns mode (chars text.now) self.old }
    {
        for c in text.chars() {
            self.add_char::<W>(mode, c);
        }
    }

    /// Ends the open line.
    pub fn end_line(&mut self)
        ensures { self.new ≡ line_ended self.old }
    {
        self.settle();
        self.line = 0;
        self.word = 0;
        self.space = 0;
    }

    /// Adds lines that take this room.
    pub fn add_lines(&mut self, room: Room)
        ensures { self.new ≡ with_lines room self.old }
    {
        self.end_line();
        self.grow(room.least, room.greatest);
    }

    /// Makes the longest word and the widest line at least this wide.
    fn grow(&mut self, word: usize, line: usize)
        ensures { self.new ≡ grown word line self.old }
    {
        self.least = self.least.max(word.min(self.limit));
        self.greatest = self.greatest.max(line.min(self.limit));
    }

    /// Counts the open word and the open line.
    fn settle(&mut self)
        ensures { self.new ≡ settled self.old }
    {
        self.grow(self.word.min(self.wrap), self.line.min(self.wrap));
    }

    /// Ends the word at the end of the line.
    fn end_word(&mut self)
        ensures { self.new ≡ model.word_ended self.old.space self.old }
    {
        self.settle();
        self.word = 0;
    }

    /// Adds a character of this many columns to the word at the end of the line.
    fn join(&mut self, columns: usize)
        ensures { self.new ≡ joined columns self.old }
    {
        self.line = self.line.saturating_add(self.space).saturating_add(columns);
        self.word = self.word.saturating_add(columns);
        self.space = 0;
    }

    /// Adds a character.
    fn add_char<W: CharWidth>(&mut self, mode: WhiteSpace, c: char)
        ensures { self.new ≡ after_char W.columns mode self.old c }
    {
        match mode {
            WhiteSpace::Normal => self.add_normal::<W>(c),
            WhiteSpace::Pre => self.add_kept::<W>(c),
            WhiteSpace::PreWrap => self.add_wrapped::<W>(c),
        }
    }

    /// Adds a character, where white space counts as one space.
    fn add_normal<W: CharWidth>(&mut self, c: char)
        ensures { self.new ≡ after_normal W.columns c self.old }
    {
        if ends_word(c) {
            self.end_word();
            if c != ZERO_WIDTH_SPACE && self.line > 0 {
                self.space = 1;
            }
        } else {
            self.add_shown::<W>(c);
        }
    }

    /// Adds a character, where no line is broken.
    fn add_kept<W: CharWidth>(&mut self, c: char)
        ensures { self.new ≡ after_kept W.columns c self.old }
    {
        match c {
            ZERO_WIDTH_SPACE => {}
            '\n' => self.end_line(),
            '\t' => self.join(self.to_tab_stop()),
            _ => self.add_shown::<W>(c),
        }
    }

    /// Adds a character, where white space is kept and lines are broken there.
    fn add_wrapped<W: CharWidth>(&mut self, c: char)
        ensures { self.new ≡ after_wrapped W.columns c self.old }
    {
        if c == '\n' {
            self.end_line();
        } else if ends_word(c) {
            self.end_word();
            self.space = self.space.saturating_add(self.columns_of_space::<W>(c));
        } else {
            self.add_shown::<W>(c);
        }
    }

    /// Adds a character to the word, if it is shown.
    fn add_shown<W: CharWidth>(&mut self, c: char)
        ensures { self.new ≡ shown (W.columns c) self.old }
    {
        if let Some(columns) = W::width(c) {
            self.join(columns);
        }
    }

    /// The columns of a character of white space that is kept.
    fn columns_of_space<W: CharWidth>(&self, c: char) -> usize
        ensures { result ≡ own_space W.columns c self.now }
    {
        match c {
            ZERO_WIDTH_SPACE => 0,
            '\t' => self.to_tab_stop(),
            _ => W::width(c).unwrap_or(0),
        }
    }

    /// The columns to the next tab stop.
    fn to_tab_stop(&self) -> usize
        ensures { result ≡ model.to_tab_stop self.now }
    {
        TAB - self.line.saturating_add(self.space) % TAB
    }
}

/// The columns of the longest word and of the widest line of a text, where lines may be as wide as they are.
pub fn measure<W: CharWidth>(mode: WhiteSpace, text: &str) -> Room
    ensures { result ≡ room_of (after_text W.columns mode (chars text.now) (no_text any_width any_width)) }
{
    let mut ruler = Ruler::new(usize::MAX, usize::MAX);
    ruler.add_text::<W>(mode, text);
    ruler.room()
}

/// Whether a word ends before a character, as `is_wordbreak_point` tells. For printable ASCII it is known faster.
#[tactic(auto, using(tbr_model::proofs::rule::Printable::break_not))]
fn ends_word(c: char) -> bool
    ensures { result ≡ is_break c }
{
    if c > ' ' && c <= '~' {
        return false;
    }
    is_wordbreak_point(c)
}
