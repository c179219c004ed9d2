//! A renderer of one's own, which counts characters and shows none.
ghost use Rattle.std.specs.Prelude.{◌≡◌, ◌<◌, true, false, [], length, Ok, Err, OnOk, IfOk, IfErr, if◌then◌else◌, chars};
ghost use Rattle.std.specs.List.{AllByRecursion as Each};
ghost use Rattle.tbr_tagged.specs.declared.Error.TheVariants.{OutOfMemory};
ghost use Rattle.text_block_renderer.specs.Outcomes.{gathered};
ghost use Rattle.text_block_renderer.specs.Rows.{cells_given};
ghost use Rattle.text_block_renderer.specs.Calls.{IsWide, Takes};
ghost use Rattle.callers.specs.Counted as counted;
ghost use Rattle.callers.specs.Counted.{with_more, nothing_counted};

use crate::emphasised::emphasised;
use std::alloc::Global;
use std::convert::AsStr;
use std::marker::Model;
use text_block_renderer::{CellAlign, Colour, Error, Renderer, WhiteSpace, text};

/// Counts the characters of what comes to it: of texts, of titles of images, and of the lines of other counters. So the
/// code that fills a renderer tells how long a document is before anything is laid out.
///
/// Its only refusal is `OutOfMemory`, where a count passes `usize`.
#[derive(Drop)]
pub struct Counter {
    alloc: Global,
    width: usize,
    characters: usize,
    preformatted: usize,
    failed: bool,
}

impl Model for Counter {
    ghost use Rattle.callers.specs.Counted.{Counted};

    ghost Value = { Counted };

    ghost view = { λ c. record {
      width = c.width;
      characters = c.characters;
      preformatted = c.preformatted;
      failed = c.failed;
    } };
}

impl Counter {
    /// A counter of this many columns that has counted nothing. It takes no memory.
    pub fn new(alloc: Global, width: usize) -> Counter
        ensures { result ≡ nothing_counted width }
    {
        Counter {
            alloc,
            width,
            characters: 0,
            preformatted: 0,
            failed: false,
        }
    }

    /// How many characters came.
    pub fn characters(&self) -> usize
        ensures { result ≡ self.now.characters }
    {
        self.characters
    }

    /// Its own refusal, if it has failed.
    fn refusal(&self) -> Result<(), Error>
        ensures { result ≡ (if self.now.failed then Err OutOfMemory else Ok tt) }
    {
        if self.failed {
            Err(Error::OutOfMemory)
        } else {
            Ok(())
        }
    }

    /// Fails.
    fn fail(&mut self) -> Result<(), Error>
        ensures result { result ≡ Err OutOfMemory }
        ensures failed { self.new ≡ record self.old { failed = true } }
    {
        self.failed = true;
        Err(Error::OutOfMemory)
    }

    /// Counts this many characters.
    fn count(&mut self, more: usize) -> Result<(), Error>
        ensures ok { OnOk result ((self.old.failed ≡ false) × (self.new ≡ with_more more self.old)) }
        ensures err { IfErr result (λ e. (e ≡ OutOfMemory) × (self.new ≡ record self.old { failed = true })) }
    {
        self.refusal()?;
        let Some(characters) = self.characters.checked_add(more) else {
            return self.fail();
        };
        self.characters = characters;
        Ok(())
    }

    /// Counts the characters of a text.
    fn count_text(&mut self, text: &str) -> Result<(), Error>
        ensures ok { OnOk result
            ((self.old.failed ≡ false) × (self.new ≡ with_more (length (chars text.now)) self.old)) }
        ensures err { IfErr result (λ e. (e ≡ OutOfMemory) × (self.new ≡ record self.old { failed = true })) }
    {
        self.count(text.chars().count())
    }

    /// Counts what another counter has counted, and passes on its refusal.
    fn take(&mut self, other: Counter) -> Result<(), Error>
        ensures ok { OnOk result ((self.old.failed ≡ false) × (other.failed ≡ false)
            × (self.new ≡ with_more other.characters self.old)) }
        ensures err { IfErr result (λ e. (e ≡ OutOfMemory) × (self.new ≡ record self.old { failed = true })) }
    {
        if other.failed {
            return self.fail();
        }
        self.count(other.characters)
    }

    /// Counts what these have counted, one after another, up to the first refusal.
    fn take_all(&mut self, others: Vec<Counter>) -> Result<(), Error>
        ensures ok { OnOk result ((self.old.failed ≡ false) × Each (λ other. other.failed ≡ false) others.items
            × (self.new ≡ with_more (counted.sum_of (λ other. other.characters) others.items) self.old)) }
        ensures err { IfErr result (λ e. (e ≡ OutOfMemory) × (counted.kept_of self.new ≡ counted.kept_of self.old)
            × (self.new.failed ≡ true) × (self.old.failed ≡ true → self.new ≡ self.old)) }
    {
        self.refusal()?;
        for other in others {
            self.take(other)?;
        }
        Ok(())
    }

    /// Counts what the cells of a row have counted, as `take_all` does.
    fn take_cells(&mut self, cells: Vec<(Counter, usize)>) -> Result<(), Error>
        ensures ok { OnOk result ((self.old.failed ≡ false) × Each (λ cell. cell.0.failed ≡ false) cells.items
            × (self.new ≡ with_more (counted.sum_of (λ cell. cell.0.characters) cells.items) self.old)) }
        ensures err { IfErr result (λ e. (e ≡ OutOfMemory) × (counted.kept_of self.new ≡ counted.kept_of self.old)
            × (self.new.failed ≡ true) × (self.old.failed ≡ true → self.new ≡ self.old)) }
    {
        self.refusal()?;
        for (cell, _) in cells {
            self.take(cell)?;
        }
        Ok(())
    }
}

impl Renderer for Counter {
    ghost use Rattle.std.specs.Prelude.{◌≡◌, ◌==◌, ◌&&◌, not, []};
    ghost use Rattle.callers.specs.Counted as counted;
    ghost use Rattle.callers.specs.Counted.{Counted, nothing_counted, with_more};

    ghost Tag = { Unit {0} };

    ghost State = { Counted };

    ghost calls = { counted.calls };

    ghost handed_out = { counted.handed_out };

    ghost ends_best = { λ _. Unit {0} };

    ghost has_places_for = { λ _ _. Unit {0} };

    ghost prefix_text = { λ _ _. [] };

    ghost sub_renderer = { λ width _. nothing_counted width };

    ghost is_empty = { λ c. (c.characters == 0) && not c.failed };

    fn add_empty_line(&mut self) -> Result<(), Error> {
        self.refusal()
    }

    fn new_line(&mut self) -> Result<(), Error> {
        self.refusal()
    }

    fn new_line_hard(&mut self) -> Result<(), Error> {
        self.refusal()
    }

    fn start_block(&mut self) -> Result<(), Error> {
        self.refusal()
    }

    fn start_table(&mut self) -> Result<(), Error> {
        self.refusal()
    }

    fn end_block(&mut self) {}

    fn add_inline_text(&mut self, text: &str) -> Result<(), Error> {
        self.count_text(text)
    }

    fn push_ws(&mut self, _ws: WhiteSpace) -> Result<(), Error> {
        self.refusal()
    }

    fn pop_ws(&mut self) {}

    fn push_preformat(&mut self) -> Result<(), Error> {
        self.refusal()?;
        let Some(preformatted) = self.preformatted.checked_add(1) else {
            return self.fail();
        };
        self.preformatted = preformatted;
        Ok(())
    }

    fn pop_preformat(&mut self) {
        if !self.failed {
            self.preformatted -= 1;
        }
    }

    fn record_frag_start(&mut self, _name: &str) -> Result<(), Error> {
        self.refusal()
    }

    fn start_link(&mut self, _target: &str) -> Result<(), Error> {
        self.refusal()
    }

    fn end_link(&mut self) -> Result<(), Error> {
        self.refusal()
    }

    fn start_emphasis(&mut self) -> Result<(), Error> {
        self.refusal()
    }

    fn end_emphasis(&mut self) -> Result<(), Error> {
        self.refusal()
    }

    fn start_strong(&mut self) -> Result<(), Error> {
        self.refusal()
    }

    fn end_strong(&mut self) -> Result<(), Error> {
        self.refusal()
    }

    fn start_code(&mut self) -> Result<(), Error> {
        self.refusal()
    }

    fn end_code(&mut self) -> Result<(), Error> {
        self.refusal()
    }

    fn start_superscript(&mut self) -> Result<(), Error> {
        self.refusal()
    }

    fn end_superscript(&mut self) -> Result<(), Error> {
        self.refusal()
    }

    fn start_strikeout(&mut self) -> Result<(), Error> {
        self.refusal()
    }

    fn end_strikeout(&mut self) -> Result<(), Error> {
        self.refusal()
    }

    fn add_image(&mut self, _src: &str, title: &str) -> Result<(), Error> {
        self.count_text(title)
    }

    fn add_horizontal_border(&mut self) -> Result<(), Error> {
        self.refusal()
    }

    fn add_horizontal_border_width(&mut self, _width: usize) -> Result<(), Error> {
        self.refusal()
    }

    fn append_subrender<P: AsStr + Drop, I: Iterator<Item = P>>(
        &mut self,
        mut other: Counter,
        mut prefixes: I,
    ) -> Result<(), Error> {
        // Its one line takes one prefix, and is dropped where there is none.
        if prefixes.next().is_none() {
            other.characters = 0;
        }
        self.take(other)
    }

    fn append_vert_row(&mut self, cols: Vec<Counter>) -> Result<(), Error>
        ensures takes { Takes counted.calls (gathered counted.handed_out cols.items)
            (Each (IsWide counted.calls) cols.items) counted.calls.append_vert_row
            self.old result self.new }
        ensures best { OnOk result (Unit {0} × Each (λ _. Unit {0}) cols.items) }
    {
        self.take_all(cols)
    }

    fn append_columns_aligned(
        &mut self,
        cols: Vec<(Counter, usize)>,
        aligns: &[CellAlign],
        collapse: bool,
    ) -> Result<(), Error>
        requires spans { Each (λ col. 0 < col.1) cols.items }
        requires aligns { length aligns.now ≡ length cols.items }
        ensures takes { Takes counted.calls (cells_given (λ c. c.width) counted.handed_out cols.items aligns.now)
            (Each (λ col. IsWide counted.calls col.0) cols.items) (counted.calls.append_row collapse)
            self.old result self.new }
        ensures best { OnOk result (Unit {0} × Each (λ _. Unit {0}) cols.items) }
    {
        self.take_cells(cols)
    }

    fn append_columns_with_borders(
        &mut self,
        cols: Vec<(Counter, usize)>,
        collapse: bool,
    ) -> Result<(), Error>
        requires spans { Each (λ col. 0 < col.1) cols.items }
        ensures takes { Takes counted.calls (cells_given (λ c. c.width) counted.handed_out cols.items [])
            (Each (λ col. IsWide counted.calls col.0) cols.items) (counted.calls.append_row collapse)
            self.old result self.new }
        ensures best { OnOk result (Unit {0} × Each (λ _. Unit {0}) cols.items) }
    {
        self.take_cells(cols)
    }

    fn push_colour(&mut self, _colour: Colour) -> Result<(), Error> {
        self.refusal()
    }

    fn pop_colour(&mut self) {}

    fn push_bgcolour(&mut self, _colour: Colour) -> Result<(), Error> {
        self.refusal()
    }

    fn pop_bgcolour(&mut self) {}

    fn header_prefix(&mut self, _level: usize) -> Result<String, Error> {
        Ok(text::empty(self.alloc))
    }

    fn quote_prefix(&mut self) -> Result<String, Error> {
        Ok(text::empty(self.alloc))
    }

    fn unordered_item_prefix(&mut self) -> Result<String, Error> {
        Ok(text::empty(self.alloc))
    }

    fn ordered_item_prefix(&mut self, _i: i64) -> Result<String, Error> {
        Ok(text::empty(self.alloc))
    }

    fn new_sub_renderer(&self, width: usize) -> Result<Counter, Error> {
        Ok(Counter::new(self.alloc, width))
    }

    fn width(&self) -> usize {
        self.width
    }

    fn empty(&self) -> bool {
        self.characters == 0 && !self.failed
    }
}

/// How many characters emphasised text has.
pub fn emphasised_length(alloc: Global, text: &str) -> Result<usize, Error>
    ensures { IfOk result (λ count. count ≡ length (chars text.now)) }
{
    let mut counter = Counter::new(alloc, 80);
    emphasised(&mut counter, text)?;
    Ok(counter.characters())
}
