//! Lays the characters of a run on lines, one after another. A call answers `TooNarrow` where a word that it lays has a
//! character wider than a line, and lines may not be wider. It answers `OutOfMemory` as `LaidLines` does.
//!
//! Its stages, in the words of its functions:
//! - The beginning of a text is *added*, as much at once as possible: words, or a stretch of characters and the one
//!   after it (`add_front`).
//! - A character *joins* the word (`join`), or a stretch of characters at which no word ends does (`add_stretch`).
//!   White space that doesn't join is pending before the word (`collapse`, `keep_space`).
//! - The word is *laid* where it ends. If it fits the open line after what is pending, it is laid here (`lay_here`).
//!   Otherwise it is laid afresh, after what is left of the space (`wrap_space`, `lay_fresh`).
//! - Words at the beginning of a text that fit the open line are laid there at once (`add_words`). If the first one
//!   doesn't fit, and a new line has room for all, they are moved to it (`move_words`).
//! - What fits the open line is *placed* on it (`place_pending`, `place_word`). What may not fit is *put* on it and the
//!   next ones (`put_pending`, `put_fresh`, `put_tab`).
//! - Ended lines are *taken*, the first one first ([`LaidLines::take_line`]).
ghost use Rattle.std.specs.Prelude.{◌≡◌, ◌≤◌, ◌<◌, ◌+◌, ◌&&◌, ◌||◌, ◌↔◌, [], ℕ, List, fold, length, take, map, chars, string_bytes, Bool, not, if◌then◌else◌, IsTrue, Option, None, Some};
ghost use Rattle.std.specs.Prelude.{true, false, OnOk, IfOk, IfSome, Err};
ghost use Rattle.tbr_model.specs.Width.{width_of_text};
ghost use Rattle.tbr_model.specs.Run.{Item, items_width, character, marker_entry, has_character, is_break};
ghost use Rattle.tbr_model.specs.Laid.{extended, put_items};
ghost use Rattle.tbr_model.specs.Rule as model;
ghost use Rattle.tbr_model.specs.Rule.{Progress, space_text, pending_width, put_pending, lay_here, lay_fresh, wrap_space_by, wrap_space, lay, flush_word, break_word, join};
ghost use Rattle.tbr_model.specs.Rule.{call, step, enter, enter_normal, collapse, newline, tab, keep_space, keep_character, passes, preserve};
ghost use Rattle.tbr_model.specs.declared.white_space.WhiteSpace.TheVariants.{Normal, Pre, PreWrap};
ghost use Rattle.tbr_model.specs.Greedy.{IsNarrow};
ghost use Rattle.tbr_model.specs.Markers.{names_in_items};
ghost use Rattle.tbr_tagged.specs.Elements.{SameItems, marker_element};
ghost use Rattle.tbr_tagged.specs.View.{element_of};
ghost use Rattle.tbr_tagged.specs.declared.error.Error.TheVariants as E;

use crate::laid_lines::LaidLines;
use crate::plain::{
    NO_STRETCH, Stretch, begins_with_space, letters_in_front, plain_in_front, words_in_front,
};
use std::alloc::Global;
use std::mem;
use tbr_model::{CharWidth, WhiteSpace};
use tbr_tagged::{Error, OutOfMemory, TaggedLineElement, always_takes_space, is_wordbreak_point};
use tbr_tags::Tag;

/// U+200B, at which a word may end without a space.
const ZERO_WIDTH_SPACE: char = '\u{200b}';

/// The most lines for which a call makes room ahead of time.
const MOST_AHEAD: usize = 32;

/// White space that waits for a word.
#[derive(Drop)]
pub struct Space<T> {
    /// Its columns, at least one.
    pub width: usize,
    pub tag: T,
    pub mode: WhiteSpace,
    ghost positive: { 0 < width },
}

/// Lines that are laid, the word under way, and what is pending before it.
#[derive(Drop)]
pub struct Wrapper<T> {
    /// They hold the word's items.
    pub lines: LaidLines<T>,
    /// The columns of the word.
    pub word_width: usize,
    /// The mode of the word's first character.
    pub word_mode: WhiteSpace,
    /// What is pending before the word.
    pub space: Option<Space<T>>,
    /// Whether the next call begins with the continuation tag.
    pub continuation_flag: bool,
    /// Whether this call has the continuation tag.
    pub in_continuation: bool,
}

impl<T> Wrapper<T> {
    ghost use Rattle.tbr_model.specs.Rule.{at_start};
    ghost use Rattle.tbr_wrap.specs.Wrapper.{IsAtProgress, held_width};

    /// Nothing laid and nothing pending. It takes no memory.
    pub fn new(alloc: Global, width: usize, may_overflow: bool) -> Wrapper<T>
        requires { 0 < width }
        ensures stands { (columns : ℕ → Option ℕ) (eq : T → T → Bool) → IsAtProgress columns eq result [] [] at_start }
        ensures width { result.lines.width ≡ width }
        ensures may_overflow { result.lines.may_overflow ≡ may_overflow }
    {
        Wrapper {
            lines: LaidLines::new(alloc, width, may_overflow),
            word_width: 0,
            word_mode: WhiteSpace::Normal,
            space: None,
            continuation_flag: false,
            in_continuation: false,
        }
    }

    /// The columns of the pending space.
    pub fn pending_width(&self) -> usize
        ensures { result ≡ held_width self.now.space }
    {
        match &self.space {
            Some(space) => space.width,
            None => 0,
        }
    }

    /// Whether the word fits the open line after the pending space.
    fn has_room(&self) -> bool
        ensures { IsTrue result ↔
            (self.now.lines.line_width + (held_width self.now.space + self.now.word_width) ≤ self.now.lines.width) }
    {
        let room = self.lines.width - self.lines.line_width;
        self.word_width <= room && self.pending_width() <= room - self.word_width
    }
}

impl<T: Tag> Wrapper<T> {
    ghost use Rattle.tbr_wrap.specs.LaidLines.{KeepsLimits};
    ghost use Rattle.tbr_wrap.specs.Plain as plain;
    ghost use Rattle.tbr_wrap.specs.Plain.{ArePlain, JoinInTurn, IsFront, IsStretch, AreWords};
    ghost use Rattle.tbr_wrap.specs.Runs.{text_entries};
    ghost use Rattle.tbr_wrap.specs.Wrapper.{IsAtProgress, IsUnderWay, Wherever, WrapperFollows, RefusesWider, Enters, RunIsFinished, SameSpace, KeepsTag, DropsSpace, AreMoved, held_width, join_all};

    /// The tag of a call's characters where no continuation begins.
    fn call_tag<'a>(&self, main_tag: &'a T, wrap_tag: &'a T) -> &'a T
        ensures { (columns : ℕ → Option ℕ) → Wherever columns T.eq self.now (λ p.
            T.eq result.now (model.tag_of p main_tag.now wrap_tag.now) ≡ true) }
    {
        if self.in_continuation {
            wrap_tag
        } else {
            main_tag
        }
    }

    /// Puts the pending space on the open line, where it fits.
    fn place_pending<W: CharWidth>(&mut self) -> Result<(), OutOfMemory>
        requires room { self.old.lines.line_width + held_width self.old.space ≤ self.old.lines.width }
        ensures placed { WrapperFollows W.columns T.eq self.old self.new result (λ p.
            record p { laid = extended p.laid (space_text p.space) (pending_width p.space); space = None }) }
        ensures line_width { OnOk result
            (self.new.lines.line_width ≡ self.old.lines.line_width + held_width self.old.space) }
        ensures word_width { self.new.word_width ≡ self.old.word_width }
        ensures limits { KeepsLimits self.old.lines self.new.lines }
    {
        match self.space.take() {
            Some(space) => self.lines.place_spaces(space.width, space.tag),
            None => Ok(()),
        }
    }

    /// Puts the pending space on the open line, which has room, and on lines after it.
    fn put_pending<W: CharWidth>(&mut self) -> Result<(), OutOfMemory>
        requires room { self.old.lines.line_width < self.old.lines.width }
        ensures put { WrapperFollows W.columns T.eq self.old self.new result (λ p.
            record p { laid = put_pending self.old.lines.width p.space p.laid; space = None }) }
        ensures limits { KeepsLimits self.old.lines self.new.lines }
    {
        match self.space.take() {
            Some(space) => self.lines.put_spaces(space.width, space.tag),
            None => Ok(()),
        }
    }

    /// Puts the word after the pending space on the open line, where both fit.
    fn lay_here<W: CharWidth>(&mut self) -> Result<(), OutOfMemory>
        requires room { self.old.lines.line_width + (held_width self.old.space + self.old.word_width) ≤
            self.old.lines.width }
        ensures laid { WrapperFollows W.columns T.eq self.old self.new result (lay_here W.columns) }
        ensures limits { KeepsLimits self.old.lines self.new.lines }
    {
        self.place_pending::<W>()?;
        let width = mem::replace(&mut self.word_width, 0);
        self.lines.place_word(width)?;
        self.continuation_flag = false;
        Ok(())
    }

    /// Does with the pending space what its mode asks for, if the word after it doesn't fit.
    fn wrap_space<W: CharWidth>(&mut self) -> Result<(), OutOfMemory>
        requires stands { IsUnderWay W.columns T.eq self.old }
        ensures wrapped { WrapperFollows W.columns T.eq self.old self.new result (λ p.
            wrap_space W.columns self.old.lines.width p p.space) }
        ensures limits { KeepsLimits self.old.lines self.new.lines }
    {
        let Some(space) = self.space.take() else {
            return Ok(());
        };
        match space.mode {
            WhiteSpace::Normal => Ok(()),
            WhiteSpace::Pre => self.shorten_space::<W>(space),
            WhiteSpace::PreWrap => self.trim_word::<W>(),
        }
    }

    /// Shortens the pending space by the room of the open line. If the space is shorter than that, it is written there.
    fn shorten_space<W: CharWidth>(&mut self, space: Space<T>) -> Result<(), OutOfMemory>
        requires taken { self.old.space ≡ None }
        requires mode { space.mode ≡ Pre }
        ensures shortened { (before given : List (List (Item T))) (p : Progress T) (s : model.Space T) →
            IsAtProgress W.columns T.eq self.old before given (record p { space = None }) →
            SameSpace T.eq (Some space) (Some s) →
            OnOk result (IsAtProgress W.columns T.eq self.new before given
            (wrap_space_by W.columns self.old.lines.width p s Pre)) }
        ensures limits { KeepsLimits self.old.lines self.new.lines }
    {
        let room = self.lines.width - self.lines.line_width;
        if space.width < room {
            return self.lines.place_spaces(space.width, space.tag);
        }
        let width = space.width - room;
        if width == 0 {
            return Ok(());
        }
        self.space = Some(Space {
            width,
            tag: space.tag,
            mode: WhiteSpace::Pre,
        });
        Ok(())
    }

    /// Removes the spaces at the open line's end, and the white space at the word's beginning.
    fn trim_word<W: CharWidth>(&mut self) -> Result<(), OutOfMemory>
        requires taken { self.old.space ≡ None }
        requires stands { IsUnderWay W.columns T.eq self.old }
        ensures trimmed { (before given : List (List (Item T))) (p : Progress T) (s : model.Space T) →
            IsAtProgress W.columns T.eq self.old before given (record p { space = None }) →
            OnOk result (IsAtProgress W.columns T.eq self.new before given
            (wrap_space_by W.columns self.old.lines.width p s PreWrap)) }
        ensures limits { KeepsLimits self.old.lines self.new.lines }
    {
        self.lines.trim();
        self.word_width = self.lines.flat.word_width::<W>()?;
        Ok(())
    }

    /// Puts the word, before which nothing is pending, on the open line and on lines after it. Where no line may be
    /// wider, and the word's first item is, it always answers `TooNarrow`. Its callers may take memory before that.
    fn put_fresh<W: CharWidth>(&mut self) -> Result<(), Error>
        ensures put { WrapperFollows W.columns T.eq self.old self.new result (λ p.
            record p { laid = put_items W.columns self.old.lines.width p.laid p.word; word = [] }) }
        ensures too_narrow { result ≡ Err E.TooNarrow → Wherever W.columns T.eq self.old (λ p.
            (self.old.lines.may_overflow ≡ false) × ¬ (IsNarrow W.columns self.old.lines.width p.word)) }
        ensures narrow { self.old.lines.may_overflow ≡ false → self.old.lines.width < self.old.word_width →
            self.old.lines.width < items_width W.columns (take 1 self.old.lines.flat.word) → result ≡ Err E.TooNarrow }
        ensures limits { KeepsLimits self.old.lines self.new.lines }
    {
        let width = mem::replace(&mut self.word_width, 0);
        if width <= self.lines.width - self.lines.line_width {
            self.lines.place_word(width)?;
            return Ok(());
        }
        self.lines.put_word::<W>()
    }

    /// Puts the word on a new line, after what is still pending. A word that has lost its characters stays.
    fn lay_fresh<W: CharWidth>(&mut self) -> Result<(), Error>
        requires stands { IsUnderWay W.columns T.eq self.old }
        ensures laid { WrapperFollows W.columns T.eq self.old self.new result
            (lay_fresh W.columns self.old.lines.width) }
        ensures too_narrow { result ≡ Err E.TooNarrow → Wherever W.columns T.eq self.old (λ p.
            (self.old.lines.may_overflow ≡ false) × ¬ (IsNarrow W.columns self.old.lines.width p.word)) }
        ensures limits { KeepsLimits self.old.lines self.new.lines }
    {
        self.lines.end_if_character()?;
        self.put_pending::<W>()?;
        self.continuation_flag = is_pre(self.word_mode);
        if self.lines.flat.has_word() {
            return self.put_fresh::<W>();
        }
        Ok(())
    }

    /// Lays the word: after the pending space if both fit the open line, and otherwise on a new one.
    fn lay<W: CharWidth>(&mut self) -> Result<(), Error>
        requires stands { IsUnderWay W.columns T.eq self.old }
        ensures laid { WrapperFollows W.columns T.eq self.old self.new result (lay W.columns self.old.lines.width) }
        ensures wider { RefusesWider W.columns T.eq self.old result (λ p.
            (lay W.columns self.old.lines.width p).laid.done) }
        ensures limits { KeepsLimits self.old.lines self.new.lines }
    {
        if self.has_room() {
            self.lay_here::<W>()?;
            return Ok(());
        }
        self.wrap_space::<W>()?;
        self.lay_fresh::<W>()
    }

    /// Lays the word, if it has a character.
    pub fn flush_word<W: CharWidth>(&mut self) -> Result<(), Error>
        requires stands { IsUnderWay W.columns T.eq self.old }
        ensures laid { WrapperFollows W.columns T.eq self.old self.new result
            (flush_word W.columns self.old.lines.width) }
        ensures wider { RefusesWider W.columns T.eq self.old result (λ p.
            (flush_word W.columns self.old.lines.width p).laid.done) }
        ensures limits { KeepsLimits self.old.lines self.new.lines }
    {
        if !self.lines.flat.has_word() {
            return Ok(());
        }
        self.lay::<W>()
    }

    /// Lays the word, if it has columns.
    pub fn break_word<W: CharWidth>(&mut self) -> Result<(), Error>
        requires stands { IsUnderWay W.columns T.eq self.old }
        ensures laid { WrapperFollows W.columns T.eq self.old self.new result
            (break_word W.columns self.old.lines.width) }
        ensures wider { RefusesWider W.columns T.eq self.old result (λ p.
            (break_word W.columns self.old.lines.width p).laid.done) }
        ensures limits { KeepsLimits self.old.lines self.new.lines }
    {
        if self.word_width == 0 {
            return Ok(());
        }
        self.lay::<W>()
    }

    /// The mode of the word's first character, once a character of the given mode has joined it.
    fn mode_with(&self, mode: WhiteSpace) -> WhiteSpace
        ensures { (js : List (Item T)) → SameItems T.eq self.now.lines.flat.word js →
            result ≡ (if has_character js then self.now.word_mode else mode) }
    {
        if self.lines.flat.has_word() {
            self.word_mode
        } else {
            mode
        }
    }

    /// Adds a character of `width` columns to the word.
    pub fn join(
        &mut self,
        c: char,
        width: usize,
        tag: &T,
        mode: WhiteSpace,
    ) -> Result<(), OutOfMemory>
        ensures joined { (columns : ℕ → Option ℕ) (a : T) → columns c ≡ Some width → T.eq tag.now a ≡ true →
            WrapperFollows columns T.eq self.old self.new result (join c a mode) }
        ensures limits { KeepsLimits self.old.lines self.new.lines }
    {
        let Some(word_width) = self.word_width.checked_add(width) else {
            return Err(OutOfMemory);
        };
        let word_mode = self.mode_with(mode);
        self.lines.flat.push(c, tag)?;
        self.word_width = word_width;
        self.word_mode = word_mode;
        Ok(())
    }

    /// Adds a text of `count` characters, of `width` columns, to the word.
    fn join_text(
        &mut self,
        text: &str,
        count: usize,
        width: usize,
        tag: &T,
        mode: WhiteSpace,
    ) -> Result<(), OutOfMemory>
        requires some { 0 < count }
        requires count { count ≡ length (chars text.now) }
        ensures joined { (columns : ℕ → Option ℕ) (a : T) → width ≡ width_of_text columns (chars text.now) →
            T.eq tag.now a ≡ true →
            WrapperFollows columns T.eq self.old self.new result (join_all (chars text.now) a mode) }
        ensures limits { KeepsLimits self.old.lines self.new.lines }
    {
        let Some(word_width) = self.word_width.checked_add(width) else {
            return Err(OutOfMemory);
        };
        let word_mode = self.mode_with(mode);
        self.lines.flat.push_text(text, count, tag)?;
        self.word_width = word_width;
        self.word_mode = word_mode;
        Ok(())
    }

    /// Begins a call whose text has `bytes` bytes. It has the continuation tag if the flag is on.
    pub fn begin_call(&mut self, bytes: usize)
        ensures begun { (columns : ℕ → Option ℕ) (before given : List (List (Item T))) (p : Progress T) →
            IsAtProgress columns T.eq self.old before given p →
            IsAtProgress columns T.eq self.new before given (step columns self.old.lines.width p call) }
        ensures limits { KeepsLimits self.old.lines self.new.lines }
    {
        self.lines.flat.make_room(bytes);
        let lines = bytes / self.lines.width;
        let _ = self.lines.ended.reserve(lines.min(MOST_AHEAD));
        self.in_continuation = self.continuation_flag;
    }

    /// Notes white space that collapses, after what the line has.
    fn collapse(&mut self, c: char, tag: &T) -> Result<(), OutOfMemory>
        requires is_break { is_break c ≡ true }
        ensures after_change { (columns : ℕ → Option ℕ) (a : T) → T.eq tag.now a ≡ true →
            WrapperFollows columns T.eq self.old self.new result (collapse c a) }
        ensures limits { KeepsLimits self.old.lines self.new.lines }
    {
        if c == ZERO_WIDTH_SPACE || self.space.is_some() || self.lines.line_width == 0 {
            return Ok(());
        }
        self.space = Some(Space {
            width: 1,
            tag: tag.clone()?,
            mode: WhiteSpace::Normal,
        });
        Ok(())
    }

    /// Ends the open line at a newline.
    fn newline(&mut self) -> Result<(), OutOfMemory>
        ensures ended { (columns : ℕ → Option ℕ) → WrapperFollows columns T.eq self.old self.new result newline }
        ensures limits { KeepsLimits self.old.lines self.new.lines }
    {
        self.lines.end_line()?;
        self.space = None;
        self.continuation_flag = false;
        self.in_continuation = false;
        Ok(())
    }

    /// Puts the spaces of a tab.
    fn tab(&mut self, tag: &T) -> Result<(), OutOfMemory>
        requires stands { (columns : ℕ → Option ℕ) × IsUnderWay columns T.eq self.old }
        ensures put { (columns : ℕ → Option ℕ) (a : T) → columns 32 ≡ Some 1 → T.eq tag.now a ≡ true →
            WrapperFollows columns T.eq self.old self.new result (tab self.old.lines.width a) }
        ensures limits { KeepsLimits self.old.lines self.new.lines }
    {
        let pending = self.pending_width();
        if pending < self.lines.width - self.lines.line_width {
            let column = self.lines.line_width + pending;
            return self.lines.put_tab(column, tag);
        }
        self.lines.end_if_character()?;
        self.lines.put_tab(0, tag)
    }

    /// Keeps white space, which waits for a word, or joins the word's characters.
    fn keep_space(
        &mut self,
        c: char,
        width: usize,
        tag: &T,
        mode: WhiteSpace,
    ) -> Result<(), OutOfMemory>
        ensures kept { (columns : ℕ → Option ℕ) (a : T) → columns c ≡ Some width → T.eq tag.now a ≡ true →
            WrapperFollows columns T.eq self.old self.new result (keep_space c a mode (Some width)) }
        ensures limits { KeepsLimits self.old.lines self.new.lines }
    {
        if self.lines.flat.has_word() {
            return self.join(c, width, tag, mode);
        }
        let Some(width) = self.pending_width().checked_add(width) else {
            return Err(OutOfMemory);
        };
        self.space = None;
        if width > 0 {
            let tag = tag.clone()?;
            self.space = Some(Space { width, tag, mode });
        }
        Ok(())
    }

    /// Whether the open line, the pending space, the word and `width` columns more pass a line's width.
    fn passes(&self, width: usize) -> bool
        ensures { (columns : ℕ → Option ℕ) → Wherever columns T.eq self.now (λ p.
            result ≡ passes columns self.now.lines.width width p) }
    {
        let room = self.lines.width - self.lines.line_width;
        let pending = self.pending_width();
        width > room || self.word_width > room - width || pending > room - width - self.word_width
    }

    /// Whether a character of `width` columns passes the line in `Pre`.
    fn begins_continuation(&self, width: usize, mode: WhiteSpace) -> bool
        ensures { (columns : ℕ → Option ℕ) → Wherever columns T.eq self.now (λ p.
            result ≡ (model.is_pre mode && passes columns self.now.lines.width width p)) }
    {
        match mode {
            WhiteSpace::Pre => self.passes(width),
            WhiteSpace::Normal | WhiteSpace::PreWrap => false,
        }
    }

    /// Keeps a character that takes space. In `Pre` the continuation tag begins where the character doesn't fit the
    /// line.
    fn keep_character(
        &mut self,
        c: char,
        width: usize,
        main_tag: &T,
        wrap_tag: &T,
        mode: WhiteSpace,
    ) -> Result<(), OutOfMemory>
        ensures kept { (columns : ℕ → Option ℕ) → columns c ≡ Some width →
            WrapperFollows columns T.eq self.old self.new result
            (keep_character columns self.old.lines.width c main_tag.now wrap_tag.now mode (Some width)) }
        ensures limits { KeepsLimits self.old.lines self.new.lines }
    {
        if self.begins_continuation(width, mode) {
            self.continuation_flag = true;
            self.in_continuation = true;
            return self.join(c, width, wrap_tag, mode);
        }
        let tag = self.call_tag(main_tag, wrap_tag);
        self.join(c, width, tag, mode)
    }

    /// Adds a character in a preserving mode, before which no word ends.
    fn preserve<W: CharWidth>(
        &mut self,
        c: char,
        main_tag: &T,
        wrap_tag: &T,
        mode: WhiteSpace,
    ) -> Result<(), Error>
        requires stands { IsUnderWay W.columns T.eq self.old }
        ensures preserved { WrapperFollows W.columns T.eq self.old self.new result
            (preserve W.columns self.old.lines.width c main_tag.now wrap_tag.now mode) }
        ensures wider { RefusesWider W.columns T.eq self.old result (λ p.
            (preserve W.columns self.old.lines.width c main_tag.now wrap_tag.now mode p).laid.done) }
        ensures limits { KeepsLimits self.old.lines self.new.lines }
    {
        if c == ZERO_WIDTH_SPACE {
            return Ok(());
        }
        if c == '\n' {
            self.flush_word::<W>()?;
            self.newline()?;
            return Ok(());
        }
        let tag = self.call_tag(main_tag, wrap_tag);
        if c == '\t' {
            self.flush_word::<W>()?;
            self.tab(tag)?;
            return Ok(());
        }
        let Some(width) = W::width(c) else {
            return Ok(());
        };
        if always_takes_space(c) {
            self.keep_character(c, width, main_tag, wrap_tag, mode)?;
            return Ok(());
        }
        self.keep_space(c, width, tag, mode)?;
        Ok(())
    }

    /// Adds a character where white space collapses.
    fn enter_normal<W: CharWidth>(&mut self, c: char, tag: &T) -> Result<(), Error>
        requires stands { IsUnderWay W.columns T.eq self.old }
        ensures entered { (a : T) → T.eq tag.now a ≡ true →
            WrapperFollows W.columns T.eq self.old self.new result (enter_normal W.columns self.old.lines.width c a) }
        ensures wider { (a : T) → RefusesWider W.columns T.eq self.old result (λ p.
            (enter_normal W.columns self.old.lines.width c a p).laid.done) }
        ensures limits { KeepsLimits self.old.lines self.new.lines }
    {
        if is_wordbreak_point(c) {
            self.break_word::<W>()?;
            self.collapse(c, tag)?;
            return Ok(());
        }
        if let Some(width) = W::width(c) {
            self.join(c, width, tag, WhiteSpace::Normal)?;
        }
        Ok(())
    }

    /// Adds a character of a run.
    fn add_char<W: CharWidth>(
        &mut self,
        c: char,
        main_tag: &T,
        wrap_tag: &T,
        mode: WhiteSpace,
    ) -> Result<(), Error>
        requires stands { IsUnderWay W.columns T.eq self.old }
        ensures entered { WrapperFollows W.columns T.eq self.old self.new result (λ p.
            enter W.columns self.old.lines.width p (character c main_tag.now wrap_tag.now mode)) }
        ensures wider { RefusesWider W.columns T.eq self.old result (λ p.
            (enter W.columns self.old.lines.width p (character c main_tag.now wrap_tag.now mode)).laid.done) }
        ensures limits { KeepsLimits self.old.lines self.new.lines }
    {
        match mode {
            WhiteSpace::Normal => {
                let tag = self.call_tag(main_tag, wrap_tag);
                self.enter_normal::<W>(c, tag)
            }
            WhiteSpace::Pre => self.preserve::<W>(c, main_tag, wrap_tag, mode),
            WhiteSpace::PreWrap => {
                if is_wordbreak_point(c) {
                    self.break_word::<W>()?;
                    return self.preserve::<W>(c, main_tag, wrap_tag, mode);
                }
                self.preserve::<W>(c, main_tag, wrap_tag, mode)
            }
        }
    }

    /// The columns that the open line has left after the pending space and the word. `None` where these don't fit it.
    fn room(&self) -> Option<usize>
        ensures { IfSome result (λ room. self.now.lines.line_width + (held_width self.now.space + (self.now.word_width
            + room)) ≡ self.now.lines.width) }
    {
        let room = self.lines.width - self.lines.line_width;
        let pending = self.pending_width();
        if self.word_width > room || pending > room - self.word_width {
            return None;
        }
        Some(room - self.word_width - pending)
    }

    /// How many columns of characters may join the word without a change of the tag. `None` where no character may.
    fn room_under_tag(&self, mode: WhiteSpace) -> Option<usize>
        ensures { IfSome result (λ room. KeepsTag self.now mode room) }
    {
        if !is_pre(mode) || self.continuation_flag && self.in_continuation {
            return Some(usize::MAX);
        }
        self.room()
    }

    /// Whether the spaces that a text begins with, or that come after its first character, join the word.
    fn joins_spaces(&self, text: &str, mode: WhiteSpace) -> bool
        ensures { result ≡ (model.is_pre mode
            && (has_character self.now.lines.flat.word || not (plain.begins_with_space text.now))) }
    {
        is_pre(mode) && (self.lines.flat.has_word() || !begins_with_space(text))
    }

    /// The characters at the beginning of a text that join the word under the tag of this call. They are plain ones, or
    /// if there are none, characters of any script, as many as there are. In `Pre` the spaces after a character of the
    /// word are plain.
    fn fitting_stretch<W: CharWidth>(&self, text: &str, mode: WhiteSpace) -> Stretch
        ensures stretch { IsStretch W.columns (model.is_pre mode) (has_character self.now.lines.flat.word) text.now
            result }
        ensures tag { 0 < result.count → KeepsTag self.now mode result.columns }
    {
        let Some(room) = self.room_under_tag(mode) else {
            return NO_STRETCH;
        };
        let count = plain_in_front::<W>(text, self.joins_spaces(text, mode), room);
        if count > 0 {
            return Stretch {
                bytes: count,
                count,
                columns: count,
            };
        }
        letters_in_front::<W>(text, room)
    }

    /// Adds `count` characters of a run, of `width` columns. No word ends there, and no continuation begins.
    fn add_stretch<W: CharWidth>(
        &mut self,
        text: &str,
        count: usize,
        width: usize,
        main_tag: &T,
        wrap_tag: &T,
        mode: WhiteSpace,
    ) -> Result<(), OutOfMemory>
        requires count { count ≡ length (chars text.now) }
        requires width { width ≡ width_of_text W.columns (chars text.now) }
        requires join { JoinInTurn W.columns (model.is_pre mode) (has_character self.old.lines.flat.word)
            (chars text.now) }
        requires tag { 0 < count → KeepsTag self.old mode width }
        ensures entered { WrapperFollows W.columns T.eq self.old self.new result (λ p.
            fold (enter W.columns self.old.lines.width) p
            (text_entries (chars text.now) main_tag.now wrap_tag.now mode)) }
        ensures limits { KeepsLimits self.old.lines self.new.lines }
    {
        if count == 0 {
            return Ok(());
        }
        let tag = self.call_tag(main_tag, wrap_tag);
        self.join_text(text, count, width, tag, mode)
    }

    /// How many bytes the first words of a text take, each with the space after it, and how many bytes were read. They
    /// are as many as fit the open line. Where there are none, the first word was read.
    fn fitting_words<W: CharWidth>(&self, text: &str, mode: WhiteSpace) -> (usize, usize)
        ensures within { result.0 ≤ length text.now }
        ensures mode { 0 < result.0 → mode ≡ Normal }
        ensures word { 0 < result.0 → has_character self.now.lines.flat.word ≡ false }
        ensures words { 0 < result.0 → AreWords W.columns (take result.0 text.now) }
        ensures room { 0 < result.0 → self.now.lines.line_width + (held_width self.now.space + (self.now.word_width
            + result.0)) ≤ self.now.lines.width + 1 }
        ensures read { result.0 ≡ 0 → ArePlain W.columns false (take result.1 text.now) }
    {
        if !is_normal(mode) || self.lines.flat.has_word() {
            return (0, 0);
        }
        match self.room() {
            Some(room) => words_in_front::<W>(text, room),
            None => (0, 0),
        }
    }

    /// Adds words, each with a space after it, to the open line. The last space waits.
    fn add_words<W: CharWidth>(
        &mut self,
        text: &str,
        main_tag: &T,
        wrap_tag: &T,
    ) -> Result<(), OutOfMemory>
        requires word { has_character self.old.lines.flat.word ≡ false }
        requires words { AreWords W.columns text.now }
        requires room { self.old.lines.line_width + (held_width self.old.space + (self.old.word_width
            + length text.now)) ≤ self.old.lines.width + 1 }
        ensures entered { WrapperFollows W.columns T.eq self.old self.new result (λ p.
            fold (enter W.columns self.old.lines.width) p
            (text_entries (chars text.now) main_tag.now wrap_tag.now Normal)) }
        ensures limits { KeepsLimits self.old.lines self.new.lines }
    {
        let tag = self.call_tag(main_tag, wrap_tag);
        let words = &text[..text.len() - 1];
        self.lay_with::<W>(words, words.len(), tag)?;
        self.collapse(' ', tag)
    }

    /// Puts the word, and a text of `count` characters of one column each after it, on the open line. They come after
    /// the pending space, where all fit.
    fn lay_with<W: CharWidth>(
        &mut self,
        text: &str,
        count: usize,
        tag: &T,
    ) -> Result<(), OutOfMemory>
        requires some { 0 < count }
        requires count { count ≡ length (chars text.now) }
        requires room { self.old.lines.line_width + (held_width self.old.space + (self.old.word_width + count)) ≤
            self.old.lines.width }
        ensures laid { (a : T) → count ≡ width_of_text W.columns (chars text.now) → T.eq tag.now a ≡ true →
            WrapperFollows W.columns T.eq self.old self.new result (λ p.
            lay_here W.columns (join_all (chars text.now) a Normal p)) }
        ensures limits { KeepsLimits self.old.lines self.new.lines }
    {
        let Some(width) = self.word_width.checked_add(count) else {
            return Err(OutOfMemory);
        };
        let word_mode = self.mode_with(WhiteSpace::Normal);
        self.place_pending::<W>()?;
        self.lines.place_with(text, count, width, tag)?;
        self.word_width = 0;
        self.word_mode = word_mode;
        self.continuation_flag = false;
        Ok(())
    }

    /// Whether pending white space is dropped if the word after it doesn't fit.
    fn drops_space(&self) -> bool
        ensures { IsTrue result ↔ DropsSpace self.now.space }
    {
        match &self.space {
            Some(space) => is_normal(space.mode),
            None => true,
        }
    }

    /// How many bytes the first words of a text take, each with the space after it. The first one, of which `read`
    /// characters are known, doesn't fit the open line, and a new line has room for all.
    fn moved_words<W: CharWidth>(&self, text: &str, mode: WhiteSpace, read: usize) -> usize
        requires { ArePlain W.columns false (take read text.now) }
        ensures within { result ≤ length text.now }
        ensures mode { 0 < result → mode ≡ Normal }
        ensures word { 0 < result → has_character self.now.lines.flat.word ≡ false }
        ensures moved { 0 < result → AreMoved W.columns self.now (take result text.now) }
    {
        if !is_normal(mode) || self.lines.flat.has_word() || !self.drops_space() {
            return 0;
        }
        let Some(room) = self.room() else {
            return 0;
        };
        if read <= room {
            return 0;
        }
        let (words, _) = words_in_front::<W>(text, self.lines.width - self.word_width);
        words
    }

    /// Adds words, each with a space after it, to a new line. The last space waits, and the one before them is dropped.
    fn move_words<W: CharWidth>(
        &mut self,
        text: &str,
        main_tag: &T,
        wrap_tag: &T,
    ) -> Result<(), OutOfMemory>
        requires stands { IsUnderWay W.columns T.eq self.old }
        requires word { has_character self.old.lines.flat.word ≡ false }
        requires moved { AreMoved W.columns self.old text.now }
        ensures entered { WrapperFollows W.columns T.eq self.old self.new result (λ p.
            fold (enter W.columns self.old.lines.width) p
            (text_entries (chars text.now) main_tag.now wrap_tag.now Normal)) }
        ensures limits { KeepsLimits self.old.lines self.new.lines }
    {
        self.space = None;
        self.lines.end_if_character()?;
        self.add_words::<W>(text, main_tag, wrap_tag)
    }

    /// Adds the beginning of a text to a run, and answers how many bytes and characters that is. It adds the first
    /// words, if they fit the open line or a new one. Otherwise it adds the characters that join the word under the tag
    /// of this call, and the character after them.
    pub fn add_front<W: CharWidth>(
        &mut self,
        text: &str,
        main_tag: &T,
        wrap_tag: &T,
        mode: WhiteSpace,
    ) -> Result<(usize, usize), Error>
        requires stands { IsUnderWay W.columns T.eq self.old }
        requires some { 0 < length text.now }
        ensures some { IfOk result (λ n. 0 < n.0) }
        ensures front { IfOk result (λ n. IsFront text.now n.0 n.1) }
        ensures entered { IfOk result (λ n. Enters W.columns T.eq self.old self.new
            (text_entries (chars (take n.0 text.now)) main_tag.now wrap_tag.now mode)) }
        ensures wider { RefusesWider W.columns T.eq self.old result (λ p.
            (fold (enter W.columns self.old.lines.width) p
            (text_entries (chars text.now) main_tag.now wrap_tag.now mode)).laid.done) }
        ensures limits { KeepsLimits self.old.lines self.new.lines }
    {
        let (words, read) = self.fitting_words::<W>(text, mode);
        if words > 0 {
            self.add_words::<W>(&text[..words], main_tag, wrap_tag)?;
            return Ok((words, words));
        }
        let moved = self.moved_words::<W>(text, mode, read);
        if moved > 0 {
            self.move_words::<W>(&text[..moved], main_tag, wrap_tag)?;
            return Ok((moved, moved));
        }
        let s = self.fitting_stretch::<W>(text, mode);
        let front = &text[..s.bytes];
        self.add_stretch::<W>(front, s.count, s.columns, main_tag, wrap_tag, mode)?;
        let Some(c) = text[s.bytes..].chars().next() else {
            return Ok((s.bytes, s.count));
        };
        self.add_char::<W>(c, main_tag, wrap_tag, mode)?;
        Ok((s.bytes + c.len_utf8(), s.count + 1))
    }

    /// Adds a marker to the word.
    pub fn add_marker(&mut self, name: String) -> Result<(), OutOfMemory>
        ensures added { (columns : ℕ → Option ℕ) → WrapperFollows columns T.eq self.old self.new result (λ p.
            enter columns self.old.lines.width p (marker_entry (string_bytes name))) }
        ensures limits { KeepsLimits self.old.lines self.new.lines }
    {
        self.lines.flat.push_marker(name)
    }

    /// Takes the markers out of a word that has no character.
    pub fn take_markers(&mut self) -> Result<Vec<TaggedLineElement<T>>, OutOfMemory>
        requires none { has_character self.old.lines.flat.word ≡ false }
        ensures markers { IfOk result (λ es.
            map element_of es.items ≡ map marker_element (names_in_items self.old.lines.flat.word)) }
        ensures taken { (columns : ℕ → Option ℕ) →
            WrapperFollows columns T.eq self.old self.new result (λ p. record p { word = [] }) }
        ensures limits { KeepsLimits self.old.lines self.new.lines }
    {
        self.lines.flat.take_markers()
    }

    /// Ends the run: lays the last word, ends the line, and drops the pending space. Markers that are on no ended
    /// line become the next run's word.
    pub fn finish<W: CharWidth>(&mut self) -> Result<(), Error>
        requires stands { IsUnderWay W.columns T.eq self.old }
        ensures finished { (before given : List (List (Item T))) (p : Progress T) →
            IsAtProgress W.columns T.eq self.old before given p →
            OnOk result (RunIsFinished W.columns T.eq self.old self.new before given p) }
        ensures wider { RefusesWider W.columns T.eq self.old result (λ p.
            (model.finished W.columns self.old.lines.width p).done) }
        ensures limits { KeepsLimits self.old.lines self.new.lines }
    {
        self.flush_word::<W>()?;
        self.lines.end_if_character()?;
        self.lines.flat.unplace(self.lines.line_len)?;
        self.lines.line_markers = 0;
        self.lines.line_len = 0;
        self.space = None;
        self.word_mode = WhiteSpace::Normal;
        self.continuation_flag = false;
        self.in_continuation = false;
        Ok(())
    }
}

/// Whether the mode is `Normal`.
fn is_normal(mode: WhiteSpace) -> bool
    ensures { IsTrue result ↔ (mode ≡ Normal) }
{
    match mode {
        WhiteSpace::Normal => true,
        WhiteSpace::Pre | WhiteSpace::PreWrap => false,
    }
}

/// Whether the mode is `Pre`.
fn is_pre(mode: WhiteSpace) -> bool
    ensures { result ≡ model.is_pre mode }
{
    match mode {
        WhiteSpace::Pre => true,
        WhiteSpace::Normal | WhiteSpace::PreWrap => false,
    }
}
