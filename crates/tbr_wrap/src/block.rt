//! A block of wrapped text.
ghost use Rattle.std.specs.Prelude.{◌≡◌, ◌≢◌, ℕ, ◌≤◌, ◌<◌, ◌++◌, ◌∷◌, [], not, ◌&&◌, nat_lt, is_none, is_some, if◌then◌else◌, None, Some, List, OnOk, IfOk, IfErr, IsErr, IsSomeAnd};
ghost use Rattle.std.specs.Prelude.{MatchResult, Err, Ok, true, chars, string_bytes, length, map, drop, IsTrue};
ghost use Rattle.std.specs.List.{AllZip};
ghost use Rattle.std.specs.Str.{IsUtf8};
ghost use Rattle.tbr_model.specs.Run.{Item};
ghost use Rattle.tbr_model.specs.Rule.{call, entry, run_of};
ghost use Rattle.tbr_tagged.specs.Elements.{items_of, SameItems, IsMerged};
ghost use Rattle.tbr_wrap.specs.Wrapped.{HasBestLines, ShowsText, padding_of};
ghost use Rattle.tbr_wrap.specs.Runs.{text_entries};
ghost use Rattle.tbr_tagged.specs.declared.error.Error.TheVariants as E;

use crate::ended_lines::EndedLines;
use crate::run_change::{RunChange, RunHistory, note_text, with_marker};
use crate::wrapper::Wrapper;
use std::alloc::Global;
use std::marker::{Model, PhantomData};
use tbr_model::{CharWidth, History, WhiteSpace};
use tbr_tagged::{Error, OutOfMemory, TaggedLine, TaggedLineElement, UnicodeColumns};
use tbr_tags::Tag;

/// Text under tags that is wrapped into lines of a width in columns.
///
/// The text between two flushes is a run: [`add_text`](WrappedBlock::add_text) adds to it, and
/// [`flush`](WrappedBlock::flush) ends it. The lines of a `Normal` run, where none may be wider than the block, are
/// those of the best layout. After any number of lines no legal layout has placed more of the run.
///
/// A call that refuses leaves the block failed. The block keeps that refusal: each later call that can refuse answers
/// it, and does nothing else. A contract sees what [`Block`] lists, and says by an equation what each call makes of it.
///
/// The memory of text that was handed out, and of its tags, is freed as more is handed out.
#[derive(Drop)]
pub struct WrappedBlock<T: Eq + Clone, W: CharWidth = UnicodeColumns> {
    alloc: Global,
    wrapper: Box<Wrapper<T>>,
    /// The tag of the padding.
    default_tag: T,
    /// Whether lines are padded.
    pads: bool,
    failure: Option<Error>,
    /// Whether a line was handed out.
    begun: bool,
    changes: RunHistory<T>,
    char_width: PhantomData<W>,
}

impl<T: Eq + Clone, W: CharWidth> Model for WrappedBlock<T, W> {
    ghost use Rattle.tbr_wrap.specs.Block.{Block};

    ghost Value = { Block T };

    ghost use Rattle.tbr_wrap.specs.Held.{block_of, HoldsBlock};

    ghost view = { λ b. block_of W.columns b };

    ghost invariant = { λ b. HoldsBlock W.columns T.eq b };
}

impl<T: Tag, W: CharWidth> WrappedBlock<T, W> {
    ghost use Rattle.tbr_model.specs.Run.{marker_entry};
    ghost use Rattle.tbr_tagged.specs.Elements.{marker_element};
    ghost use Rattle.tbr_tagged.specs.View.{element_of};
    ghost use Rattle.tbr_tagged.specs.Outcome.{Answers, done, refused};
    ghost use Rattle.tbr_wrap.specs.Block.{Block, new_block, settings_of, failure_of, lines, all_lines, left, any_line, takes_no_columns, has_no_character, loose, allows, grown, settled};
    ghost use Rattle.tbr_wrap.specs.Block.{HasGrown, after_text, after_marker, after_taking, after_flush, after_line, line_handed_out, HandsOutFirst, WrapsNormally};

    /// A block without text. Its lines take at most `width` columns, which must be at least 1. It refuses only where memory
    /// is refused.
    ///
    /// With `pad_blocks` each line that is handed out is padded to the width by spaces under the default tag. In a
    /// block of one column a character of two columns is refused; with `allow_overflow` it goes on a line of its own
    /// instead.
    pub fn new(
        alloc: Global,
        width: usize,
        pad_blocks: bool,
        allow_overflow: bool,
        default_tag: T,
    ) -> Result<WrappedBlock<T, W>, OutOfMemory>
        requires { 0 < width }
        ensures { let padding = if pad_blocks then Some default_tag else None in
            IfOk result (λ b. b ≡ new_block width (allow_overflow && nat_lt width 2) padding) }
    {
        let wrapper = Wrapper::new(alloc, width, allow_overflow && width < 2);
        Ok(WrappedBlock {
            alloc,
            wrapper: Box::new(alloc, wrapper)?,
            default_tag,
            pads: pad_blocks,
            failure: None,
            begun: false,
            changes: History::new(),
            char_width: PhantomData,
        })
    }

    /// The kept refusal, if a call has refused.
    pub fn failure(&self) -> Option<Error>
        ensures { result ≡ self.now.failure }
    {
        self.failure
    }

    /// Whether lines are padded.
    pub fn pads(&self) -> bool
        ensures { result ≡ is_some self.now.padding }
    {
        self.pads
    }

    /// Whether the open line and the word take no columns. In a `Normal` run, where no line may be wider than the
    /// block, this holds exactly if no kept character of the run takes any. It is false on a block that has failed.
    pub fn at_line_start(&self) -> bool
        ensures { result ≡ is_none self.now.failure && takes_no_columns W.columns self.now }
    {
        self.failure.is_none() && self.has_no_columns()
    }

    /// Whether no line has ended yet, and the open line and the word take no columns. It is false on a block that has
    /// failed.
    pub fn is_empty(&self) -> bool
        ensures { result ≡ is_none self.now.failure
            && (not (any_line W.columns self.now) && takes_no_columns W.columns self.now) }
    {
        self.failure.is_none() && !self.has_begun() && self.has_no_columns()
    }

    /// Whether no line has ended yet, and the open line and the word have no character. In a `Normal` run, where no
    /// line may be wider than the block, they have none exactly if the run has no kept character. It is false on a
    /// block that has failed.
    pub fn is_blank(&self) -> bool
        ensures { result ≡ is_none self.now.failure
            && (not (any_line W.columns self.now) && has_no_character W.columns self.now) }
    {
        self.failure.is_none() && !self.has_begun() && self.has_no_character()
    }

    /// Whether the open line and the word take no columns.
    fn has_no_columns(&self) -> bool
        requires { self.now.failure ≡ None }
        ensures { result ≡ takes_no_columns W.columns self.now }
    {
        self.wrapper.lines.line_width == 0 && self.wrapper.word_width == 0
    }

    /// Whether the open line and the word have no character.
    fn has_no_character(&self) -> bool
        requires { self.now.failure ≡ None }
        ensures { result ≡ has_no_character W.columns self.now }
    {
        !self.wrapper.lines.has_line() && !self.wrapper.lines.flat.has_word()
    }

    /// Whether a line has ended.
    fn has_begun(&self) -> bool
        requires { self.now.failure ≡ None }
        ensures { result ≡ any_line W.columns self.now }
    {
        self.begun || !self.wrapper.lines.ended.is_empty()
    }

    /// Answers the kept refusal, if there is one.
    fn refusal(&self) -> Result<(), Error>
        ensures { MatchResult result (λ _. self.now.failure ≡ None) (λ e. self.now.failure ≡ Some e) }
    {
        match self.failure {
            Some(e) => Err(e),
            None => Ok(()),
        }
    }

    /// Begins a call whose text has `bytes` bytes.
    fn begin_call(&mut self, bytes: usize)
        requires { self.old.failure ≡ None }
        ensures begun { self.new ≡ grown self.old (call ∷ []) }
        ensures allowed { allows W.columns self.new (lines W.columns self.new) ≡ true }
    {
        self.wrapper.begin_call(bytes);
        self.changes = self
            .changes
            .appended(&RunChange::Called, &self.default_tag, &self.default_tag);
    }

    /// Adds the beginning of a text to the run, as much as can be added at once, and answers what is left.
    fn add_front<'a>(
        &mut self,
        text: &'a str,
        mode: WhiteSpace,
        main_tag: &T,
        wrap_tag: &T,
    ) -> Result<&'a str, Error>
        requires unfailed { self.old.failure ≡ None }
        requires some { 0 < length text.now }
        ensures ok { IfOk result (λ rest.
            HasGrown self.old [] text.now rest.now main_tag.now wrap_tag.now mode self.new) }
        ensures rest { IfOk result (λ rest. IsUtf8 rest.now × (length rest.now < length text.now)) }
        ensures failed { IfErr result (λ e. self.new.failure ≡ Some e) }
        ensures settings { settings_of self.new ≡ settings_of self.old }
        ensures too_narrow { result ≡ Err E.TooNarrow → settled W.columns
            (grown self.old (map entry (text_entries (chars text.now) main_tag.now wrap_tag.now mode)))
            ≡ refused E.TooNarrow }
        ensures allowed { OnOk result (allows W.columns self.new (lines W.columns self.new) ≡ true) }
    {
        let added = self.wrapper.add_front::<W>(text, main_tag, wrap_tag, mode);
        let (bytes, count) = keep(&mut self.failure, added)?;
        let (front, rest) = text.split_at(bytes);
        note_text(&mut self.changes, front, count, main_tag, wrap_tag, mode);
        Ok(rest)
    }

    /// Adds text to the run, in the given mode. Each character is under a copy of the main tag, or of the wrap tag
    /// where its hard line continues after a full line.
    ///
    /// A word that ends is placed. It never answers `TooNarrow` in two columns or more, nor where lines may be wider.
    /// In a `Normal` run it does exactly where a break point of the text ends a word of the run that has a character
    /// wider than the block. In any other run it does only where the run has such a character. It answers `OutOfMemory`
    /// only where memory is refused.
    pub fn add_text(
        &mut self,
        text: &str,
        ws_mode: WhiteSpace,
        main_tag: &T,
        wrap_tag: &T,
    ) -> Result<(), Error>
        ensures answers { let after = after_text W.columns (chars text.now) main_tag.now wrap_tag.now ws_mode in
            Answers failure_of settings_of (after self.old) self.old result self.new }
        ensures two_columns { self.old.failure ≡ None → 2 ≤ self.old.width → result ≢ Err E.TooNarrow }
    {
        self.add_whole(text, ws_mode, main_tag, wrap_tag)
    }

    /// Adds a text to the run, as much of it at once as possible.
    fn add_whole(
        &mut self,
        text: &str,
        ws_mode: WhiteSpace,
        main_tag: &T,
        wrap_tag: &T,
    ) -> Result<(), Error>
        ensures answers { let after = after_text W.columns (chars text.now) main_tag.now wrap_tag.now ws_mode in
            Answers failure_of settings_of (after self.old) self.old result self.new }
    {
        self.refusal()?;
        self.begin_call(text.len());
        let mut rest = text;
        while !rest.is_empty() {
            rest = self.add_front(rest, ws_mode, main_tag, wrap_tag)?;
        }
        Ok(())
    }

    /// Adds the empty text, as [`add_text`](WrappedBlock::add_text) does, under any tags. It takes no memory.
    pub fn add_empty_text(&mut self) -> Result<(), Error>
        ensures answers { (a b : T) (mode : _) → let after = after_text W.columns [] a b mode in
            Answers failure_of settings_of (after self.old) self.old result self.new }
    {
        self.refusal()?;
        self.begin_call(0);
        Ok(())
    }

    /// Adds a marker to the current word. The element must be a marker, not text.
    ///
    /// It refuses only where memory is refused.
    pub fn add_element(&mut self, element: TaggedLineElement<T>) -> Result<(), Error>
        requires { (name : List ℕ) × (element_of element ≡ marker_element name) }
        ensures answers { (name : List ℕ) → element_of element ≡ marker_element name →
            Answers failure_of settings_of (after_marker name self.old) self.old result self.new }
        ensures memory { self.old.failure ≡ None → IfErr result (λ e. e ≡ E.OutOfMemory) }
    {
        self.refusal()?;
        match element {
            TaggedLineElement::FragmentStart(name) => self.add_marker(name),
            TaggedLineElement::Str(_) => Ok(()),
        }
    }

    /// Adds a marker to the run.
    fn add_marker(&mut self, name: String) -> Result<(), Error>
        requires { self.old.failure ≡ None }
        ensures ok { OnOk result (self.new ≡ grown self.old (entry (marker_entry (string_bytes name)) ∷ [])) }
        ensures failed { IfErr result (λ e. (e ≡ E.OutOfMemory) × (self.new.failure ≡ Some e)) }
        ensures settings { settings_of self.new ≡ settings_of self.old }
    {
        let (changes, name) = with_marker(&self.changes, name, &self.default_tag);
        let added = self.wrapper.add_marker(name);
        keep_want(&mut self.failure, added)?;
        self.changes = changes;
        Ok(())
    }

    /// Takes the markers of the current word out of the run, in order, if that word has no character. Otherwise it
    /// takes none. After a [`flush`](WrappedBlock::flush) these are the markers that are on no ended line.
    ///
    /// It refuses only where memory is refused.
    pub fn take_trailing_fragments(&mut self) -> Result<Vec<TaggedLineElement<T>>, Error>
        ensures answers { Answers failure_of settings_of (after_taking W.columns self.old) self.old result self.new }
        ensures markers { IfOk result (λ es. map element_of es.items ≡ map marker_element (loose W.columns self.old)) }
        ensures memory { self.old.failure ≡ None → IfErr result (λ e. e ≡ E.OutOfMemory) }
    {
        self.refusal()?;
        if self.wrapper.lines.flat.has_word() {
            return Ok(Vec::new(self.alloc));
        }
        let taken = self.wrapper.take_markers();
        let markers = keep_want(&mut self.failure, taken)?;
        self.changes = self
            .changes
            .appended(&RunChange::Taken, &self.default_tag, &self.default_tag);
        Ok(markers)
    }

    /// Ends the run. Its last word is placed, and its lines are added to the ended ones. Markers that are on none of
    /// them begin the next run; [`take_trailing_fragments`](WrappedBlock::take_trailing_fragments) takes them.
    ///
    /// It never answers `TooNarrow` in two columns or more, nor where lines may be wider. In a `Normal` run it does
    /// exactly where a word of the run has a character wider than the block. In any other run it does only where the
    /// run has such a character, and always where that is visible. It answers `OutOfMemory` only where memory is
    /// refused. Where the open line and the word have no character, no line ends.
    pub fn flush(&mut self) -> Result<(), Error>
        ensures answers { Answers failure_of settings_of (after_flush W.columns self.old) self.old result self.new }
        ensures best { let run = run_of self.old.events in WrapsNormally self.old →
            OnOk result (HasBestLines W.columns self.old.width run (all_lines W.columns self.old)) }
        ensures two_columns { self.old.failure ≡ None → 2 ≤ self.old.width → result ≢ Err E.TooNarrow }
    {
        self.end_run()
    }

    /// Ends the run.
    fn end_run(&mut self) -> Result<(), Error>
        ensures answers { Answers failure_of settings_of (after_flush W.columns self.old) self.old result self.new }
        ensures best { let run = run_of self.old.events in WrapsNormally self.old →
            OnOk result (HasBestLines W.columns self.old.width run (all_lines W.columns self.old)) }
    {
        self.refusal()?;
        keep(&mut self.failure, self.wrapper.finish::<W>())?;
        self.changes = self
            .changes
            .appended(&RunChange::Ended, &self.default_tag, &self.default_tag);
        Ok(())
    }

    /// Hands out the first ended line that isn't handed out yet, if there is one. It doesn't flush.
    ///
    /// It refuses only where memory is refused, and then the block has failed.
    pub fn next_line(&mut self) -> Result<Option<TaggedLine<T>>, Error>
        ensures answers { Answers failure_of settings_of (after_line W.columns self.old) self.old result self.new }
        ensures line { IfOk result (HandsOutFirst W.columns T.eq self.old (left W.columns self.old)) }
        ensures memory { self.old.failure ≡ None → IfErr result (λ e. e ≡ E.OutOfMemory) }
    {
        self.refusal()?;
        let Some(mut line) = self.take_line()? else {
            return Ok(None);
        };
        let padded = self.pad(&mut line);
        keep_want(&mut self.failure, padded)?;
        Ok(Some(line))
    }

    /// Hands out the first ended line, as it is without padding.
    fn take_line(&mut self) -> Result<Option<TaggedLine<T>>, Error>
        requires unfailed { self.old.failure ≡ None }
        ensures some { (text : List (Item T)) (rest : List (List (Item T))) → left W.columns self.old ≡ text ∷ rest →
            IfOk result (λ o. IsSomeAnd o (λ line. SameItems T.eq (items_of line) text)) }
        ensures merged { IfOk result (λ o. (line : TaggedLine T) → o ≡ Some line → IsMerged T.eq line) }
        ensures taken { IfOk result (λ o. IsTrue (is_some o) → self.new ≡ line_handed_out self.old) }
        ensures none { left W.columns self.old ≡ [] → (result ≡ Ok None) × (self.new ≡ self.old) }
        ensures failed { IfErr result (λ e. (e ≡ E.OutOfMemory) × (self.new.failure ≡ Some e)) }
        ensures settings { settings_of self.new ≡ settings_of self.old }
    {
        let taken = self.wrapper.lines.take_line();
        let Some(line) = keep_want(&mut self.failure, taken)? else {
            return Ok(None);
        };
        self.begun = true;
        self.changes = self.changes.appended(
            &RunChange::HandedOut,
            &self.default_tag,
            &self.default_tag,
        );
        Ok(Some(line))
    }

    /// Fills a line with spaces, where lines are padded.
    fn pad(&self, line: &mut TaggedLine<T>) -> Result<(), OutOfMemory>
        ensures items { OnOk result (SameItems T.eq (items_of line.new)
            (items_of line.old ++ padding_of W.columns self.now.padding self.now.width (items_of line.old))) }
        ensures merged { IsMerged T.eq line.old → OnOk result (IsMerged T.eq line.new) }
    {
        if !self.pads {
            return Ok(());
        }
        line.pad_to::<W>(self.wrapper.lines.width, &self.default_tag)
    }

    /// Ends the run, and hands out all lines that aren't handed out yet. After any number of lines of a `Normal` run,
    /// where none may be wider than the block, no legal layout has placed more of it.
    ///
    /// It refuses as [`flush`](WrappedBlock::flush) does, and where memory is refused.
    pub fn into_lines(mut self) -> Result<Vec<TaggedLine<T>>, Error>
        ensures gives { IfOk result (λ lines. (s : Block T) × (after_flush W.columns self ≡ done s)
            × AllZip (ShowsText W.columns T.eq self.padding self.width) lines.items s.ended) }
        ensures best { let run = run_of self.events in WrapsNormally self →
            OnOk result (HasBestLines W.columns self.width run (all_lines W.columns self)) }
        ensures refuses { result ≡ Err E.TooNarrow → after_flush W.columns self ≡ refused E.TooNarrow }
        ensures two_columns { self.failure ≡ None → 2 ≤ self.width → result ≢ Err E.TooNarrow }
        ensures kept { (e : _) → self.failure ≡ Some e → result ≡ Err e }
    {
        self.flush()?;
        self.hand_out()
    }

    /// How many lines have ended and aren't handed out yet. The block must not have failed.
    pub fn lines_left(&self) -> usize
        requires { self.now.failure ≡ None }
        ensures { result ≡ length (left W.columns self.now) }
    {
        self.wrapper.lines.ended.len()
    }

    /// Hands out all ended lines that aren't handed out yet, in the block's one text and without padding. It takes no
    /// memory.
    ///
    /// The block must not have failed, and the open line and the word must have no character, as after a
    /// [`flush`](WrappedBlock::flush). The lines of the run that this ended are the last ones. After any number of lines
    /// of a `Normal` run, where none may be wider than the block, no legal layout has placed more of it.
    pub fn into_ended(self) -> EndedLines<T>
        requires unfailed { self.failure ≡ None }
        requires ended { has_no_character W.columns self ≡ true }
        ensures gives { AllZip (SameItems T.eq) result (left W.columns self) }
        ensures best { (before : Block T) → after_flush W.columns before ≡ done self → WrapsNormally before →
            let texts = all_lines W.columns before in HasBestLines W.columns before.width (run_of before.events) texts
            × AllZip (SameItems T.eq) result (before.ended ++ drop before.handed texts) }
    {
        EndedLines::new(self.wrapper)
    }

    /// Hands out all ended lines that aren't handed out yet.
    fn hand_out(&mut self) -> Result<Vec<TaggedLine<T>>, Error>
        requires live { self.old.failure ≡ None }
        ensures lines { IfOk result (λ lines.
            AllZip (ShowsText W.columns T.eq self.old.padding self.old.width) lines.items (left W.columns self.old)) }
        ensures memory { IfErr result (λ e. e ≡ E.OutOfMemory) }
    {
        let mut lines = Vec::new(self.alloc);
        while let Some(line) = self.next_line()? {
            lines.push(line)?;
        }
        Ok(lines)
    }
}

/// Keeps a refusal.
fn keep<R>(failure: &mut Option<Error>, done: Result<R, Error>) -> Result<R, Error>
    ensures ok { IfOk result (λ r. (done ≡ Ok r) × (failure.new ≡ failure.old)) }
    ensures failed { IfErr result (λ e. (done ≡ Err e) × (failure.new ≡ Some e)) }
{
    if let Err(e) = &done {
        *failure = Some(*e);
    }
    done
}

/// Keeps that memory was refused.
fn keep_want<R>(failure: &mut Option<Error>, done: Result<R, OutOfMemory>) -> Result<R, Error>
    ensures ok { IfOk result (λ r. (done ≡ Ok r) × (failure.new ≡ failure.old)) }
    ensures failed { IfErr result (λ e. IsErr done × (e ≡ E.OutOfMemory) × (failure.new ≡ Some e)) }
{
    match done {
        Ok(r) => Ok(r),
        Err(OutOfMemory) => {
            *failure = Some(Error::OutOfMemory);
            Err(Error::OutOfMemory)
        }
    }
}
