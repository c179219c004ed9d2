//! The calls of a renderer.
ghost use Rattle.std.specs.Prelude.{◌≡◌, ◌≢◌, ◌≤◌, ◌<◌, ℕ, suc, ◌^◌, Bool, true, List, length, Err, OnOk, OnErr, IfOk, IfErr, chars, []};
ghost use Rattle.std.specs.List.{AllByRecursion as Each};
ghost use Rattle.tbr_kept_lines.specs.Line.{Line};
ghost use Rattle.tbr_tagged.specs.Outcome.{Outcome, done};
ghost use Rattle.tbr_renderer.specs.Outcomes.{gathered};
ghost use Rattle.tbr_renderer.specs.Appended.{GivesFirst, texts_of};
ghost use Rattle.tbr_renderer.specs.Rows.{cells_given};
ghost use Rattle.tbr_renderer.specs.Calls.{CallsOf, IsLive, kept_in, IsWide, Leads, TakesNone, Takes, Answers, Fails, Leaves};
ghost use Rattle.tbr_tagged.specs.View.{chars_of};
ghost use Rattle.tbr_decor.specs.Start as start;
ghost use Rattle.tbr_decor.specs.End as end;
ghost use Rattle.tbr_decor.specs.Prefix as prefix;
ghost use Rattle.tbr_decor.specs.Ground as ground;
ghost use Rattle.tbr_tagged.specs.declared.Error.TheVariants as E;

use std::convert::AsStr;
use tbr_decor::Colour;
use tbr_model::WhiteSpace;
use tbr_tagged::{CellAlign, Error};

/// A writer of blocks of text, one below another.
///
/// A call that ends a word, or the open line, places words. It answers `TooNarrow` where a word has a character wider
/// than the block, and lines may not be wider. In blocks of two columns or more it never does. Calls answer
/// `OutOfMemory` where memory is refused or a size passes `usize`.
///
/// A call that ends the open line also ends its run, whether its own or that of a renderer that it takes. In `Normal`,
/// where no line may be wider than the block, no legal layout has then placed more after any number of lines. Clauses
/// `best` say so. Text that begins a block has none; there the law `the_headline` says it.
///
/// A call that refuses leaves the renderer failed. The renderer keeps that refusal: each later call that can refuse
/// answers it, and does nothing else. A call that can't refuse does nothing then. The four calls for prefixes and
/// `new_sub_renderer` neither leave the renderer failed nor look at a failure.
pub trait Renderer {
    // What its text is under, what a contract sees of it, and what each call makes of that.
    ghost Tag: { Type 0 };

    ghost State: { Type 0 };

    ghost calls: { CallsOf Self.Tag Self Self.State };

    // The lines that it hands out where its open line is ended.
    ghost handed_out: { Self → Outcome (List (Line Self.Tag)) };

    // What holds of one whose open line was ended: after any number of lines no legal layout of a `Normal` run has
    // placed more of it.
    ghost ends_best: { Self → Type 0 };

    // Whether a row of such renderers, each with a span, has a place for each cell that overhangs.
    ghost has_places_for: { Self → List (Self × ℕ) → Type 0 };

    // The text of a prefix, a renderer for a block inside, and whether there is neither a line nor text.
    ghost prefix_text: { Self → prefix.Prefix → List ℕ };

    ghost sub_renderer: { ℕ → Self.State → Self.State };

    ghost is_empty: { Self → Bool };

    /// Ends the open line, and adds an empty one.
    fn add_empty_line(&mut self) -> Result<(), Error>
        ensures answers { Answers calls calls.add_empty_line self.old result self.new }
        ensures best { OnOk result (ends_best self.old) };

    /// Ends the open line, if there is one.
    fn new_line(&mut self) -> Result<(), Error>
        ensures answers { Answers calls calls.new_line self.old result self.new }
        ensures best { OnOk result (ends_best self.old) };

    /// Ends the open line. Where no line is open, or it has no columns, an empty line is added.
    fn new_line_hard(&mut self) -> Result<(), Error>
        ensures answers { Answers calls calls.new_line_hard self.old result self.new }
        ensures best { OnOk result (ends_best self.old) };

    /// Begins a block: ends the open line, and adds an empty line if any line has content.
    fn start_block(&mut self) -> Result<(), Error>
        ensures answers { Answers calls calls.start_block self.old result self.new }
        ensures best { OnOk result (ends_best self.old) };

    /// Begins a table, as `start_block` begins a block.
    fn start_table(&mut self) -> Result<(), Error>
        ensures answers { Answers calls calls.start_block self.old result self.new }
        ensures best { OnOk result (ends_best self.old) };

    /// Ends a block: later text begins a new one, except white space in `Normal`, which is ignored. It takes no memory.
    fn end_block(&mut self)
        ensures { Leaves calls calls.end_block self.old self.new };

    /// Adds text to the open block, or to a new one, in the mode that was pushed last and under the annotations.
    fn add_inline_text(&mut self, text: &str) -> Result<(), Error>
        ensures answers { Answers calls (calls.add_inline_text (chars text.now)) self.old result self.new };

    /// Pushes a mode of white space. It refuses only where memory is refused.
    fn push_ws(&mut self, ws: WhiteSpace) -> Result<(), Error>
        ensures answers { Answers calls (calls.push_ws ws) self.old result self.new };

    /// Removes the mode that was pushed last, if there is one. It takes no memory.
    fn pop_ws(&mut self)
        ensures { Leaves calls calls.pop_ws self.old self.new };

    /// Begins a preformatted stretch. It refuses only where the depth passes `usize`.
    fn push_preformat(&mut self) -> Result<(), Error>
        ensures answers { Answers calls calls.push_preformat self.old result self.new }
        ensures passes { IsLive calls self.old → OnErr result (2 ^ 64 ≤ suc (kept_in calls self.old).preformatted) };

    /// Ends a preformatted stretch. It asks that one is open, and takes no memory.
    fn pop_preformat(&mut self)
        requires { 0 < (kept_in calls self.old).preformatted }
        ensures { Leaves calls calls.pop_preformat self.old self.new };

    /// Puts a marker where the next text begins. It opens a block if there is none, and refuses only where memory is
    /// refused.
    fn record_frag_start(&mut self, name: &str) -> Result<(), Error>
        ensures answers { Answers calls (calls.record_frag_start name.now) self.old result self.new };

    /// Begins a link: its annotation is added to the others, and the decorator's text is added under them.
    fn start_link(&mut self, target: &str) -> Result<(), Error>
        ensures answers { Answers calls (calls.begin (start.link (chars target.now))) self.old result self.new };

    /// Ends a link: the decorator's text is added, and then the last annotation is removed, if there is one.
    fn end_link(&mut self) -> Result<(), Error>
        ensures answers { Answers calls (calls.finish end.link) self.old result self.new };

    /// Begins emphasised text, as a link is begun.
    fn start_emphasis(&mut self) -> Result<(), Error>
        ensures answers { Answers calls (calls.begin start.emphasis) self.old result self.new };

    /// Ends emphasised text, as a link is ended.
    fn end_emphasis(&mut self) -> Result<(), Error>
        ensures answers { Answers calls (calls.finish end.emphasis) self.old result self.new };

    /// Begins strong text, as a link is begun.
    fn start_strong(&mut self) -> Result<(), Error>
        ensures answers { Answers calls (calls.begin start.strong) self.old result self.new };

    /// Ends strong text, as a link is ended.
    fn end_strong(&mut self) -> Result<(), Error>
        ensures answers { Answers calls (calls.finish end.strong) self.old result self.new };

    /// Begins code, as a link is begun.
    fn start_code(&mut self) -> Result<(), Error>
        ensures answers { Answers calls (calls.begin start.code) self.old result self.new };

    /// Ends code, as a link is ended.
    fn end_code(&mut self) -> Result<(), Error>
        ensures answers { Answers calls (calls.finish end.code) self.old result self.new };

    /// Begins a superscript, as a link is begun.
    fn start_superscript(&mut self) -> Result<(), Error>
        ensures answers { Answers calls (calls.begin start.superscript) self.old result self.new };

    /// Ends a superscript, as a link is ended.
    fn end_superscript(&mut self) -> Result<(), Error>
        ensures answers { Answers calls (calls.finish end.superscript) self.old result self.new };

    /// Begins a strikeout, as a link is begun. Text after the decorator's has one stroke more, if the options ask for
    /// strokes. It also answers `OutOfMemory` where the depth passes `usize`.
    fn start_strikeout(&mut self) -> Result<(), Error>
        ensures answers { Answers calls calls.start_strikeout self.old result self.new };

    /// Ends a strikeout, as a link is ended. The decorator's text already has one stroke less, if the options ask for
    /// strokes. In that case a strikeout must be open. Where the call refuses, the strikeout stays open.
    fn end_strikeout(&mut self) -> Result<(), Error>
        requires { let kept = kept_in calls self.old in
            kept.options.use_unicode_strikeout ≡ true → 0 < kept.strikeouts }
        ensures answers { Answers calls calls.end_strikeout self.old result self.new };

    /// Adds what the decorator shows for an image, under an annotation of its own. The options say what an image
    /// without a title shows.
    fn add_image(&mut self, src: &str, title: &str) -> Result<(), Error>
        ensures answers { Answers calls (calls.add_image (chars src.now) (chars title.now)) self.old result self.new };

    /// Ends the open line, and adds a border of the renderer's width under the annotations. Markers that wait keep
    /// waiting. Where lines are padded, the border becomes text.
    fn add_horizontal_border(&mut self) -> Result<(), Error>
        ensures answers { Answers calls (calls.add_border (kept_in calls self.old).width) self.old result self.new }
        ensures best { OnOk result (ends_best self.old) };

    /// Ends the open line, and adds a border of `width` columns, as `add_horizontal_border` does.
    fn add_horizontal_border_width(&mut self, width: usize) -> Result<(), Error>
        ensures answers { Answers calls (calls.add_border width) self.old result self.new }
        ensures best { OnOk result (ends_best self.old) };

    /// Ends the open line, and then that of another renderer, and adds the lines of that one, each after a prefix and
    /// under the annotations. A border becomes text.
    ///
    /// Each line gets one prefix. If there are fewer prefixes than lines, the lines that are left are dropped. A
    /// refusal of the other renderer is passed on.
    fn append_subrender<P: AsStr + Drop, I: Iterator<Item = P>>(
        &mut self,
        other: Self,
        prefixes: I,
    ) -> Result<(), Error>
        requires { I.can_next prefixes }
        ensures ok { OnOk result ((lines : List (Line Tag)) × (given : List P)
            × (handed_out other ≡ done lines) × GivesFirst I.next_gives (length lines) prefixes given
            × Leads calls (calls.append_subrender (texts_of P.text given) lines) self.old self.new) }
        ensures too_narrow { result ≡ Err E.TooNarrow → TakesNone calls (handed_out other) self.old }
        ensures two_columns { IsWide calls self.old → IsWide calls other → result ≢ Err E.TooNarrow }
        ensures fails { Fails calls self.old result self.new }
        ensures best { OnOk result (ends_best self.old × ends_best other) };

    /// Ends the open line, and adds the lines of other renderers, one below another, as `append_subrender` does without
    /// prefixes. Where borders are drawn, a border of slashes is added between two renderers, and a plain one after all
    /// of them, even if there are none. If some of them refuse, the first refusal is passed on.
    fn append_vert_row(&mut self, cols: Vec<Self>) -> Result<(), Error>
        ensures takes { Takes calls (gathered handed_out cols.items) (Each (IsWide calls) cols.items)
            calls.append_vert_row self.old result self.new }
        ensures best { OnOk result (ends_best self.old × Each ends_best cols.items) };

    /// Ends the open line, and then those of other renderers, in order. It adds a row of their lines, side by side and
    /// separated by `│`, or by spaces where borders aren't drawn. With each renderer the rows that it spans are given,
    /// at least one, and the alignment of its texts. The row must fit, as `row_fits` of `SubRenderer` tells.
    ///
    /// A border that is the last line is joined to the row, and where borders are drawn, one is added below. Lines of a
    /// cell that spans several rows overhang into the next rows. With `collapse`, borders at the top and at the bottom
    /// of cells are merged into the borders above and below. If some of the renderers refuse, the first refusal is
    /// passed on.
    fn append_columns_aligned(
        &mut self,
        cols: Vec<(Self, usize)>,
        aligns: &[CellAlign],
        collapse: bool,
    ) -> Result<(), Error>
        requires spans { Each (λ col. 0 < col.1) cols.items }
        requires aligns { length aligns.now ≡ length cols.items }
        requires fits { has_places_for self.old cols.items }
        ensures takes { let given = cells_given (λ r. (kept_in calls r).width) handed_out cols.items aligns.now in
            let wide = Each (λ col. IsWide calls col.0) cols.items in
            Takes calls given wide (calls.append_row collapse) self.old result self.new }
        ensures best { OnOk result (ends_best self.old × Each (λ col. ends_best col.0) cols.items) };

    /// Adds a row, as `append_columns_aligned` does, with all texts at the left.
    fn append_columns_with_borders(
        &mut self,
        cols: Vec<(Self, usize)>,
        collapse: bool,
    ) -> Result<(), Error>
        requires spans { Each (λ col. 0 < col.1) cols.items }
        requires fits { has_places_for self.old cols.items }
        ensures takes { let given = cells_given (λ r. (kept_in calls r).width) handed_out cols.items [] in
            let wide = Each (λ col. IsWide calls col.0) cols.items in
            Takes calls given wide (calls.append_row collapse) self.old result self.new }
        ensures best { OnOk result (ends_best self.old × Each (λ col. ends_best col.0) cols.items) };

    /// Begins text in a colour, whose annotation is added to the others, if the decorator has one. The only refusal of
    /// its own is `OutOfMemory`.
    fn push_colour(&mut self, colour: Colour) -> Result<(), Error>
        ensures answers { Answers calls (calls.push_colour ground.text colour) self.old result self.new };

    /// Ends text in a colour: if the decorator says so, the last annotation is removed, if there is one. It takes no
    /// memory.
    fn pop_colour(&mut self)
        ensures { Leaves calls (calls.pop_colour ground.text) self.old self.new };

    /// Begins a background in a colour, as text in a colour is begun.
    fn push_bgcolour(&mut self, colour: Colour) -> Result<(), Error>
        ensures answers { Answers calls (calls.push_colour ground.background colour) self.old result self.new };

    /// Ends a background in a colour, as text in a colour is ended.
    fn pop_bgcolour(&mut self)
        ensures { Leaves calls (calls.pop_colour ground.background) self.old self.new };

    /// The text before each line of a header of the given level. Its only refusal is `OutOfMemory`, also on a renderer
    /// that has failed, and it changes nothing. This holds for the other calls for prefixes too.
    fn header_prefix(&mut self, level: usize) -> Result<String, Error>
        ensures text { IfOk result (λ text. chars_of text ≡ prefix_text self.old (prefix.header level)) }
        ensures memory { IfErr result (λ e. e ≡ E.OutOfMemory) }
        ensures unchanged { self.new ≡ self.old };

    /// The text before each line of a quoted block.
    fn quote_prefix(&mut self) -> Result<String, Error>
        ensures text { IfOk result (λ text. chars_of text ≡ prefix_text self.old prefix.quote) }
        ensures memory { IfErr result (λ e. e ≡ E.OutOfMemory) }
        ensures unchanged { self.new ≡ self.old };

    /// The text before an item of a list.
    fn unordered_item_prefix(&mut self) -> Result<String, Error>
        ensures text { IfOk result (λ text. chars_of text ≡ prefix_text self.old prefix.unordered_item) }
        ensures memory { IfErr result (λ e. e ≡ E.OutOfMemory) }
        ensures unchanged { self.new ≡ self.old };

    /// The text before the item of a list that has the number `i`.
    fn ordered_item_prefix(&mut self, i: i64) -> Result<String, Error>
        ensures text { IfOk result (λ text. chars_of text ≡ prefix_text self.old (prefix.ordered_item i)) }
        ensures memory { IfErr result (λ e. e ≡ E.OutOfMemory) }
        ensures unchanged { self.new ≡ self.old };

    /// An empty renderer for a block inside, of a width in columns, at least 1. It has the same options and
    /// annotations, and a decorator that this renderer's own makes for it. Its only refusal is `OutOfMemory`, also on a
    /// renderer that has failed.
    fn new_sub_renderer(&self, width: usize) -> Result<Self, Error>
        requires { 0 < width }
        ensures sub { IfOk result (λ sub. calls.state sub ≡ sub_renderer width (calls.state self.now)) }
        ensures memory { IfErr result (λ e. e ≡ E.OutOfMemory) };

    /// The columns of the renderer.
    fn width(&self) -> usize
        ensures { result ≡ (kept_in calls self.now).width };

    /// Whether it has no line, and its open block, if any, is empty. It is false on a renderer that has failed.
    fn empty(&self) -> bool
        ensures { result ≡ is_empty self.now };
}
