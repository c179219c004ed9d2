//! What the repository promises first, in one place.
ghost use Rattle.std.specs.Prelude.{◌≡◌, ℕ, Option, List};
ghost use Rattle.tbr_tagged.specs.Outcome.{done};
ghost use Rattle.tbr_decor.specs.Decoration.{Decoration};
ghost use Rattle.tbr_renderer.specs.Renderer.{Renderer, IsSound};
ghost use Rattle.tbr_renderer.specs.Outcomes.{run};
ghost use Rattle.text_block_renderer.specs.Acts.{Act, after_act};
ghost use Rattle.text_block_renderer.specs.Headline.{Headline};

/// For all calls, rows of cells and footnotes that succeed on a renderer:
///
/// - A run is what is between one flush and the next: each call and row ends the run that is open, or none. Besides
///   runs, calls add the texts that they lay, such as empty lines, and their borders, each in its place. Footnotes add
///   their lines, before those of an open run.
/// - After any number of lines no legal layout of a `Normal` run has placed more of it than the renderer has.
/// - Each run's visible characters are in the renderer's lines once, in order, under equal annotations.
/// - Each cell of a row shows its texts once, in order, in its own columns, also in the borders that it spans.
/// - Wrapping at two columns or more never answers `TooNarrow`.
///
/// Legal layouts are compared where no line may be wider than the block: overflow isn't allowed, or the block has two
/// columns or more. The promise of cells holds where no cell overhung at first, the lines of all cells fit, and all
/// rows that these span are added. A text in front of a border, as a row leaves it below a spanning cell, is one of the
/// texts. The last promise holds for characters that take at most two columns.
pub fn the_headline<D, A>()
    ensures { (columns : ℕ → Option ℕ) (decoration : Decoration D A) (acts : List (Act A))
        (r s : Renderer D A (List A)) → IsSound columns r → run (after_act columns decoration) acts r ≡ done s →
        Headline columns decoration acts r s }
{}
