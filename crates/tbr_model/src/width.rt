//! How many columns a character takes.
ghost use Rattle.std.specs.Prelude.{◌≡◌, ◌≤◌, ℕ, Option, Some, IfSome, IsTrue};
ghost use Rattle.tbr_model.specs.Width.{takes_one_column, stroke};

/// How many columns a character takes: none, 0, 1 or 2.
///
/// The space, the slash and the characters that borders are drawn with take one column, and the stroke U+0336 takes
/// none. An instance proves these laws of its answers. All else is its own choice.
pub trait CharWidth {
    ghost columns: { ℕ → Option ℕ };

    /// The columns of a character, or `None` where it has no width.
    fn width(c: char) -> Option<usize>
        ensures { result ≡ columns c };

    ghost at_most_two: { (c : ℕ) → IfSome (columns c) (λ n. n ≤ 2) };

    ghost drawn_in_one: { (c : ℕ) → IsTrue (takes_one_column c) → columns c ≡ Some 1 };

    ghost stroke_takes_none: { columns stroke ≡ Some 0 };
}
