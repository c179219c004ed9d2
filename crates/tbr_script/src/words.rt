//! The words of a line.
ghost use Rattle.std.specs.Prelude.{◌≡◌, ◌∷◌, [], MatchOption};
ghost use Rattle.tbr_script.specs.Script.{words_of};

use std::marker::Model;

/// The words of a line that are left, with exactly one space between two.
#[derive(Drop)]
pub struct Words<'a> {
    rest: Option<&'a str>,
}

impl<'a> Model for Words<'a> {
    ghost use Rattle.std.specs.Prelude.{ℕ, List};
    ghost use Rattle.tbr_script.specs.Script.{words_after};

    ghost Value = { List (List ℕ) };

    ghost view = { λ words. words_after words.rest };
}

impl<'a> Words<'a> {
    /// The words of a line, at least one.
    pub fn of(line: &'a str) -> Words<'a>
        ensures { result ≡ words_of line.now }
    {
        Words { rest: Some(line) }
    }

    /// Takes the next word, if there is one.
    pub fn next(&mut self) -> Option<&'a str>
        ensures { MatchOption result ((self.old ≡ []) × (self.new ≡ [])) (λ word. self.old ≡ word.now ∷ self.new) }
    {
        let text = self.rest?;
        let Some((word, rest)) = text.split_once(' ') else {
            self.rest = None;
            return Some(text);
        };
        self.rest = Some(rest);
        Some(word)
    }
}
