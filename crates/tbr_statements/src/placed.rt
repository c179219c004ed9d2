//! Words of a line, and where they are.
ghost use Rattle.std.specs.Prelude.{◌≡◌, ◌+◌, ◌∷◌, [], MatchOption, IfSome, length, chars};
ghost use Rattle.tbr_script.specs.Script.{words_of};
ghost use Rattle.tbr_statements.specs.Level.{held};

use tbr_script::Words;

/// The words of a line that are left, with the character of the line where each begins. Exactly one space is between
/// two.
#[derive(Drop)]
pub struct PlacedWords<'a> {
    words: Words<'a>,
    /// The character where the next word begins, counted from 1.
    column: usize,
}

impl<'a> PlacedWords<'a> {
    /// The words of a line, at least one.
    pub fn of(line: &'a str) -> PlacedWords<'a>
        ensures words { result.words ≡ words_of line.now }
        ensures column { result.column ≡ 1 }
    {
        PlacedWords {
            words: Words::of(line),
            column: 1,
        }
    }

    /// Takes the next word, if there is one, and the character of the line where it begins, counted from 1.
    pub fn next(&mut self) -> Option<(usize, &'a str)>
        ensures words { MatchOption result ((self.old.words ≡ []) × (self.new.words ≡ []))
            (λ r. self.old.words ≡ r.1.now ∷ self.new.words) }
        ensures column { IfSome result (λ r. r.0 ≡ self.old.column) }
        ensures next { IfSome result (λ r.
            self.new.column ≡ held (held (self.old.column + length (chars r.1.now)) + 1)) }
    {
        let word = self.words.next()?;
        let column = self.column;
        self.column = column.saturating_add(characters(word)).saturating_add(1);
        Some((column, word))
    }
}

/// The number of characters of a text.
pub fn characters(text: &str) -> usize
    ensures { result ≡ length (chars text.now) }
{
    text.chars().count()
}
