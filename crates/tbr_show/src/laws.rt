//! The laws of what is written, each as the contract of a function that does nothing.
ghost use Rattle.std.specs.Prelude.{◌≡◌, ◌≢◌, ◌++◌, ◌∷◌, [], List, Vec, true};
ghost use Rattle.std.specs.declared.alloc.Global.{Global as Heap};
ghost use Rattle.std.specs.Char.{is_control};
ghost use Rattle.std.specs.List.{AllByRecursion as Each};
ghost use Rattle.tbr_model.specs.Codes.{newline_character};
ghost use Rattle.tbr_tagged.specs.Elements.{Element, characters};
ghost use Rattle.tbr_decor.specs.declared.annotation.RichAnnotation.{RichAnnotation};
ghost use Rattle.tbr_show.specs.Written.{printable};
ghost use Rattle.tbr_show.specs.Ansi.{line, escape_character};
ghost use Rattle.tbr_show.specs.Terminal.{seen, among};

/// A terminal shows all characters of a line that is written for it, except control characters, in order.
#[tactic(auto, using(crate::proofs::Terminal::line_is_seen))]
pub fn a_terminal_shows_the_characters()
    ensures { (es : List (Element (Vec RichAnnotation Heap))) →
        seen among (line es) ≡ printable (characters es) ++ newline_character ∷ [] }
{}

/// A line that is written for a terminal has no control characters except the escapes of its own sequences, and the
/// newline after it.
#[tactic(auto, using(crate::proofs::Terminal::line_is_own))]
pub fn no_other_control_character_is_written()
    ensures { (es : List (Element (Vec RichAnnotation Heap))) → Each (λ c. is_control c ≡ true → c ≢ newline_character →
        c ≡ escape_character) (line es) }
{}
