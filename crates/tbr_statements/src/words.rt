//! The commands of a script, and which of them is similar to a word.
ghost use Rattle.std.specs.Prelude.{◌≡◌, map, IfOk, IfSome, IfNone};
ghost use Rattle.tbr_statements.specs.Words as model;
ghost use Rattle.tbr_statements.specs.Words.{IsNearest, AreFar, IsFirstOf, NoneBegins};

use std::alloc::{AllocError, Global};
use strsim::levenshtein;

/// The commands, each as it is written.
pub const FORMS: [&str; 48] = [
    "text T",
    "block",
    "endblock",
    "table",
    "table auto",
    "endtable",
    "line",
    "hardline",
    "empty",
    "border [N]",
    "quote",
    "endquote",
    "item",
    "enditem",
    "ordered N",
    "endordered",
    "heading N",
    "endheading",
    "sub N",
    "append P | Q",
    "cell N SPAN [left|right|centre]",
    "cell auto [ROWS [COLUMNS]] [left|right|centre]",
    "endcell",
    "row [collapse]",
    "vrow",
    "ws MODE",
    "endws",
    "pre",
    "endpre",
    "em",
    "endem",
    "strong",
    "endstrong",
    "strike",
    "endstrike",
    "code",
    "endcode",
    "super",
    "endsuper",
    "colour R G B",
    "endcolour",
    "bg R G B",
    "endbg",
    "link TARGET",
    "endlink",
    "image SOURCE | TITLE",
    "frag NAME",
    "new W DECORATOR OPTIONS",
];

/// The options of the first command.
pub const OPTIONS: [&str; 10] = [
    "wrap=N",
    "pad",
    "overflow",
    "footnotes",
    "nowraplinks",
    "nostrike",
    "img=ignore",
    "img=always",
    "img=filename",
    "noborders",
];

/// The decorators.
pub const DECORATORS: [&str; 3] = ["plain", "trivial", "rich"];

/// The alignments of a cell's lines.
pub const ALIGNMENTS: [&str; 3] = ["left", "right", "centre"];

/// The modes of white space.
pub const MODES: [&str; 3] = ["normal", "pre", "prewrap"];

/// The first word of a line: what is before its first space.
pub fn first_word(line: &str) -> &str
    ensures { result.now ≡ model.first_word line.now }
{
    match line.split_once(' ') {
        Some((word, _)) => word,
        None => line,
    }
}

/// How the command with this word is written, if there is one: the first form that begins with it.
pub fn form_of(word: &str) -> Option<&'static str>
    ensures found { IfSome result (λ form. IsFirstOf word.now (map (λ s. s.now) FORMS) form.now) }
    ensures none { IfNone result (NoneBegins word.now (map (λ s. s.now) FORMS)) }
{
    first_of(word, &FORMS)
}

/// The first of some texts whose first word is this one.
fn first_of(word: &str, among: &[&'static str]) -> Option<&'static str>
    ensures found { IfSome result (λ text. IsFirstOf word.now (map (λ s. s.now) among.now) text.now) }
    ensures none { IfNone result (NoneBegins word.now (map (λ s. s.now) among.now)) }
{
    for text in among {
        if first_word(text) == word {
            return Some(*text);
        }
    }
    None
}

/// How many edits are too many for a word: three, or the number of its bytes if that is smaller.
fn too_far(word: &str) -> usize
    ensures { result ≡ model.too_far word.now }
{
    word.len().min(3)
}

/// A text whose first word is nearest to a word. `None` where all are three edits away or more, or as many as the word
/// has bytes. It refuses only where memory is refused.
pub fn nearest(
    alloc: Global,
    word: &str,
    among: &[&'static str],
) -> Result<Option<&'static str>, AllocError>
    ensures found { IfOk result (λ found. IfSome found (λ text. IsNearest word.now among.now text)) }
    ensures none { IfOk result (λ found. IfNone found (AreFar word.now among.now)) }
{
    let mut best = None;
    let mut least = too_far(word);
    for text in among {
        let edits = levenshtein(alloc, word, first_word(text))?;
        if edits < least {
            least = edits;
            best = Some(*text);
        }
    }
    Ok(best)
}
