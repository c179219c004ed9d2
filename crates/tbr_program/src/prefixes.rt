//! Lines that are appended after prefixes.
ghost use Rattle.std.specs.Prelude.{◌≡◌, None, IfOk, IfErr, string_bytes};
ghost use Rattle.tbr_tagged.specs.View.{chars_of};
ghost use Rattle.tbr_tagged.specs.declared.Error.TheVariants as E;
ghost use Rattle.tbr_decor.specs.Decoration.{decoration_of};
ghost use Rattle.tbr_decor.specs.Prefix.{asked_prefix};
ghost use Rattle.tbr_renderer.specs.Outcomes.{Tries};
ghost use Rattle.tbr_program.specs.Commands.{block_made};

use tbr_decor::{DecoratorPrefix, TextDecorator};
use tbr_model::CharWidth;
use tbr_renderer::{Renderer, SubRenderer};
use tbr_script::TextPair;
use tbr_tagged::Error;

/// Adds the lines of a renderer to another one: the first line after the first text, each other after the second. The
/// other one must not have failed.
///
/// It refuses as either renderer does, and where memory is refused. The renderer inside is dropped.
pub fn append_after<D: TextDecorator, W: CharWidth>(
    renderer: &mut SubRenderer<D, W>,
    inside: SubRenderer<D, W>,
    texts: &TextPair,
) -> Result<(), Error>
    requires { renderer.old.failure ≡ None }
    ensures tries { let texts = block_made W.columns (decoration_of D.TextDecorator D.Annotation.tells)
        (string_bytes texts.now.first) (string_bytes texts.now.second) in
        Tries (texts inside) renderer.old result renderer.new }
{
    renderer.append_prefixed(inside, texts.first.as_str(), texts.second.as_str())
}

/// The text of a prefix of the renderer's decorator. It refuses only where memory is refused, and changes nothing.
pub fn prefix_of<D: TextDecorator, W: CharWidth>(
    renderer: &mut SubRenderer<D, W>,
    prefix: DecoratorPrefix,
) -> Result<String, Error>
    ensures text { IfOk result (λ text.
        chars_of text ≡ D.prefix_text renderer.old.decorator (asked_prefix prefix)) }
    ensures memory { IfErr result (λ e. e ≡ E.OutOfMemory) }
    ensures unchanged { renderer.new ≡ renderer.old }
{
    match prefix {
        DecoratorPrefix::Header(level) => renderer.header_prefix(level),
        DecoratorPrefix::Quote => renderer.quote_prefix(),
        DecoratorPrefix::Item => renderer.unordered_item_prefix(),
        DecoratorPrefix::OrderedItem(number) => renderer.ordered_item_prefix(number),
    }
}
