//! Emphasised text, for any renderer.
ghost use Rattle.std.specs.Prelude.{◌≡◌, ◌∷◌, [], OnOk, chars};
ghost use Rattle.tbr_tagged.specs.Outcome.{done};
ghost use Rattle.tbr_decor.specs.Start as start;
ghost use Rattle.tbr_decor.specs.End as end;
ghost use Rattle.text_block_renderer.specs.Outcomes.{run};
ghost use Rattle.text_block_renderer.specs.Calls as call;
ghost use Rattle.text_block_renderer.specs.Calls.{after_by, failure_in, KeepsFailure};

use text_block_renderer::{Error, Renderer};

/// Adds emphasised text.
pub fn emphasised<R: Renderer>(r: &mut R, text: &str) -> Result<(), Error>
    ensures ok { let calls =
        call.begin start.emphasis ∷ call.add_inline_text (chars text.now) ∷ call.finish end.emphasis ∷ [] in
        OnOk result (run (after_by R.calls) calls (R.calls.state r.old) ≡ done (R.calls.state r.new)) }
    ensures kept { KeepsFailure (failure_in R.calls) r.old result r.new }
{
    r.start_emphasis()?;
    r.add_inline_text(text)?;
    r.end_emphasis()
}
