//! What follows for the renderers on a stack.
ghost use Rattle.std.specs.Prelude.{◌≡◌, ℕ, Option, Some, List, [], ◌∷◌};
ghost use Rattle.tbr_tagged.specs.Outcome.{done};
ghost use Rattle.tbr_decor.specs.Decoration.{Decoration};
ghost use Rattle.tbr_renderer.specs.Renderer.{Renderer};
ghost use Rattle.tbr_renderer.specs.Outcomes.{run};
ghost use Rattle.tbr_stack.specs.Stack.{Level, Stack, new_level};
ghost use Rattle.text_block_renderer.specs.Levels.{OnStack, push, after_on_stack, above_after, links_of, own_acts, HasLevel};

/// Whatever calls come to a stack, each of its levels goes as one renderer does under its own: those that come while it is
/// the top, in order, and no others. So it is from its push to its pop, and of the levels that there were before. Calls
/// that don't pop a level leave those below it as they are.
pub fn each_level_goes_as_one_renderer_does<D, A>()
    ensures level { (columns : ℕ → Option ℕ) (decoration : Decoration D A) (calls : List (OnStack D A))
        (s t : Stack (Renderer D A (List A))) (level : Level (Renderer D A (List A)))
        (others : List (Level (Renderer D A (List A)))) (n : ℕ) → s.levels ≡ level ∷ others →
        run (after_on_stack columns decoration) calls s ≡ done t → above_after 0 calls ≡ Some n →
        HasLevel columns decoration level.renderer (own_acts 0 (links_of level s.links) calls) n others t }
    ensures pushed { (columns : ℕ → Option ℕ) (decoration : Decoration D A) (calls : List (OnStack D A))
        (r : Renderer D A (List A)) (s t : Stack (Renderer D A (List A))) (n : ℕ) →
        run (after_on_stack columns decoration) (push r ∷ calls) s ≡ done t → above_after 0 calls ≡ Some n →
        HasLevel columns decoration r (own_acts 0 (links_of (new_level r) s.links) calls) n s.levels t }
{}
