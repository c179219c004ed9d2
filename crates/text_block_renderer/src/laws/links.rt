//! The laws of the links of a stack.
ghost use Rattle.std.specs.Prelude.{◌≡◌, ℕ, ◌+◌, Option, Some, List, [], ◌∷◌, ◌++◌, length};
ghost use Rattle.std.specs.List.{slice_get};
ghost use Rattle.tbr_tagged.specs.Outcome.{done};
ghost use Rattle.tbr_decor.specs.Decoration.{Decoration};
ghost use Rattle.tbr_decor.specs.Usual.{footnote, footnotes};
ghost use Rattle.tbr_renderer.specs.Renderer.{Renderer};
ghost use Rattle.tbr_stack.specs.Stack.{Stack, new_stack};
ghost use Rattle.tbr_stack.specs.Links.{first_open, open_links, after_link_start, after_link_end};
ghost use Rattle.tbr_stack.specs.StackCalls.{StackCall, targets_of, IsNextToEnd, IsNextNumber, StackSteps, after_end_as};

/// A link that ends adds its own number: the place of its target, counted from 1. This holds whatever calls are in
/// between, and however deeply links and renderers are nested. In a stack that began as a new one, a link that is open
/// in the top is one that these calls started.
pub fn a_link_ends_with_its_own_number<D, A>()
    ensures number { (columns : ℕ → Option ℕ) (decoration : Decoration D A) (target : List ℕ)
        (calls : List StackCall) (s m t : Stack (Renderer D A (List A))) →
        after_link_start columns decoration target s ≡ done m → StackSteps columns decoration calls m t →
        IsNextToEnd (0 ∷ []) calls →
        after_link_end columns decoration t ≡ after_end_as columns decoration (length s.links + 1) t }
    ensures from_new { (columns : ℕ → Option ℕ) (decoration : Decoration D A) (calls : List StackCall)
        (r : Renderer D A (List A)) (t : Stack (Renderer D A (List A))) (k : ℕ) →
        StackSteps columns decoration calls (new_stack r) t → first_open (open_links t) ≡ Some k →
        IsNextNumber calls k }
{}

/// No call removes or moves a target: those of links that start later come after the others. So the default footnotes
/// have a link's target on the line of its number.
pub fn a_target_stands_at_the_number_of_its_link<D, A>()
    ensures targets { (columns : ℕ → Option ℕ) (decoration : Decoration D A) (calls : List StackCall)
        (s t : Stack (Renderer D A (List A))) → StackSteps columns decoration calls s t →
        t.links ≡ s.links ++ targets_of calls }
    ensures place { (columns : ℕ → Option ℕ) (decoration : Decoration D A) (target : List ℕ)
        (calls : List StackCall) (s m t : Stack (Renderer D A (List A))) →
        after_link_start columns decoration target s ≡ done m → StackSteps columns decoration calls m t →
        slice_get t.links (length s.links) ≡ Some target }
    ensures footnote { (a : A) (targets : List (List ℕ)) (i : ℕ) (target : List ℕ) →
        slice_get targets i ≡ Some target → slice_get (footnotes a targets) i ≡ Some (footnote a (i + 1) target) }
{}
