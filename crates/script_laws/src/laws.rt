//! What holds of the meaning of scripts, as the contract of a function that does nothing.
ghost use Rattle.std.specs.Prelude.{false, ◌≡◌, ◌↔◌, ◌≢◌, ◌<◌, ◌≤◌, ◌+◌, ℕ, List, length, [], ◌∷◌, ◌++◌, Option, Some, Ok, Err};
ghost use Rattle.tbr_decor.specs.Decoration.{Decoration};
ghost use Rattle.tbr_commands.specs.declared.opening.Opening.{Opening};
ghost use Rattle.tbr_stack.specs.Links.{after_link_end};
ghost use Rattle.tbr_stack.specs.StackCalls.{IsNextToEnd, StackSteps, after_end_as};
ghost use Rattle.text_block_renderer.specs.Renderer.{Renderer, least, new_renderer};
ghost use Rattle.text_block_renderer.specs.Calls.{Shows};
ghost use Rattle.text_block_renderer.specs.MarkersStand.{Stands};
ghost use Rattle.text_block_renderer.specs.Taken.{IsWrittenSoFar};
ghost use Rattle.text_block_renderer.specs.Acts.{acts_come};
ghost use Rattle.text_block_renderer.specs.Drawn.{WithoutDrawnBorders, borders_drawn, DrawNone};
ghost use Rattle.text_block_renderer.specs.Headline.{Headline, TakeTwoAtMost};
ghost use Rattle.tbr_program.specs.Progress.{Progress};
ghost use Rattle.tbr_program.specs.Commands.{after_command, after_line, started};
ghost use Rattle.tbr_script.specs.Script.{lines_of};
ghost use Rattle.tbr_commands.specs.Command.{Command, link};
ghost use Rattle.tbr_commands.specs.Opening.{IsOpening};
ghost use Rattle.tbr_commands.specs.Syntax.{IsCommand};
ghost use Rattle.tbr_commands.specs.Read.{command_read, opening_read};
ghost use Rattle.script_laws.specs.StackCalls.{stack_calls, link_targets, AskFor, AskAfterFirst, LinesDo};
ghost use Rattle.tbr_stack.specs.Stack.{top_of};
ghost use Rattle.script_laws.specs.Kept.{EndsWhole, LineAsksForOneRow, OverhangsNowhere, KeepsAll, TextKeeps};
ghost use Rattle.script_laws.specs.Led.{IsLed, AreLed, IsTextOfLed, IsTextOfScript, LineAsksForTwo};
ghost use Rattle.std.specs.List.{AllByRecursion as Each};
ghost use Rattle.tbr_script.specs.declared.error.RunError.TheVariants.{TooNarrow};
ghost use Rattle.tbr_runner.specs.Scripts.{rendered_on, rendered, shown};
ghost use Rattle.script_laws.specs.Blocks.{GiveText, Gives};
ghost use Rattle.script_laws.specs.LinesOnStack.{AreCalls};
ghost use Rattle.text_block_renderer.specs.Levels.{OnStack, after_on_stack};
ghost use Rattle.tbr_renderer.specs.Outcomes.{run};
ghost use Rattle.tbr_tagged.specs.Outcome.{done};
ghost use Rattle.script_laws.specs.Controls.{ControlsHaveNone, HasNoControls};
ghost use Rattle.tbr_rows.specs.Shown.{DrawsInOne};
ghost use Rattle.tbr_tagged.specs.UnicodeColumns.{unicode_columns};

/// A line is read as the command that it is, and as none where it is none. This holds for the first command too.
pub fn a_line_is_read_as_the_command_that_it_is()
    ensures command { (line : List ℕ) (command : Command) →
        IsCommand line command ↔ (command_read line ≡ Some command) }
    ensures first { (line : List ℕ) (opening : Opening) →
        IsOpening line opening ↔ (opening_read line ≡ Some opening) }
{}

/// A script's text is what the calls give that its lines name. Each line calls the renderer that is open there, as its
/// words say, one after another. From a `sub` to its `append` that is a block's own renderer, and the lines of that come
/// to the one below once, at the `append`. Those of a cell come once at the next `row` or `vrow`. The text is that of
/// the lines of the script's own renderer, and then of its footnotes, and nothing else. Lines that end no script yet are
/// calls on a stack, so [each level goes as one renderer does][levels].
///
/// [levels]: text_block_renderer::laws::levels::each_level_goes_as_one_renderer_does
pub fn a_script_is_the_calls_that_its_lines_name<D, M>()
    ensures lines { (columns : ℕ → Option ℕ) (decoration : Decoration D M) (opening : Opening) (decorator : D)
        (number : ℕ) (lines : List (List ℕ)) (text : List ℕ) →
        rendered_on columns decoration number lines (started opening decorator) ≡ Ok text →
        GiveText columns decoration (new_renderer opening.width opening.options decorator) lines text }
    ensures script { (columns : ℕ → Option ℕ) (script text : List ℕ) → rendered columns script ≡ Ok text →
        Gives columns (lines_of script) text }
    ensures stack { (columns : ℕ → Option ℕ) (decoration : Decoration D M) (number : ℕ) (lines : List (List ℕ))
        (p q : Progress D M (List M)) → LinesDo columns decoration p number lines q →
        (calls : List (OnStack D M)) × AreCalls lines calls
        × (run (after_on_stack columns decoration) calls p.stack ≡ done q.stack) }
{}

/// Each renderer that a script fills, also one of a cell that waits, is made by calls and rows from a sound and empty
/// one. This holds at the beginning and after each line. The script's text is that of the lines of such a renderer,
/// without an open run, and then of the footnotes of all its links, in their order. So the laws of lists of calls and
/// rows hold for it, also with its footnotes. One is the first promise. Another is that its lines show the visible
/// characters and the markers of all that was added to it, once and in order. Where lines are padded, borders that
/// became text are between these.
pub fn the_renderers_of_a_script_are_led_to<D, M>()
    ensures first { (columns : ℕ → Option ℕ) (decoration : Decoration D M) → columns 32 ≡ Some 1 →
        (opening : Opening) (decorator : D) → 0 < opening.width → opening.options.wrap_width ≢ Some 0 →
        AreLed columns decoration (started {M = M} opening decorator) }
    ensures line { (columns : ℕ → Option ℕ) (decoration : Decoration D M) (p next : Progress D M (List M))
        (number : ℕ) (line : List ℕ) → AreLed columns decoration p →
        after_line columns decoration number line p ≡ Ok next → AreLed columns decoration next }
    ensures text { (columns : ℕ → Option ℕ) (decoration : Decoration D M) (p : Progress D M (List M)) (number : ℕ)
        (lines : List (List ℕ)) (text : List ℕ) → AreLed columns decoration p →
        rendered_on columns decoration number lines p ≡ Ok text → (commands : List Command) × AskFor lines commands
        × IsTextOfLed columns decoration (p.stack.links ++ link_targets commands) text }
    ensures script { (columns : ℕ → Option ℕ) → columns 32 ≡ Some 1 → (script text : List ℕ) →
        rendered columns script ≡ Ok text → (commands : List Command)
        × AskAfterFirst (lines_of script) commands × IsTextOfScript columns (link_targets commands) text }
    ensures headline { (columns : ℕ → Option ℕ) (decoration : Decoration D M) (r : Renderer D M (List M)) →
        (led : IsLed columns decoration r) → Headline columns decoration led.acts led.first r }
    ensures shows { (columns : ℕ → Option ℕ) (decoration : Decoration D M) (r : Renderer D M (List M)) →
        (led : IsLed columns decoration r) → WithoutDrawnBorders (borders_drawn columns decoration led.acts led.first)
        (λ q. Shows columns q (acts_come columns decoration led.acts led.first [])) r }
    ensures stands { (columns : ℕ → Option ℕ) (decoration : Decoration D M) (r : Renderer D M (List M)) →
        (led : IsLed columns decoration r) → WithoutDrawnBorders (borders_drawn columns decoration led.acts led.first)
        (λ q. Stands columns q (acts_come columns decoration led.acts led.first [])) r }
    ensures undrawn { (columns : ℕ → Option ℕ) (decoration : Decoration D M) (r : Renderer D M (List M)) →
        (led : IsLed columns decoration r) → DrawNone columns decoration led.acts led.first →
        let came = acts_come columns decoration led.acts led.first [] in Shows columns r came × Stands columns r came }
    ensures written { (columns : ℕ → Option ℕ) (decoration : Decoration D M) (r : Renderer D M (List M)) →
        (led : IsLed columns decoration r) →
        IsWrittenSoFar columns r (acts_come columns decoration led.acts led.first []) }
{}

/// No visible character is lost between the blocks and cells of a script, and no marker before one. Nothing may overhang
/// in a block, a cell or the script where that ends. Take what is added to a renderer up to any line, and after it. Its
/// visible characters, each under an annotation of its call, and its markers are in order in the lines of the text, or
/// in front of their borders. Only markers may be missing after which that renderer gets no visible character. Prefixes,
/// borders and what was added to other renderers may be between them. In a script whose cells span one row each nothing
/// overhangs.
pub fn no_visible_character_of_a_script_is_lost<D, M>()
    ensures first { (columns : ℕ → Option ℕ) (decoration : Decoration D M) → columns 32 ≡ Some 1 →
        (opening : Opening) (decorator : D) → 0 < opening.width → opening.options.wrap_width ≢ Some 0 →
        KeepsAll columns decoration (started {M = M} opening decorator) }
    ensures line { (columns : ℕ → Option ℕ) (decoration : Decoration D M) (p next : Progress D M (List M))
        (number : ℕ) (line : List ℕ) → KeepsAll columns decoration p → EndsWhole (line ∷ []) p →
        after_line columns decoration number line p ≡ Ok next → KeepsAll columns decoration next }
    ensures text { (columns : ℕ → Option ℕ) (decoration : Decoration D M) (p : Progress D M (List M)) (number : ℕ)
        (lines : List (List ℕ)) (text : List ℕ) (r : Renderer D M (List M)) → KeepsAll columns decoration p →
        ((front back : List (List ℕ)) (there : Progress D M (List M)) → lines ≡ front ++ back →
        LinesDo columns decoration p number front there → EndsWhole back there) →
        top_of p.stack ≡ Some r → (led : IsLed columns decoration r) →
        rendered_on columns decoration number lines p ≡ Ok text → (commands : List Command) × AskFor lines commands
        × TextKeeps columns decoration (p.stack.links ++ link_targets commands) text
        (acts_come columns decoration led.acts led.first []) }
    ensures begins { (opening : Opening) (decorator : D) → OverhangsNowhere {T = List M} (started opening decorator) }
    ensures one_row { (columns : ℕ → Option ℕ) (decoration : Decoration D M) (p there : Progress D M (List M))
        (number : ℕ) (front back : List (List ℕ)) → KeepsAll columns decoration p → OverhangsNowhere p →
        Each LineAsksForOneRow front → LinesDo columns decoration p number front there →
        OverhangsNowhere there × EndsWhole back there }
{}

/// A script whose blocks, cells and wrap width have two columns or more is never too narrow, if no character takes more
/// than two.
pub fn a_script_of_two_columns_is_not_too_narrow<D, M>()
    ensures { (columns : ℕ → Option ℕ) (decoration : Decoration D M) → columns 32 ≡ Some 1 → TakeTwoAtMost columns →
        (opening : Opening) (decorator : D) → 2 ≤ least opening.width opening.options.wrap_width → (number : ℕ)
        (lines : List (List ℕ)) → Each LineAsksForTwo lines →
        rendered_on columns decoration number lines (started opening decorator) ≡ Err TooNarrow → ⊥ }
{}

/// The lines of a script change its stack as calls on a stack do, so the laws of these hold for scripts. A link that
/// ends adds its own number, which is the place of its target among the footnotes, counted from 1. This holds whatever
/// commands are in between, and however deeply links, blocks and cells are nested.
pub fn links_of_scripts_end_with_their_own_numbers<D, M>()
    ensures calls { (columns : ℕ → Option ℕ) (decoration : Decoration D M) (number : ℕ) (lines : List (List ℕ))
        (commands : List Command) (p q : Progress D M (List M)) → AskFor lines commands →
        LinesDo columns decoration p number lines q →
        StackSteps columns decoration (stack_calls commands) p.stack q.stack }
    ensures number { (columns : ℕ → Option ℕ) (decoration : Decoration D M) (target : List ℕ) (number : ℕ)
        (lines : List (List ℕ)) (commands : List Command) (p m q : Progress D M (List M)) →
        after_command columns decoration number (link target) p ≡ Ok m → AskFor lines commands →
        LinesDo columns decoration m (number + 1) lines q → IsNextToEnd (0 ∷ []) (stack_calls commands) →
        after_link_end columns decoration q.stack
        ≡ after_end_as columns decoration (length p.stack.links + 1) q.stack }
{}

/// Where prefixes and footnotes are shown without control characters, no script gives any but newlines: each character
/// of its lines has columns, and by `unicode_columns` these are all but control characters.
pub fn no_control_character_is_given()
    ensures given { (columns : ℕ → Option ℕ) → DrawsInOne columns → ControlsHaveNone columns →
        (script text : List ℕ) → shown false columns script ≡ Ok text → HasNoControls text }
    ensures unicode { (script text : List ℕ) → shown false unicode_columns script ≡ Ok text → HasNoControls text }
{}
