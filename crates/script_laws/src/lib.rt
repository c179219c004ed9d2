//! What holds of the meaning of scripts. No program waits for its proofs.
#![tactic(auto)]

pub use laws::{
    a_line_is_read_as_the_command_that_it_is, a_script_is_the_calls_that_its_lines_name,
    a_script_of_two_columns_is_not_too_narrow, links_of_scripts_end_with_their_own_numbers,
    no_control_character_is_given, no_visible_character_of_a_script_is_lost,
    the_renderers_of_a_script_are_led_to,
};

mod laws;
