//! Texts whose control characters are escaped, as browsers escape them in an address.
#![tactic(auto)]

pub use escapes::{escape, escape_all};
pub use laws::{
    footnotes_of_escaped_targets_have_none, no_control_character_is_left, other_texts_stay,
};

mod escapes;
mod laws;
