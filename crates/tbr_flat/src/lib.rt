//! Characters under tags and markers, kept in a few growing vectors: the storage of a block of wrapped text.
#![tactic(auto)]

pub use flat_text::{FlatText, Front};
pub use placed_items::PlacedItems;

mod characters;
mod flat_text;
mod markers;
mod placed_items;
mod tags;
mod text_queue;
