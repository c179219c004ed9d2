//! What a wrapped text is: runs, words, layouts, and the best of them.
#![tactic(auto)]

pub use best::best_layout;
pub use entry::Entry;
pub use hard::{
    hard_lines_are_shown, pre_lines_are_shown, prewrap_lines_are_shown, rule_is_best,
    tabs_are_shown, texts_wrap_in_one_way,
};
pub use history::History;
pub use laws::{
    best_has_fewest_lines, best_is_unique, best_lines_have_characters, first_gap_never_counts,
    greedy_is_best, layouts_are_cuts, legal_layouts_exist, words_hold_kept_items,
    words_stand_between_working_breaks,
};
pub use layout::{is_legal, is_legal_line, line_width};
pub use mapped::{
    annotations_change_no_hard_line, annotations_change_no_layout, annotations_change_no_progress,
};
pub use shown::{
    characters_come_with_the_run, columns_are_shown, lines_end_where_full,
    markers_alone_are_trailing, markers_alone_end_no_line, normal_items_are_kept,
    nothing_is_invented, only_pre_is_continued, order_is_kept, visible_characters_are_shown,
    waiting_markers_end_a_run,
};
pub use slot::Slot;
pub use white_space::WhiteSpace;
pub use width::CharWidth;
pub use word::slots;

mod best;
mod entry;
mod hard;
mod history;
mod laws;
mod layout;
mod mapped;
mod shown;
mod slot;
mod white_space;
mod width;
mod word;
