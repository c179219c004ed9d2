//! Laws, each as the contract of a function that does nothing.

pub use tbr_border::laws::{
    cell_has_two_arms, cells_keep_two_arms, chops_are_idempotent, joins_are_idempotent,
    joins_commute, stretching_appends,
};
pub use tbr_tagged::laws::{equal_tags_mean_the_same, merged_pieces_have_characters};
pub use tbr_wrap::laws::{
    blocks_stay_sound, flushes_are_too_narrow_for_characters, flushes_leave_nothing_open,
    lines_are_handed_out_in_order, lines_join_after_those_left, loose_markers_are_last,
    markers_join_the_word, runs_decide_what_is_open, runs_end_as_promised,
    texts_are_shown_by_meaning, texts_are_too_narrow_for_characters, too_narrow_is_no_legal_layout,
    words_keep_their_tags,
};
