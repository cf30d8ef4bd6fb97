//! What an opening that adopts devices finds of an array that was stopped within a round of labels.
#![tactic(auto)]

mod laws;

pub use laws::{
    a_clean_label_stands_over_an_array_in_sync, a_round_may_begin_on_an_opened_array,
    a_round_may_follow_another, a_stop_within_a_round_is_adopted,
    an_array_that_was_opened_and_stopped_is_adopted, an_array_that_was_stopped_is_opened,
    an_opening_that_adopts_finds_the_round, columns_of_an_opening_are_those_of_a_round,
};
