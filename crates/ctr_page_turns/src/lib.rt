//! What one turn of a session does to a store, and what the record that it logs is to the pages. Definitions, and laws of
//! them. No program computes them.
#![tactic(auto)]

mod numbers;
mod refusing;
mod room;
mod turns;

pub use ctr_passed::{
    a_formatted_page_is_blank, a_sound_state_stays_sound, an_action_gives_its_fact,
    an_action_meets_its_needs, an_undone_item_goes_alone, growth_keeps_a_site,
    ones_own_action_leaves_what_is_held, owed_records_are_laid_as_their_actions,
    owed_slots_are_laid_as_their_actions, owed_versions_are_laid_as_their_actions,
    pages_are_in_bounds, pages_lie_as_their_actions, records_without_bytes_lie_as_their_actions,
    tables_lie_as_their_actions, tables_pass_their_checks, the_latest_item_can_be_undone,
    what_is_done_stays, what_is_held_pays,
};
pub use ctr_walk::{Origin, SearchFault, Store, first_page, tell};
pub use numbers::{a_turn_goes_or_counts_a_fault, a_turn_is_told_by_its_number};
pub use refusing::a_record_is_refused_by_the_disk_alone;
pub use room::{an_item_goes, room_is_still_there};
pub use turns::{a_record_acts, a_turn_goes_on};
