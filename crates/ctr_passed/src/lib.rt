//! Pages pass their checks, whatever record is logged next. Definitions, and laws of them. No program computes them.
#![tactic(auto)]

mod checks;
mod laws;
mod lying;
mod owed;
mod own;

pub use checks::{
    a_formatted_page_is_blank, chains_pass_their_checks, slots_pass_their_checks,
    tables_pass_their_checks, versions_pass_their_checks,
};
pub use ctr_actions::{
    a_free_entry_shows_the_same, a_keep_shows_the_same, a_kept_version_is_spare,
    a_logged_record_is_its_action, a_revert_leaves_its_entry, a_revert_takes_the_head,
    an_action_gives_its_fact, an_action_meets_its_needs, an_undone_item_goes_alone,
    growth_keeps_a_site, ones_own_action_leaves_what_is_held, pages_are_in_bounds,
    the_latest_item_can_be_undone, what_is_done_stays, what_is_held_pays,
};
pub use laws::{a_sound_state_stays_sound, an_action_keeps_pages_passed};
pub use lying::{
    chains_lie_as_their_actions, pages_lie_as_their_actions,
    records_without_bytes_lie_as_their_actions, slots_lie_as_their_actions,
    tables_lie_as_their_actions, versions_lie_as_their_actions,
};
pub use owed::{
    owed_records_are_laid_as_their_actions, owed_slots_are_laid_as_their_actions,
    owed_versions_are_laid_as_their_actions,
};
pub use own::an_own_page_stays_blank;
