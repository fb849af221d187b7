//! What one record does, by whom, and what a session counts on between its turns: definitions, and laws. No program
//! computes them.
#![tactic(auto)]

mod cleaning;
mod held;
mod laws;
mod states;
mod undoing;

pub use cleaning::a_site_with_nothing_to_clean_is_bare;
pub use ctr_record_effects::{
    a_drop_changes_its_title, a_free_changes_its_bit, a_new_table_has_its_entry,
    an_alloc_changes_its_bit, an_uncreate_changes_its_title, an_undrop_changes_its_title,
    over_entry, over_page,
};
pub use ctr_record_laws::{
    a_free_entry_shows_the_same, a_keep_shows_the_same, a_kept_version_is_spare,
    a_revert_leaves_its_entry, a_revert_takes_the_head, pages_are_in_bounds,
};
pub use held::{an_action_gives_its_fact, what_is_held_pays};
pub use laws::{
    a_quiet_action_leaves_the_engine, a_quiet_action_shows_the_same, an_action_meets_its_needs,
    an_action_stays_in_bounds, an_action_stays_sound, another_leaves_what_is_held,
    growth_keeps_a_site, live_tables_are_away, locked_rows_are_away,
    ones_own_action_leaves_what_is_held, tables_in_use_stay_live, what_is_held_stays,
};
pub use states::{a_logged_record_is_its_action, what_is_done_stays};
pub use undoing::{
    an_undone_item_goes_alone, the_front_of_the_log_stays, the_latest_item_can_be_undone,
};
