//! The cleaner's records of tables that are gone: a dropped table is made dead, its pages leave their chains and are given
//! back, its entry of the catalog is freed; and a rolled back transaction without a head is forgotten.
//!
//! Nothing here takes memory.
#![tactic(auto)]

mod forgetting;
mod laws;
mod titles;
mod unlinking;

pub use ctr_trim::{
    TrimWay, a_bucket_search_meets_no_damage, a_head_is_taken_without_damage,
    a_place_of_a_table_fits, a_record_acts, a_record_is_refused_by_the_disk_alone,
    a_row_is_read_without_damage, a_table_can_be_linked_to, a_turn_goes_on,
    a_version_entry_is_read_without_damage, an_item_goes, cut_behind, find, free_loose,
    owed_slots_are_laid_as_their_actions, room_is_still_there, trim_slot,
};
pub use forgetting::{forget, give_back};
pub use laws::a_trimmed_entry_changes_alone;
pub use titles::{free_table, make_dead};
pub use unlinking::unlink;
