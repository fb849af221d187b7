//! A page more for a chain of a table, by turns of one record each: it is allocated, made empty and put in front. What is kept
//! between two turns is how far it is.
//!
//! Nothing here takes memory.
#![tactic(auto)]

mod laws;
mod linking;
mod making;
mod taking;
mod turn;
mod ways;

pub use ctr_page_turns::{
    SearchFault, a_record_acts, a_record_is_refused_by_the_disk_alone, a_turn_goes_on,
    an_action_gives_its_fact, owed_slots_are_laid_as_their_actions,
    owed_versions_are_laid_as_their_actions, room_is_still_there, tell, what_is_done_stays,
};
pub use ctr_stops::{
    Store, a_turn_of_a_world_is_kept, a_turn_without_an_entry_is_kept, an_action_keeps_the_pages,
};
pub use ctr_undamaged::{
    LentPart, LentSlot, Way, a_bucket_search_meets_no_damage, a_free_slot_is_the_tables,
    a_place_of_a_table_fits, a_row_is_read_without_damage, a_search_for_room_meets_no_damage,
    a_slot_is_put_at_its_place, a_version_is_put_at_its_place, a_way_fits_its_slot, find,
    find_free_entry, first, free_slot, keep, put_slot, replaced, row, slot_lies, to_keep, way_of,
    written,
};
pub use laws::a_turn_for_a_page_is_kept;
pub use turn::extend;
pub use ways::{Extended, OnWay};
