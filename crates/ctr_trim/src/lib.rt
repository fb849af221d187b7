//! The cleaner's records in live tables: a slot is trimmed, a chain is cut behind a version entry, a version
//! entry is freed that no chain has.
//!
//! Nothing here takes memory.
#![tactic(auto)]

mod cutting;
mod entries;
mod freeing;
mod slots;
mod trimming;

pub use ctr_page_turns::{
    a_record_acts, a_record_is_refused_by_the_disk_alone, a_turn_goes_on, an_item_goes,
    room_is_still_there,
};
pub use ctr_passed::{
    owed_records_are_laid_as_their_actions, owed_slots_are_laid_as_their_actions,
    pages_lie_as_their_actions, tables_lie_as_their_actions, tables_pass_their_checks,
};
pub use ctr_undamaged::{
    a_bucket_search_meets_no_damage, a_head_is_taken_without_damage, a_place_of_a_table_fits,
    a_row_is_read_without_damage, a_table_can_be_linked_to, a_version_entry_is_read_without_damage,
    find,
};
pub use cutting::cut_behind;
pub use freeing::free_loose;
pub use slots::TrimWay;
pub use trimming::trim_slot;
