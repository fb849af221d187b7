//! Older versions off their rows: kept, read, freed.
//!
//! Nothing here takes memory.
#![tactic(auto)]

mod entries;
mod lending;
mod reading;
mod search;
mod slot;
mod table;
mod writing;

pub use ctr_passed::{
    a_logged_record_is_its_action, a_revert_leaves_its_entry, a_revert_takes_the_head,
    pages_are_in_bounds, records_without_bytes_lie_as_their_actions,
};
pub use ctr_walk::{
    Origin, SearchFault, Store, TableOf, a_slot_is_laid, found_on, log_on_page, over_place, tell,
};
pub use entries::free_entry_on;
pub use lending::{LentVersion, version};
pub use reading::{check_versions_there, row_in, version_in};
pub use search::find_free_entry;
pub use slot::{LentPart, LentSlot, row};
pub use table::table_on;
pub use writing::{free_entry, keep};
