//! What stands in the pages of a database, by place and not by bytes: definitions, and laws of them. No
//! program computes them.
#![tactic(auto)]

mod laws;

pub use ctr_meta::{Meta, is_changed, is_seen};
pub use ctr_page::{
    BadChain, BadPage, CatalogEntry, Chain, EntryState, Place, check_entry, check_header,
    make_entry, read_entry, read_header,
};
pub use laws::{
    a_checked_chain_ends, bit_changes_alone, dropper_changes_alone, entry_changes_alone,
    entry_is_made, entry_is_written_over, first_changes_alone, new_database, page_is_cleared,
    slot_changes_its_place, state_changes_alone, version_changes_its_place,
};
