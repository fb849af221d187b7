//! What each record of the log makes of the pages: one place of the area changes. Definitions, and laws of
//! them; and the overlays that records have.
#![tactic(auto)]

mod catalog;
mod overlays;
mod pages;
mod places;

pub use catalog::{
    a_drop_changes_its_title, a_new_table_has_its_entry, an_uncreate_changes_its_title,
    an_undrop_changes_its_title,
};
pub use ctr_area::{
    BadChain, BadPage, CatalogEntry, Chain, EntryState, Place, check_entry, check_header,
    read_entry, read_header,
};
pub use overlays::{over_cleared, over_entry, over_page, over_place};
pub use pages::{
    a_format_clears_its_page, a_free_changes_its_bit, a_link_changes_its_chain,
    an_alloc_changes_its_bit, an_unlink_changes_its_chain,
};
pub use places::{a_slot_is_laid, a_version_is_laid};
