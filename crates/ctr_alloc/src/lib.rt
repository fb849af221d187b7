//! Which pages are allocated, by the bits of page 0: the lowest free page, and what a page's bit becomes.
//!
//! Nothing here takes memory.
#![tactic(auto)]

mod allocating;
mod bits;
mod search;
mod store;

pub use allocating::{alloc, free};
pub use bits::{with_free, with_taken};
pub use ctr_actions::{
    a_drop_changes_its_title, a_logged_record_is_its_action, a_new_table_has_its_entry,
    an_uncreate_changes_its_title, an_undrop_changes_its_title, over_entry, over_page,
};
pub use ctr_walk::{
    Origin, SearchFault, Store, a_record_behind_a_page, an_entry_has_columns, catalog_page,
    found_on, log_on_page, tell,
};
pub use search::{NextFree, next_free_on};
pub use store::next_free;
