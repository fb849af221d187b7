//! Walks over a store: what calls leave one behind another, a record that is logged behind a page, and the search along
//! a chain of pages of a table, each checked as it is read.
//!
//! Nothing here takes memory.
#![tactic(auto)]

mod along;
mod columns;
mod damage;
mod fault;
mod joining;
mod on_page;
mod table;

pub use along::PageSought;
pub use columns::an_entry_has_columns;
pub use ctr_record_effects::{
    a_format_clears_its_page, a_link_changes_its_chain, a_slot_is_laid, a_version_is_laid,
    over_cleared, over_entry, over_place,
};
pub use ctr_store::{MOST_PAGES, Origin, Store};
pub use damage::{a_fault_of_reading_is_counted, tell};
pub use fault::{SearchFault, found_on};
pub use joining::{a_record_behind_a_page, log_record, pages_read_join};
pub use on_page::{a_record_may_be_logged, log_on_page};
pub use table::{TableOf, catalog_page, first_page, search_chain};
