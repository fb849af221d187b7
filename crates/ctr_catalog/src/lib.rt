//! Tables by name: the search through the entries on a page of the catalog; and the free entries of a store's.
//!
//! Nothing here takes memory but `schema`, for the columns that it gives.
#![tactic(auto)]

mod columns;
mod entries;
mod finding;
mod showing;
mod store;
mod writing;

pub use columns::{SchemaRefusal, schema};
pub use ctr_alloc::{NextFree, alloc, next_free};
pub use entries::{ENTRIES_ON_PAGE, find_free, found_in_area};
pub use finding::{ChangeAt, changed, changed_from, find};
pub use showing::{what_changed_answers_is_told, what_find_answers_is_found};
pub use store::{a_free_entry_is_the_lowest, find_free_entry};
pub use writing::{CatalogRefusal, create, drop_table, undo_item};
