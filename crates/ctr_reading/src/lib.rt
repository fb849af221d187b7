//! The rows of a table that a session sees, read from pages: all of them in the order of their keys, or the one of a key; and when
//! rows are those of the session's view.
//!
//! Nothing here takes memory but the rows that are given.
#![tactic(auto)]

mod chains;
mod gathered;
mod gathering;
mod key;
mod laws;
mod pages;
mod sight;
mod slots;
mod table;

pub use ctr_undamaged::{
    a_bucket_search_meets_no_damage, a_catalog_search_meets_no_damage, a_place_of_a_table_fits,
    a_row_is_read_without_damage, a_version_entry_is_read_without_damage, find,
};
pub use ctr_views as views;
pub use ctr_views::{
    ReadRefusal, SchemaRefusal, a_scan_gives_the_table, an_action_meets_its_needs, schema, table_on,
};
pub use ctr_walk::an_entry_has_columns;
pub use key::row_of_key;
pub use laws::rows_are_those_of_the_view;
pub use pages::{PageSlots, next_page, slots_on};
pub use sight::Sight;
pub use table::rows_of_table;
