//! A search on pages that pass their checks meets no damage. Definitions, and laws of them. No program computes them.
#![tactic(auto)]

mod catalog;
mod laying;
mod places;
mod tables;
mod versions;

pub use catalog::a_catalog_search_meets_no_damage;
pub use ctr_catalog::{CatalogRefusal, NextFree, alloc, create, drop_table, next_free};
pub use ctr_heap::{
    Way, a_way_fits_its_slot, find, first, format, free_slot, link, put_slot, replaced, slot_lies,
    to_keep, way_of, written,
};
pub use ctr_revert::{LentPart, LentSlot, find_free_entry, keep, row};
pub use laying::{a_slot_is_put_at_its_place, a_version_is_put_at_its_place};
pub use places::{a_place_of_a_table_fits, a_table_can_be_linked_to};
pub use tables::{
    a_bucket_search_meets_no_damage, a_free_slot_is_the_tables, a_search_for_room_meets_no_damage,
    a_table_is_known_without_damage, a_version_entry_is_read_without_damage,
};
pub use versions::{a_head_is_taken_without_damage, a_row_is_read_without_damage};
