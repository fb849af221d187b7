//! Rows by key: the search through the slots of a page and along a chain of pages, in which way a row is written and what its
//! slot becomes, and the records that lay a slot, make a page empty and put one in front of a chain.
//!
//! Nothing here takes memory, but for the places of keys that the store remembers.
#![tactic(auto)]

mod buckets;
mod fitting;
mod found;
mod recalled;
mod rewriting;
mod slots;
mod ways;
mod writing;

pub use buckets::{find, free_slot};
pub use fitting::{a_way_fits_its_slot, what_is_written_is_a_move};
pub use found::{a_key_is_in_its_bucket, a_search_tells_a_free_slot, a_search_tells_the_key};
pub use rewriting::{a_payload_is_of_its_table, first, replaced, to_keep, written};
pub use slots::{SlotSought, found_in_area, search_slots, slot_lies};
pub use ways::{Way, way_of};
pub use writing::{format, link, put_slot};
