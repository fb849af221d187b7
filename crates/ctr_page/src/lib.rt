//! What stands on a page: its header, entries of the catalog, slots of rows, entries of older versions.
//!
//! Nothing here takes memory or copies a page: what is read borrows the page's bytes.
#![tactic(auto)]

mod checks;
mod entry;
mod header;
mod putting;
mod rows;
mod table;
mod walk;

pub use checks::{
    BadPage, Chain, check_entry, check_header, check_slot, check_version, damage_differs,
    kinds_width,
};
pub use ctr_value::row_by_kinds;
pub use entry::{CatalogEntry, EntryState, make_entry, read_entry};
pub use header::{Header, PageKind, make_header, read_header};
pub use rows::{
    Place, RowSlot, Tombstone, Use, Version, VersionEntry, make_slot, make_version, read_slot,
    read_version,
};
pub use table::{bucket_of, kept_size, room_for, slot_size};
pub use walk::BadChain;
