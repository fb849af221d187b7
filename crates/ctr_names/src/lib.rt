//! Chains of names: what the entries of the catalog are to the chain of a name, what each record on them does to it, what a
//! search of the catalog finds of it, and who keeps a name from others. Definitions and laws; no program computes them.
#![tactic(auto)]

mod finding;
mod keeping;
mod owners;
mod records;
mod standing;

pub use ctr_record_laws::{
    BadPage, CatalogEntry, EntryState, Meta, check_entry, is_changed, is_seen, make_entry,
    read_entry,
};
pub use finding::{
    a_held_name_can_be_made_or_dropped, the_view_has_what_is_found, what_a_session_finds_is_shown,
    what_stands_at_a_number_is_shown, who_changed_a_name_is_told,
};
pub use keeping::{
    a_held_name_is_alone, names_are_kept_over_items, names_are_kept_over_sessions,
    recovery_keeps_the_names_of_items,
};
pub use owners::{
    a_name_has_one_owner, one_title_is_of_one_chain, only_heads_are_open,
    the_rows_of_an_image_are_shown,
};
pub use records::{
    a_create_writes_its_name, a_drop_writes_its_name, a_dying_table_shows_the_same,
    a_freed_entry_shows_the_same, an_undone_item_takes_its_version,
    records_on_transactions_leave_names,
};
pub use standing::{
    names_stand_at_open, names_stand_over_a_commit, names_stand_over_an_end,
    names_stand_over_titles,
};
