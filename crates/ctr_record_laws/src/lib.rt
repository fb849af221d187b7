//! What each record owes and keeps: definitions of what it owes, and laws that an area stays sound by it, what it shows
//! then, and which version entries are in no chain. No program computes them.
#![tactic(auto)]

mod loose;
mod shows;
mod sound;

pub use ctr_area::{
    BadPage, CatalogEntry, EntryState, Meta, check_entry, is_changed, is_seen, make_entry,
    read_entry,
};
pub use loose::{
    a_loose_entry_stays_loose, a_revert_leaves_its_entry, a_spare_copy_is_loose,
    a_spare_copy_stays_spare, a_trim_leaves_its_entries, records_elsewhere_leave_a_slot,
    records_on_pages_leave_a_copy_spare, records_on_pages_leave_a_slot,
    records_on_pages_leave_an_entry_loose, records_on_titles_leave_a_copy_spare,
    records_on_titles_leave_a_slot, records_on_titles_leave_an_entry_loose,
};
pub use shows::{
    a_cut_ends_its_chain, a_free_entry_shows_the_same, a_keep_shows_the_same,
    a_kept_version_is_spare, a_record_leaves_what_the_next_owes, a_revert_takes_the_head,
    a_row_writes_its_chain, a_trim_cuts_its_chain, pages_are_in_bounds,
    records_on_pages_show_the_same,
};
pub use sound::{
    a_begin_stays_sound, a_commit_stays_sound, a_create_stays_sound, a_drop_stays_sound,
    a_forget_stays_sound, a_format_stays_sound, a_free_stays_sound, a_link_stays_sound,
    a_linked_page_leads_on, a_trimmed_entry_stays_sound, an_abort_stays_sound,
    an_alloc_stays_sound, an_uncreate_stays_sound, an_undrop_stays_sound, an_unlink_stays_sound,
    growth_stays_sound,
};
