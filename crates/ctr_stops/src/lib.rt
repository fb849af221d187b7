//! What a stop leaves of a run on pages: at each moment the rows of a prefix of the commit order, with every commit that was
//! answered by then. Definitions, and laws of them. No program computes them.
#![tactic(auto)]

mod pages;
mod stops;
mod world;

pub use ctr_kept::{
    a_commit_is_asked_for, a_number_is_drawn, a_page_is_given_back, a_reader_ends,
    a_refusal_outside_is_kept, a_rollback_begins, a_rollback_ends, a_session_begins,
    a_table_is_undone, a_turn_without_an_entry_is_kept, a_write_is_kept, an_orphan_is_ended,
    locks_and_reads_are_kept, recovery_is_in_no_transaction, time_and_growth_are_kept,
    who_draws_a_number_has_no_page, who_rolls_back_is_at_its_rollback,
};
pub use ctr_store::Store;
pub use pages::{an_action_keeps_the_pages, growth_keeps_the_pages};
pub use stops::{
    a_call_that_ends_leaves_a_prefix, a_growth_leaves_a_prefix, a_record_more_leaves_a_prefix,
    an_opened_store_keeps_commits, answers_leave_a_prefix, what_is_left_opens,
};
pub use world::{a_turn_of_a_world_is_kept, a_world_begins, answers_and_growth_are_kept};
