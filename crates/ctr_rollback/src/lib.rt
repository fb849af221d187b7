//! A rollback on pages, by turns of one record each: a session's own items of the secondary log, the latest first, and then
//! one mark, however many rows were changed.
//!
//! Nothing here takes memory.
#![tactic(auto)]

mod calls;
mod laws;
mod rolling;

pub use calls::undo;
pub use ctr_page_turns::{
    a_record_acts, a_record_is_refused_by_the_disk_alone, a_turn_goes_or_counts_a_fault,
    a_turn_is_told_by_its_number, records_without_bytes_lie_as_their_actions, room_is_still_there,
};
pub use ctr_stops::{
    a_call_that_ends_leaves_a_prefix, a_commit_is_asked_for, a_number_is_drawn,
    a_page_is_given_back, a_reader_ends, a_refusal_outside_is_kept, a_session_begins,
    a_table_is_undone, a_turn_of_a_world_is_kept, a_world_begins, a_write_is_kept,
    an_action_keeps_the_pages, an_orphan_is_ended, answers_and_growth_are_kept,
    locks_and_reads_are_kept, recovery_is_in_no_transaction, time_and_growth_are_kept,
    who_draws_a_number_has_no_page, who_rolls_back_is_at_its_rollback,
};
pub use ctr_txn::{Asked, Txns, the_run_is_of_the_sessions};
pub use laws::{a_rollback_takes_a_turn_an_item, a_turn_of_a_rollback_is_kept};
pub use rolling::{Rolled, turn};
