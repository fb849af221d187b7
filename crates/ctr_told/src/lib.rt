//! Turns of a session that end an act: what each tells on the tape keeps a World on pages. Definitions, and laws of them. No
//! program computes them.
#![tactic(auto)]

mod answering;
mod asking;
mod counting;
mod entries;
mod growing;
mod locking;
mod reading;
mod tables;
mod writing;

pub use answering::a_commit_that_is_answered_is_told;
pub use asking::a_commit_that_is_asked_for_is_told;
pub use counting::{a_session_may_count_on_what_holds, a_table_that_is_counted_on_is_found};
pub use ctr_ddl as ddl;
pub use ctr_rollback::{
    Asked, Rolled, Txns, a_call_that_ends_leaves_a_prefix, a_record_acts,
    a_record_is_refused_by_the_disk_alone, a_turn_goes_or_counts_a_fault,
    a_turn_is_told_by_its_number, a_turn_of_a_rollback_is_kept, a_turn_of_a_world_is_kept,
    room_is_still_there, the_run_is_of_the_sessions, time_and_growth_are_kept, turn,
    who_rolls_back_is_at_its_rollback,
};
pub use ctr_views::records_without_bytes_lie_as_their_actions;
pub use ctr_write as writes;
pub use ctr_write::extend;
pub use growing::growth_behind_pages_keeps_a_world;
pub use locking::{a_first_lock_is_told, a_lock_is_told};
pub use reading::{
    a_begin_is_told, a_reader_that_ends_is_told, a_refusal_is_told, rows_that_are_read_are_told,
};
pub use tables::{a_table_may_be_made_or_dropped, a_table_that_is_made_or_dropped_is_told};
pub use writing::{
    a_row_that_is_written_is_told, a_write_that_goes_on_is_kept, a_write_without_a_record,
};
