//! A World on pages with the sessions of a program: their transactions and their locks. Definitions, and laws of them. No program
//! computes them.
#![tactic(auto)]

mod behind;
mod ending;
mod replies;

pub use behind::pages_that_are_read_keep_a_world;
pub use ctr_told as told;
pub use ctr_told::{
    Asked, Rolled, Txns, a_record_acts, a_record_is_refused_by_the_disk_alone,
    a_turn_goes_or_counts_a_fault, a_turn_is_told_by_its_number, a_turn_of_a_rollback_is_kept, ddl,
    extend, records_without_bytes_lie_as_their_actions, room_is_still_there,
    the_run_is_of_the_sessions, turn, who_rolls_back_is_at_its_rollback, writes,
};
pub use ending::a_turn_that_ends_leaves_a_prefix;
pub use replies::a_session_is_idle_behind_a_reply;
