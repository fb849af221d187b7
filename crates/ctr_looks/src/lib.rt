//! The Read of a SELECT and each Lock over pages: what each answers, and what it makes of transactions, locks and pages.
#![tactic(auto)]

mod drawing;
mod granting;
mod grants;
mod laws;
mod locking;
mod refusing;
mod reserving;
mod selected;
mod selecting;
mod tables;
mod taking;

pub use ctr_asking::{
    Txns, room_that_is_kept_is_there, the_room_of_all_stays, the_run_is_of_the_sessions, wishes,
};
pub use ctr_session_world as session_world;
pub use ctr_session_world::{
    a_turn_goes_or_counts_a_fault, a_turn_is_told_by_its_number, ddl, extend, told,
    who_rolls_back_is_at_its_rollback, writes,
};
pub use laws::a_session_in_a_world_may_look;
pub use locking::{Locked, lock_row};
pub use selecting::read;
pub use tables::{TableLocked, TableWrite, lock_table};
pub use taking::RowAt;
