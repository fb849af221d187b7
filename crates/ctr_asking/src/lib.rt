//! Why a Lock or a Read of a statement is refused, or that nothing speaks against it: worked out from pages, tables, transactions and
//! locks, in the order of the refusals.
//!
//! Nothing here takes memory, and nothing is logged.
#![tactic(auto)]

mod asker;
mod asking;
mod columns;
mod found;
mod keys;
mod laws;
mod named;
mod names;
mod values;

pub use asker::{Answer, Asker, me_of};
pub use asking::ask;
pub use ctr_txn::{
    Txns, room_that_is_kept_is_there, the_room_of_all_stays, the_run_is_of_the_sessions,
};
pub use ctr_wishes as wishes;
pub use laws::{
    a_table_that_is_free_is_undropped, what_tells_of_a_name_is_the_models,
    what_tells_of_a_row_is_the_models,
};
