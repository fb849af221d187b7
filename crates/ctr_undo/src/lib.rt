//! Undo on pages, by turns of one record each: the items of the secondary log that a stop left, the latest first, and then
//! one mark for each transaction that it left open.
//!
//! A turn takes no memory: its list is made as a store is opened.
#![tactic(auto)]

mod calls;
mod laws;
mod list;
mod naming;
mod turning;

pub use ctr_rollback::{
    a_call_that_ends_leaves_a_prefix, a_world_begins, recovery_is_in_no_transaction,
};
pub use laws::{
    a_name_is_released_with_its_last_item, a_turn_of_undo_is_kept, names_of_what_is_left_stay,
    undo_takes_a_turn_an_item,
};
pub use list::{UndoItem, UndoList};
pub use naming::NamesRefusal;
pub use turning::{UndoTurn, turn};
