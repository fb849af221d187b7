//! The versions of a row: the one that a session sees, and the newest that is committed.
//!
//! Nothing here takes memory but the row that is given.
#![tactic(auto)]

mod committed;
mod looking;
mod reading;
mod rows;
mod seeking;
mod showing;
mod view;

pub use committed::newest;
pub use ctr_pvs::{records_without_bytes_lie_as_their_actions, row_in, table_on};
pub use showing::{a_changed_row_is_told, a_slot_is_read_as_its_row};
pub use view::{ReadRefusal, visible, visible_of};
