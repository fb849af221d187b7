//! The head of a rolled back transaction is taken from its row.
//!
//! Nothing here takes memory.
#![tactic(auto)]

mod revert;
mod slots;

pub use ctr_pvs::{LentPart, LentSlot, find_free_entry, keep, row};
pub use revert::revert_row;
