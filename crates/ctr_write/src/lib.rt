//! The Write of a row on pages, by turns of one record each: a page more is made for it where none has room, a version is kept off its
//! row where that has to be, and the head is laid.
//!
//! What is kept between two turns is how far it is; the row's slot is looked up again in each.
//!
//! Nothing here takes memory.
#![tactic(auto)]

mod copying;
mod extending;
mod keeping;
mod laws;
mod laying;
mod misfit;
mod over;
mod placing;
mod rewriting;
mod stages;
mod writing;

pub use ctr_extend as extend;
pub use laws::a_turn_of_a_write_is_kept;
pub use stages::{Stage, Written};
pub use writing::write;
