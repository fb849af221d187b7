//! The cleaner: what is to be done with a slot, and steps of it, each at one place and by one record.
//!
//! Nothing here takes memory.
#![tactic(auto)]

mod choosing;
mod cutting;
mod heads;
mod laws;
mod lists;
mod older;
mod reverting;
mod slots;
mod steps;
mod tables;

pub use choosing::{SlotFacts, SlotTask, facts_of, task_of};
pub use ctr_dead::{
    a_table_can_be_linked_to, a_turn_goes_on, free_table, room_is_still_there, unlink,
};
pub use ctr_titles::title_at;
pub use cutting::cut_at;
pub use laws::nothing_is_left_to_clean;
pub use lists::{forget_at, reclaim};
pub use older::{OlderFacts, free_older_at, look_older};
pub use reverting::revert_at;
pub use slots::clean_slot;
pub use steps::{Step, look_at};
pub use tables::make_dead_at;
