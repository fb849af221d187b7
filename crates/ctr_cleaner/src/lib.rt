//! The cleaner's turn: at a position of a pass the first step that has something to do is taken, by one record; where none has, the pass goes on.
//!
//! Nothing here takes memory.
#![tactic(auto)]

mod done;
mod emptying;
mod entries;
mod going;
mod kept;
mod keys;
mod laws;
mod rows;
mod states;
mod turning;

pub use ctr_emptying::{
    Position, a_pass_goes_from_position_to_position, a_pass_goes_on, a_position_stays,
    a_turn_goes_on, is_there, look_older,
};
pub use ctr_locking::{a_cleaned_world_is_kept, what_nobody_has_locked_is_free};
pub use ctr_page::bucket_of;
pub use done::{CleanTurn, MayEmpty};
pub use laws::{
    a_pass_that_finds_nothing_leaves_it_bare, what_is_found_stays, what_is_unseen_is_due,
};
pub use turning::turn;
