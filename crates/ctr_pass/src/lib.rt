//! The cleaner's pass in a World: where it is, and whether anything happened since it began.
//!
//! Nothing here takes memory, but for the places of keys that the store remembers.
#![tactic(auto)]

mod going;
mod keeping;
mod laws;
mod pass;
mod reading;
mod sparing;

pub use ctr_cleaner::{
    MayEmpty, a_pass_goes_from_position_to_position, a_pass_goes_on,
    a_pass_that_finds_nothing_leaves_it_bare, a_position_stays, what_is_found_stays,
};
pub use ctr_exec::control::{Txns, flush, make_room};
pub use ctr_exec::session_world::{
    a_turn_that_ends_leaves_a_prefix, pages_that_are_read_keep_a_world,
};
pub use ctr_exec::writing::what_a_write_counts_on_stays;
pub use ctr_exec::{Sessions, a_script_begins_in_a_world};
pub use going::{Went, clean_from};
pub use keeping::{
    a_pass_begins, a_pass_is_kept_beside_others, a_pass_is_kept_by_its_turn, an_idle_pass_is_kept,
    an_idle_pass_leaves_it_bare,
};
pub use laws::{a_calm_tape_leaves_who_is_inside, the_cleaner_leaves_the_sessions};
pub use pass::{Pass, Phase, keeps_room};
pub use reading::read_for;
pub use sparing::{
    nobody_inside_locks_nothing, room_for_the_cleaner_leaves_the_sessions,
    what_was_cleaned_leaves_the_sessions,
};
