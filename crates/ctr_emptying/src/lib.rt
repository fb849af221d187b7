//! The cleaner's steps in a table that is dead: a page of rows leaves its bucket, a page of versions its chain, and the entry is freed; each by one
//! record.
//!
//! Nothing here takes memory.
#![tactic(auto)]

mod emptied;
mod entry;
mod heads;
mod left;
mod rows;
mod versions;

pub use ctr_clean::{
    Step, a_turn_goes_on, clean_slot, cut_at, forget_at, free_older_at, look_at, look_older,
    make_dead_at, reclaim, revert_at, room_is_still_there, title_at,
};
pub use ctr_cursor::{
    Position, a_pass_comes_by_every_place, a_pass_goes_from_position_to_position, a_pass_goes_on,
    a_position_stays, advance, is_there,
};
pub use emptied::Emptied;
pub use entry::free_entry_at;
pub use rows::unlink_rows_at;
pub use versions::unlink_versions_at;
