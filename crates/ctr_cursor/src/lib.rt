//! A pass over the places of a database: which position comes behind which, and a step from one to the next.
//!
//! Nothing here takes memory.
#![tactic(auto)]

mod advancing;
mod laws;
mod places;
mod position;
mod staying;
mod there;

pub use advancing::advance;
pub use ctr_reading::{
    a_place_of_a_table_fits, a_row_is_read_without_damage, a_version_entry_is_read_without_damage,
    slots_on,
};
pub use ctr_walk::first_page;
pub use laws::{
    a_pass_comes_by_every_place, a_pass_goes_from_position_to_position, a_pass_goes_on,
};
pub use position::Position;
pub use staying::a_position_stays;
pub use there::is_there;
