//! The sessions of a script over pages, a turn each: whose statement is next, which act of it, and the tape of what they were answered.
#![tactic(auto)]

mod acting;
mod laws;
mod releasing;
mod runners;
mod sessions;

pub use acting::{Acted, act};
pub use ctr_control as control;
pub use ctr_control::{session_world, writing};
pub use laws::a_script_begins_in_a_world;
pub use runners::{Runner, Stage};
pub use sessions::Sessions;
