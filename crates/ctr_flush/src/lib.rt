//! A turn of the flusher: what waits becomes durable, pages go home, and the log is cut.
//!
//! Nothing here takes memory but the begin of a generation.
#![tactic(auto)]

mod flusher;
mod laws;

pub use flusher::{FlushTurn, turn};
pub use laws::a_sound_state_can_be_listed;
