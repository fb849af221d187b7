//! The workers of a run: one thread for each session, one each for the flusher, the cleaner and undo, which take their turns under one lock.
#![tactic(auto)]

mod gate;
mod named;
mod standing;
mod turns;
mod workers;

pub use gate::{Gate, OpenGate};
pub use named::run_turns;
pub use turns::Turns;
pub use workers::run_all;
