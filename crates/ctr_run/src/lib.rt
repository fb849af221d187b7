//! Runs a script over the database of a disk: its lines in order, the turns of a list of actors, or its sessions on threads.
#![tactic(auto)]

mod beside;
mod lines;
mod ran;
mod running;

pub use beside::Workers;
pub use ctr_workers::{Gate, OpenGate};
pub use ctr_world::Totals;
pub use lines::Schedule;
pub use ran::{Left, Ran, RunEnd};
pub use running::{run, run_on_threads};
