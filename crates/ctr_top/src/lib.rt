//! The commands, from words and bytes to a database and a transcript.
#![tactic(auto)]

mod commands;
mod ending;
mod loading;
mod making;
mod outcome;
mod report;
mod script;

pub use commands::{Ended, run, run_serial};
pub use ctr_database::running::{Gate, OpenGate, Schedule, Workers};
pub use ending::Ending;
pub use outcome::Outcome;
pub use script::{run_script, run_script_on_threads};
