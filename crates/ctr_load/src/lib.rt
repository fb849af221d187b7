//! The generated script: a load for trying an engine, drawn from a number of sessions, a number of rounds and a seed.
#![tactic(auto)]

mod draws;
mod laws;
mod making;
mod statements;

pub use laws::{generated_lines_are_of_the_language, generated_transactions_are_whole};
pub use making::make;
