//! What the words behind the program's name ask for.
#![tactic(auto)]

mod words;

pub use words::{FRAMES, KEYS, Subcommand, WordsError, command};
