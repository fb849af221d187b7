//! What the programs that play suites have in common: a suite is text, whose lines are taken one after another; and a line has
//! words.
#![tactic(auto)]

mod playing;
mod words;

pub use playing::{Plays, played};
pub use words::{Words, named, split_at, split_word};
