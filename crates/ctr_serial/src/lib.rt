//! The tape of a script whose lines are run one after another: a law of lists. No program computes it.
#![tactic(auto)]

mod laws;

pub use laws::a_tape_of_lines_is_serial;
