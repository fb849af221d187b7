//! Plays the lines of a suite: runs under every stop and every failing call, generated scripts of sessions that meet, and what readers say of single lines
//! and records.
#![tactic(auto)]

mod meetings;
mod player;
mod reading;
mod rested;
mod stopped;
mod sweep;

pub use player::Player;
