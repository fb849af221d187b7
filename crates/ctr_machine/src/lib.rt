//! The slow machine: plain code whose contracts are the model's definitions.
//!
//! It computes replies, next states and whether a tape is legal, by lists and maps that it goes over
//! from their start. Tests compare engines with it; no engine stands on it.
#![tactic(auto)]

mod follow;
mod next;
mod refusals;
mod reply;

pub use follow::is_legal;
pub use next::next_state;
pub use reply::{reply_of, reply_to};
