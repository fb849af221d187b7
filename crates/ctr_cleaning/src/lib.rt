//! What the cleaner may do while sessions are at work, and that a run keeps it: nothing that a session sees or counts on changes.
//! Definitions, and laws of them. No program computes them.
#![tactic(auto)]

mod laws;

pub use laws::{a_cleaned_world_is_kept, what_is_cleaned_is_kept, what_nobody_has_locked_is_free};
