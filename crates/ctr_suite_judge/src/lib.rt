//! What a run begins with and leaves, as plain data, and what the slow machine says of it: of its text, its tape, and what its disk holds.
#![tactic(auto)]

mod calls;
mod databases;
mod device;
mod disks;
mod engine;
mod judge;
mod loads;
mod printed;
mod setup;

pub use databases::Right;
pub use device::{play_calls, play_root};
pub use disks::{disk_of, look_at, sink_of, source_of};
pub use engine::{Engine, Wrong};
pub use judge::{Found, Probe, UNDO_TURNS, answered_by, found_alone, found_in, has_kept, led_from};
pub use loads::{sessions_of, statements_of};
pub use printed::{is_printed, printing_of, put_answered};
pub use setup::{Ask, Counts, Ran, Seen, Setup, Taken, UNCOUNTED, Work, plain_turns, run_words};
