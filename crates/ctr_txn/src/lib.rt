//! The transactions of sessions over a store: their snapshots and numbers, who asked for a commit, and what room is kept
//! for what they still do.
#![tactic(auto)]

mod answering;
mod laws;
mod logging;
mod numbers;
mod reserving;
mod turns;
mod txn;
mod txns;

pub use answering::Answering;
pub use laws::{room_that_is_kept_is_there, the_room_of_all_stays, the_run_is_of_the_sessions};
pub use numbers::Numbers;
pub use txn::{Asked, Txn};
pub use txns::{SESSIONS, Txns};
