//! The model: databases, the reply to each act, which tapes are legal, and what is printed.
//!
//! The definitions stand in specs/ and have no page, buffer or engine in them. The data that they
//! speak of is declared here, with what copies it, compares it and applies changes.
#![tactic(auto)]

mod database;
mod laws;
mod limits;
mod map;
mod state;
mod tape;

pub use database::{Change, Key, Table, apply_all};
pub use laws::{
    legal_states_are_sound, only_asking_changes_rows, replies_are_determined,
    rollbacks_leave_no_trace, snapshots_stay, states_grow,
};
pub use limits::{CATALOG_ENTRIES, MOST_PAGES};
pub use map::Map;
pub use state::{KeyLock, State, Transaction};
pub use tape::{Cause, Command, Point, Progress, Report, Survey};
