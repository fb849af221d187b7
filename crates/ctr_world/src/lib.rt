//! The World on pages: it steps the sessions of a script, recovery's undo, the flusher and the cleaner over the store of a disk, and
//! keeps the tape.
#![tactic(auto)]

mod beginning;
mod cleaning;
mod engine;
mod laws;
mod left;
mod names;
mod opening;
mod parts;
mod world;

pub use ctr_totals::Totals;
pub use opening::Opening;
pub use world::{Finished, World};
