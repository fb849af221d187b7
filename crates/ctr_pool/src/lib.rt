//! Pages in frames, over any backing.
#![tactic(auto)]

mod ages;
mod backing;
mod body;
mod finding;
mod frame;
mod frames;
mod memory;
mod places;
mod pool;

pub use backing::Backing;
pub use body::Body;
pub use frame::Frame;
pub use memory::{Memory, Sheet};
pub use pool::Pool;

/// The number of a record of the log, from 1.
pub type Lsn = u64;
