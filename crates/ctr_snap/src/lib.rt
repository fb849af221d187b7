//! Snapshots: which transactions' versions a session sees, and the low mark, below which every snapshot
//! sees what is committed.
#![tactic(auto)]

mod low;
mod snapshot;

pub use low::{least_of, low_mark};
pub use snapshot::{Snapshot, has};
