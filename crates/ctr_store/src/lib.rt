//! The store: pages and tables are the fold of the log.
#![tactic(auto)]

mod checkpoint;
mod creating;
mod generations;
mod laws;
mod opening;
mod parts;
mod places;
mod redo;
mod seen;
mod spelling;
mod store;

pub use creating::{CreateError, create};
pub use ctr_base::{Lsn, MOST_PAGES, Origin};
pub use ctr_rec::{PageNo, Record};
pub use laws::{redo_makes_the_fold, strays_come_only_of_long_logs, what_a_crash_leaves_is_sound};
pub use opening::BUFFER_BYTES;
pub use parts::Parts;
pub use seen::Seen;
pub use store::{DUE_RECORDS, Generation, Store, TURN_BYTES, TURN_FRAMES};
