//! Whether a row is locked, by the locks of sessions and the names of tables.
//!
//! Nothing here takes memory.
#![tactic(auto)]

mod locking;

pub use ctr_cleaning::{a_cleaned_world_is_kept, what_nobody_has_locked_is_free};
pub use ctr_titles::{TitleRead, title_at};
pub use locking::is_locked;
