//! The title of an entry of the catalog, as it is read from a store: its state, who made and dropped the table, and its name.
//!
//! Nothing here takes memory.
#![tactic(auto)]

mod name;
mod reading;

pub use name::ShortName;
pub use reading::{TitleRead, title_at};
