//! The calls over a disk that no session takes part in: a database is made, and what one holds is counted.
#![tactic(auto)]

mod counting;
mod making;

pub use counting::survey;
pub use ctr_run as running;
pub use making::{a_new_database_is_empty, create};
