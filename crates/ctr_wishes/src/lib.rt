//! What the Write of an INSERT, UPDATE or DELETE will lay, worked out at its Lock: the head of a row, or why the Write is refused.
//!
//! All memory of a Write is taken here, for what is read on the way and for the head.
#![tactic(auto)]

mod fitting;
mod head;
mod laws;
mod making;
mod preparing;

pub use ctr_reading as reading;
pub use ctr_reading::{ReadRefusal, an_action_meets_its_needs};
pub use head::Head;
pub use laws::{what_is_prepared_is_the_models, what_is_prepared_stays_the_models};
pub use making::Prepared;
pub use preparing::prepare;
