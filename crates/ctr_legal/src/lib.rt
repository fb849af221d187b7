//! What every legal tape keeps, whoever acts and in whatever order: locks of sessions are apart, changes lie
//! under locks, and a table in use stays the one of its snapshot. Definitions of the model alone: no engine
//! and no version is spoken of. An engine's locks are proved to be enough by these.
#![tactic(auto)]

mod laws;

pub use laws::{
    legal_tapes_are_reached, legal_tapes_grow, numbers_are_own, replies_tell, waiting_are_answered,
};
