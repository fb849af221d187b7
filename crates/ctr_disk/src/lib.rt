//! What a database stands on: a disk of four files with a stated crash model.
#![tactic(auto)]

mod disk;
mod fault;
mod through;

pub use ctr_types::{Damage, File};
pub use disk::{Disk, Failed};
pub use fault::{Stamp, Stop, StoreFault};
pub use through::write_through;
