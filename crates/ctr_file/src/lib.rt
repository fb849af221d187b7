//! A disk of four real files in a folder, which tells nothing of what they hold.
#![tactic(auto)]

mod ahead;
mod file_disk;
mod folder;
mod marked;

pub use file_disk::FileDisk;
pub use marked::{Marked, Syncs};
