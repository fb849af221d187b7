//! A disk in memory, for tests and suites: it tells what it holds, and fails where a test wants it.
#![tactic(auto)]

mod block;
mod blocks;
mod counts;
mod image;
mod memory;
mod record;
mod silent;
mod sparse;
mod tearing;

pub use image::Image;
pub use memory::MemDisk;
pub use record::{Call, Outcome, Recorded};
pub use silent::SilentDisk;
pub use sparse::Bytes;
