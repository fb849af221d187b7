//! Blocks in two homes, pages and the root: at every moment of a writing a crash leaves the old or
//! the new value. No call takes memory.
#![tactic(auto)]

mod block;
mod checks;
mod reading;
mod root;
mod writing;

pub use block::{Block, Home};
pub use checks::{Check, judge};
pub use ctr_bytes::{get_u32, get_u64, put_u32, put_u64};
pub use ctr_disk::{Disk, Failed, StoreFault, write_through};
pub use reading::{is_open, read_home, read_page};
pub use root::{Root, read_root, write_root};
pub use writing::write_home;
