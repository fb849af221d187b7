//! The log with what waits in it, and the homes of pages, below a pool. A page goes home only when the log is
//! durable up to its LSN, so at every moment a crash leaves the state that was hardened with a prefix of the records
//! that waited.
#![tactic(auto)]

mod backed;
mod base;
mod extent;
mod finding;
mod generations;
mod growing;
mod opening;
mod origin;
mod reading;

pub use base::Base;
pub use ctr_redo::{
    Block, Home, LogFile, Lsn, Meta, OpenError, Pool, ReadError, Root, Visit, Visitor, is_open,
    make_logs, read_all, room_for, write_root,
};
pub use extent::{clear_pages, clearing_leaves_the_state};
pub use growing::{EXTENT, MOST_PAGES};
pub use opening::find_root;
pub use origin::Origin;
