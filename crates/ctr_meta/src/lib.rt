//! The tables of transactions: what the records of a log leave of them, and what a session sees by them.
#![tactic(auto)]

mod items;
mod listing;
mod meta;
mod needs;
mod room;
mod seen;
mod xids;

pub use ctr_rec::{Bytes, Overlay, PageNo};
pub use items::Wanted;
pub use meta::Meta;
pub use room::{Room, room_for, tables_fold, xids_last};
pub use seen::{is_changed, is_seen};
