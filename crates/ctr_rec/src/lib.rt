//! The records of a log over pages: which there are, and the bytes of each.
#![tactic(auto)]

mod checkpoint;
mod decoding;
mod encoding;
mod fields;
mod lists;
mod record;
mod span;
mod table;

pub use ctr_bytes::{
    get_i64, get_u8, get_u16, get_u32, get_u64, put_i64, put_u8, put_u16, put_u32, put_u64,
};
pub use ctr_types::{Column, Fate, Kind, Name, OutOfMemory, Schema, Xid};
pub use decoding::{BadRecord, decode};
pub use encoding::{bytes_tell, encode, one_form};
pub use fields::{at_most, expect};
pub use lists::{encode_checkpoint, one_list};
pub use record::{Form, Overlay, PageNo, Parts, Record, SlogItem, to_form};
pub use span::Bytes;
pub use table::{Field, Layout, Tag};
