//! Numbers in fields of byte slices.
#![tactic(auto)]

mod fields;

pub use fields::{
    get_i64, get_u8, get_u16, get_u32, get_u64, put_i64, put_u8, put_u16, put_u32, put_u64,
};
