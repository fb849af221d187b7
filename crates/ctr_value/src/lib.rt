//! Rows: their payloads, which stand on pages and in records, and their texts.
#![tactic(auto)]

mod payload;
mod said;
mod text;

pub use payload::{
    PayloadError, decode_row, encode_row, field_width, one_payload, put_text, said_by_payload,
    width, written_payload,
};
pub use said::row_by_kinds;
pub use text::write_row;
