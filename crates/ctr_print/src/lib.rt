//! Texts on a sink: rows, the transcript of a tape, and the last line of a run.
//!
//! Nothing here takes memory. A `Printer` gathers what is printed into pieces for its sink; after a put
//! that failed nothing more is put.
#![tactic(auto)]

mod count;
mod form;
mod last;
mod line;
mod piece;
mod pieces;
mod printer;
mod refusal;
mod value;
mod whole;

pub use count::{count_answers, count_refusals};
pub use ctr_io::{Column, Failed, Kind, List, OutOfMemory, Row, Schema, Sink, Text, Value};
pub use last::put_last_line;
pub use pieces::put_number;
pub use printer::Printer;
pub use refusal::put_refusal;
pub use value::{put_quoted, put_row, put_row_line, put_value, put_values};
pub use whole::put_run;
