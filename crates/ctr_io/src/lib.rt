//! Where bytes come from and go to: a source and a sink, in memory and over real streams.
//!
//! `ReadSource` and `WriteSink` tell nothing of the bytes: what a real stream holds isn't known.
#![tactic(auto)]

mod calls;
mod edges;
mod memory;
mod streams;

pub use calls::Calls;
pub use ctr_types::{
    Act, Column, Entry, File, Kind, List, OutOfMemory, Refusal, Reply, Row, Rows, Schema, Tape,
    Text, Value,
};
pub use edges::{Failed, Sink, Source};
pub use memory::{MemSink, MemSource};
pub use streams::{ReadSource, WriteSink};
