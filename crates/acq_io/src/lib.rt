//! Where bytes come from, where they go, and how lines are read.
//!
//! A source may tell the bytes that are still to come, and a sink those that were written: both are
//! seen as optional lists of bytes, beside a count of faults. Those in memory tell; the adapters of
//! std don't. The floor above may rely on this: what is read, taken and written is exact wherever
//! it is told, which never changes; and a call says that its source or sink failed only where the
//! count of faults rose, whether or not the bytes are told.
//!
//! What a line is, and what is left after it, is said by the function `line_of` on bytes, and for
//! readings into memory by `first_line_of` and `all_of`.
#![tactic(auto)]

pub mod laws;
mod lines;
mod memory;
mod plain;
mod standard;
mod streams;
mod whole;

pub use lines::{Line, LineGot, read_line};
pub use memory::{MemSink, MemSource};
pub use plain::{PlainSink, PlainSource};
pub use standard::{StdSink, StdSource};
pub use streams::{Failed, Put, Sink, Source, read_byte};
pub use whole::{AllFault, read_all, read_first_line};
