//! Devices, in memory and any other, and what goes through them.
//!
//! A `Source` gives bytes and a `Sink` takes them; both count the calls that failed. The layer above reads a source to
//! its end or to a limit, and writes texts whole. A failed call ends that, and the clauses say which bytes went through
//! until then.
#![tactic(auto)]

mod devices;
mod memory;
mod streams;
mod transfer;

pub use base::NoMemory;
pub use devices::{Failed, Sink, Source};
pub use memory::{CleanSource, CountSink, MemorySink, MemorySource};
pub use streams::{ReaderSource, StdErrSink, StdSink, StdSource, WriterSink};
pub use transfer::{ReadFault, WriteFault, read_up_to, write_buffered, write_pieces, write_whole};
