#![tactic(auto)]
//! Sources and sinks of bytes, with faults.
//!
//! A [`Source`] gives bytes and a [`Sink`] takes them. Each counts its faults, the reads or writes that failed, and
//! returns [`Failed`] only if this count rose in the call. A read takes the next bytes. A put appends its piece; if it
//! fails, it appends a prefix of the piece. [`read_whole`] reads a source to its end, up to a limit. [`BufferedSink`]
//! buffers bytes, so another sink receives them in large pieces. The forms in memory fail only as their lists of
//! failing calls say, or when their room is full. A call returns `AllocError` only if memory runs out.

mod buffered;
mod failed;
mod intake;
mod sink;
mod source;
mod standard;

pub use buffered::BufferedSink;
pub use failed::Failed;
pub use intake::{IntakeFault, read_whole};
pub use sink::{MemorySink, QuietSink, Sink};
pub use source::{MemorySource, QuietSource, Source};
pub use standard::{StdSink, StdSource};
