//! What is read and written: sources and sinks, and all of one or into one.
#![tactic(auto)]

mod calls;
mod file;
mod mem_sink;
mod mem_source;
mod quiet;
mod read;
mod sink;
mod source;
mod write;

pub use file::{FileSink, FileSource};
pub use mem_sink::MemSink;
pub use mem_source::MemSource;
pub use quiet::{QuietSink, QuietSource};
pub use read::{Input, ReadEnd, read_all};
pub use sink::Sink;
pub use source::{Failed, Source};
pub use write::{WriteEnd, write_all, write_pieces};
