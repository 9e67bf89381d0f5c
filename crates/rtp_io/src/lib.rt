//! What the program sees of the outside: files and sinks as traits that count their faults, a buffer in
//! front of the open file, objects in memory, and the real files and streams.
#![tactic(auto)]

mod failing;
mod host;
mod memory;
mod memory_sink;
mod outside;
mod pull;
mod shelf;
mod step;
mod sure;
mod tape;
#[cfg(test)]
mod tests;
mod write;

pub use host::{HostFiles, HostSink, Stream};
pub use memory::MemoryFiles;
pub use memory_sink::MemorySink;
pub use outside::{Failed, Files, Sink};
pub use pull::{PULL_BYTES, Pull, PullFault};
pub use sure::{SureFiles, SureSink};
pub use write::{read_up_to, write_piece};
