//! The sources that a session hears: who is valid, what came of each, and what a report tells of it.
//!
//! A table keeps at most 64 sources in order of first sight. The rules follow RFC 3550, appendices A.1,
//! A.3 and A.8, and are written out in `specs/`.
#![tactic(auto)]

mod answers;
mod counts;
mod jitter;
pub mod laws;
mod maps;
mod run;
mod source;
mod table;

pub use answers::{Named, Refuse};
pub use counts::Counts;
pub use jitter::Jitter;
pub use run::Run;
pub use source::{Heard, Packet, Report, Source};
pub use table::SourceTable;

#[cfg(test)]
mod tests;
