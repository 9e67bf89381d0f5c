//! Which lane a packet goes to, by its stream, and which payload types have been seen.
//!
//! A lane is a stream of a session: its SSRC there. Lanes are numbered from 0 over all sessions, in the
//! order of first sight. Only making a demultiplexer takes memory.
#![tactic(auto)]

mod lanes;
pub mod laws;
mod types;

pub use lanes::{LaneOf, SsrcDemux};
pub use types::{PtDemux, PtRoute, Route};

#[cfg(test)]
mod tests;
