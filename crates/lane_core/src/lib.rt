//! Lanes: the buffer of each stream along the timeline, with the lines that tell of it. A lane
//! knows no front: what it asks for again in a series of turns is answered, and the caller sends
//! it.
#![tactic(auto)]

mod actions;
mod counts;
mod lane;
mod lanes;
pub mod laws;
mod replies;
#[cfg(test)]
mod tests;

pub use counts::Counts;
pub use lane::Lane;
pub use lanes::{MAX_LANES, control, done_line, open};
