//! One session's RTP and RTCP: which packets go on, which wait in probation, what RTCP tells, and the
//! reports and requests that are sent.
//!
//! A session keeps the table of its sources (`source_table`) and, by SSRC, the packets of sources that
//! are not valid yet. What it answers is what `front_model` defines on the list of all that it was given.
#![tactic(auto)]

mod answers;
mod compound;
mod hearing;
mod held;
mod kept;
pub mod laws;
mod outgoing;
mod session;

pub use answers::{DropCause, Reported, SessionNote, SessionOut};
pub use kept::Kept;
pub use session::Session;

#[cfg(test)]
mod tests;
