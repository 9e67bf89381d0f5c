//! What an RTP capture holds, and a first script for it: streams by destination port and SSRC,
//! their payload types with clock rates, and sessions for their ports.
#![tactic(auto)]

mod clock;
mod order;
mod proposal;
mod report;
mod scan;
mod sight;
mod stream;
#[cfg(test)]
mod tests;

pub use report::report_of;
pub use scan::{MAX_STREAMS, Scan};
pub use sight::{Arrival, Sight, sight_of};
