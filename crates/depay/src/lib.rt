//! Media units from the payloads that leave a lane: PCMU (RFC 3551, section 4.5.14), and H.264 in single
//! NAL unit packets, STAP-A and FU-A (RFC 6184, packetization mode 1).
//!
//! A `Depay` serves one lane and one payload type. It is given each packet of that type in the order in
//! which the lane puts them out, and told of each gap between them. What a packet and a gap tell is
//! defined in `specs/` over the whole list of what was given.
#![tactic(auto)]

mod aggregate;
mod fragment;
mod laws;
mod outcome;
mod payload;
mod units;

#[doc(hidden)]
pub use fragment::OpenUnit;
pub use laws::units_are_whole;
pub use outcome::{Cause, Format, Outcome};
pub use units::Depay;

#[cfg(test)]
mod tests;
