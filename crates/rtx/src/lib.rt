//! Retransmissions (RFC 4588): restoring the packets that they carry, and making them on request.
//!
//! A `Map` says which payload types and streams carry retransmissions. A `Receiver` restores, a `History`
//! remembers what was sent and answers a generic NACK (RFC 4585, section 6.2.1) number by number.
#![tactic(auto)]

mod answers;
mod history;
pub mod laws;
mod map;
mod outlet;
mod packets;
mod receiver;
mod requests;
mod sent;
mod streams;

pub use answers::{Restored, Retransmission, RtxFault};
pub use history::History;
pub use map::Map;
#[doc(hidden)]
pub use outlet::Outlet;
#[doc(hidden)]
pub use packets::SentPackets;
#[doc(hidden)]
pub use receiver::Original;
pub use receiver::Receiver;
#[doc(hidden)]
pub use requests::{Association, Request};
#[doc(hidden)]
pub use sent::SentPacket;

#[cfg(test)]
mod tests;
