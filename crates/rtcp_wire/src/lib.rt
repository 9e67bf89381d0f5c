//! RTCP compounds as bytes (RFC 3550, section 6; RFC 4585, section 6).
//!
//! `read_compound` tests a datagram and gives its packets, `write_compound` makes the datagram of a list
//! of packets, and `nacks` packs missing sequence numbers into the entries of a generic NACK.
#![tactic(auto)]

mod block;
mod bye;
mod compound;
mod entries;
mod fault;
mod header;
mod items;
mod packet;
mod pieces;
mod reports;
mod sdes;
mod writing;

pub use block::ReportBlock;
pub use compound::read_compound;
pub use entries::nacks;
pub use fault::RtcpFault;
pub use items::Items;
pub use packet::{Chunk, Nack, Rtcp, SdesItem};
pub use writing::write_compound;

#[cfg(test)]
mod tests;
