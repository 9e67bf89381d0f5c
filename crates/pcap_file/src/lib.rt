//! Captures of packets in the pcap savefile format, record by record, and the UDP datagrams in their
//! frames.
#![tactic(auto)]

mod fault;
mod frame;
mod header;
mod network;
mod order;
mod pcap;
mod record;
#[cfg(test)]
mod tests;
mod udp;
mod write;

pub use fault::CaptureFault;
pub use frame::datagram;
pub use header::is_link;
pub use order::Order;
pub use pcap::{Opened, Pcap, open_any, open_capture};
pub use record::{MAX_LENGTH, MAX_RECORDS, PcapRecord};
pub use udp::{Datagram, Skip};
pub use write::{header_bytes, record_bytes};
