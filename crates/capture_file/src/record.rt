//! A record of a capture file.
use pcap_file::PcapRecord;

/// A record of a capture file.
#[derive(Debug, Drop)]
pub struct CaptureRecord {
    /// The link type of the frame: that of the file in a pcap capture, and that of the packet's
    /// interface in a pcapng file.
    pub link: u16,
    /// The record. Its offset is where it begins in the file, in a pcapng file with its block.
    pub rec: PcapRecord,
}
