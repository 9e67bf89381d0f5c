//! What a packet that is to be written says.

use arrayvec::ArrayVec;

/// The fields of a packet without padding (RFC 3550, section 5.1).
#[derive(Drop)]
pub struct RtpFields<'a> {
    pub marker: bool,
    /// The payload type, at most 127.
    pub pt: u8,
    pub seq: u16,
    pub timestamp: u32,
    pub ssrc: u32,
    pub csrcs: ArrayVec<u32, 15>,
    /// The 16 bits that the profile defines, and whole words, at most 65,535 of them.
    pub extension: Option<(u16, &'a [u8])>,
    pub payload: &'a [u8],
}
