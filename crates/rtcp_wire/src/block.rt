//! Report blocks.

/// What a receiver tells of one source (RFC 3550, section 6.4.1).
#[derive(Clone, Copy, Debug, Default, PartialEq, Eq, Drop)]
pub struct ReportBlock {
    pub ssrc: u32,
    /// The share lost since the last report, in 256ths.
    pub fraction: u8,
    /// Packets lost since the beginning, from -0x800000 to 0x7fffff.
    pub lost: i32,
    /// The greatest sequence number, extended by its cycles.
    pub greatest: u32,
    /// In ticks of the media clock.
    pub jitter: u32,
    /// The middle 32 bits of the last sender report's NTP timestamp, or 0.
    pub lsr: u32,
    /// The delay since that report in units of 2^-16 seconds, or 0.
    pub dlsr: u32,
}
