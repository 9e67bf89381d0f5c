//! Small types that several crates name.

/// How a buffer follows the sender's clock.
#[derive(Clone, Copy, Debug, PartialEq, Eq, Drop)]
pub enum Mode {
    /// The sender's timestamps are taken as they are: no skew is estimated. A script spells it `none`.
    Plain,
    /// The skew of the sender's clock is estimated from the arrivals. A script spells it `slave`.
    Slave,
}

/// Where a datagram came from or goes to.
#[derive(Clone, Copy, Debug, PartialEq, Eq, Drop)]
pub struct Address {
    /// 4 or 6, the version of the Internet protocol.
    pub family: u8,
    /// An IPv4 address stands in the first four bytes, and zeros fill the rest.
    pub ip: [u8; 16],
    pub port: u16,
}

/// A sender report against the buffer's clock: its NTP time and the presentation time of its RTP
/// timestamp, both in nanoseconds.
#[derive(Clone, Copy, Debug, PartialEq, Eq, Drop)]
pub struct SyncInfo {
    pub ntp_ns: u64,
    pub local: u64,
}

/// A retransmission payload type (RFC 4588, section 8.1): type `pt` of session `session` carries
/// retransmissions of type `apt` of session `osession`.
#[derive(Clone, Copy, Debug, PartialEq, Eq, Drop)]
pub struct RtxLine {
    pub session: u8,
    pub pt: u8,
    pub osession: u8,
    pub apt: u8,
}

/// A pair of streams of one session (RFC 5576, FID): `rtx_ssrc` retransmits what `ssrc` sent.
#[derive(Clone, Copy, Debug, PartialEq, Eq, Drop)]
pub struct Fid {
    pub session: u8,
    pub ssrc: u32,
    pub rtx_ssrc: u32,
}
