//! Lines of a dump, before they are text.

use crate::line::Word;
use crate::word::BadPacket;
use rtp_units::Blob;

/// The UDP ports of a datagram.
#[derive(Clone, Copy, Debug, PartialEq, Eq, Drop)]
pub struct Ports {
    pub from: u16,
    pub to: u16,
}

/// What a dump tells of an RTP packet.
#[derive(Clone, Copy, Debug, PartialEq, Eq, Drop)]
pub struct RtpFacts {
    pub pt: u8,
    pub seq: u16,
    pub timestamp: u32,
    pub ssrc: u32,
    pub marker: bool,
    /// How many CSRCs there are.
    pub csrcs: u64,
    /// How many words the extension has, 0 where there is none.
    pub words: u64,
    /// How many bytes of padding there are, 0 where there is none.
    pub padding: u8,
    /// The payload's length in bytes.
    pub len: u64,
}

/// One line of a dump. Records count from 1, times are nanoseconds since the first record.
#[derive(Debug, Drop)]
pub enum DumpLine {
    /// A datagram with an RTP packet.
    Rtp {
        record: u64,
        time: u64,
        ports: Ports,
        facts: RtpFacts,
    },
    /// A datagram with an RTCP compound: the types of its packets, in order.
    Rtcp {
        record: u64,
        time: u64,
        ports: Ports,
        types: Blob,
    },
    /// A datagram whose payload is to be read as RTCP and is no compound: why, and the offset of the
    /// packet that is bad.
    BadRtcp {
        record: u64,
        time: u64,
        ports: Ports,
        bad: BadPacket,
    },
    /// A datagram whose payload is to be read as RTP and is none.
    Bad {
        record: u64,
        time: u64,
        ports: Ports,
        word: Word,
    },
    /// A record without a datagram.
    Skip {
        record: u64,
        time: u64,
        reason: Word,
    },
    /// The end of a dump.
    Done {
        records: u64,
    },
}
