//! What a receiver and a history answer.
use rtp_units::Blob;
use thiserror::Error;

/// The packet that a retransmission carried: the session and the SSRC of its stream, its sequence number
/// there, and its bytes, without padding.
#[derive(Debug, Drop)]
pub struct Restored {
    pub session: u8,
    pub ssrc: u32,
    pub seq: u16,
    pub bytes: Blob,
}

/// Why a packet was not restored, in the order of the tests.
#[derive(Clone, Copy, Debug, PartialEq, Eq, Drop, Error)]
pub enum RtxFault {
    /// The payload has fewer than the two bytes of the original sequence number.
    #[error("no whole original sequence number")]
    Short,
    /// The payload type carries no retransmissions in this session.
    #[error("a payload type that carries no retransmissions")]
    UnknownPt,
    /// The original stream is not known.
    #[error("the original stream is not known")]
    UnknownSsrc,
    /// Several streams asked for this number. These are the first two, in the order of their oldest kept
    /// request for it.
    #[error("streams {first:08x} and {second:08x} both asked for this number")]
    Ambiguous { first: u32, second: u32 },
    /// Memory was refused.
    #[error("out of memory")]
    OutOfMemory,
}

/// A retransmission: the session that carries it, and its bytes, without padding.
#[derive(Debug, Drop)]
pub struct Retransmission {
    pub session: u8,
    pub bytes: Blob,
}
