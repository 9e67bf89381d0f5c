//! What the packets of a lane come to.
use rtp_units::Blob;
use thiserror::Error;

/// A payload format.
#[derive(Clone, Copy, Debug, PartialEq, Eq, Drop)]
pub enum Format {
    /// G.711 mu-law: each payload is a unit.
    Pcmu,
    /// H.264 in packetization mode 1. Units are NAL units, without a start code.
    H264,
}

/// Why a packet or the packets of a unit that was open give no unit, in the order of the tests.
#[derive(Clone, Copy, Debug, PartialEq, Eq, Drop, Error)]
pub enum Cause {
    /// The packet has no payload.
    #[error("no payload")]
    Empty,
    /// The NAL unit type, or that in the FU header, is one of no unit that is read here.
    #[error("a NAL unit type that is not read")]
    Kind,
    /// The sizes in a STAP-A don't fill it with units.
    #[error("a STAP-A whose sizes do not fill it")]
    Size,
    /// An FU-A without its FU header, with both the start and the end bit, or without the start bit where it
    /// goes on with no unit.
    #[error("a fragment that is no part of a unit")]
    Fragment,
    /// The unit would pass 1,048,576 bytes.
    #[error("a unit of more than 1048576 bytes")]
    Large,
    /// The open unit is not gone on with.
    #[error("a unit without its end")]
    Incomplete,
}

/// A unit, or that there is none.
#[derive(Debug, Drop)]
pub enum Outcome {
    /// A whole unit: the numbers of its first and its last packet, the presentation time of the first in
    /// nanoseconds, and its bytes.
    Unit {
        first: u64,
        last: u64,
        pts: u64,
        bytes: Blob,
    },
    /// No unit: the number of the packet, or for `Incomplete` that of the open unit's first packet.
    Broken {
        number: u64,
        cause: Cause,
    },
}
