//! A UDP datagram, and why there is none.
use rtp_units::Address;
use thiserror::Error;

/// A UDP datagram. Its payload lies in the record.
#[derive(Clone, Copy, Debug, PartialEq, Eq)]
pub struct Datagram<'a> {
    pub from: Address,
    pub to: Address,
    pub payload: &'a [u8],
}

/// Why a record has no datagram.
#[derive(Clone, Copy, Debug, PartialEq, Eq, Drop, Error)]
pub enum Skip {
    /// The record includes fewer bytes than the frame had.
    #[error("cut")]
    Cut,
    /// The frame carries no IP packet.
    #[error("not-ip")]
    NotIp,
    /// The IP packet is a fragment.
    #[error("fragment")]
    Fragment,
    /// The IP packet carries no UDP datagram.
    #[error("not-udp")]
    NotUdp,
    /// Bytes are missing, or a header's fields contradict each other.
    #[error("malformed")]
    Malformed,
    /// The payload is longer than 9,216 bytes.
    #[error("big")]
    Big,
}
