//! Why bytes are no RTP packet.

use thiserror::Error;

/// The first test that bytes fail, in the order of the variants.
#[derive(Clone, Copy, Debug, PartialEq, Eq, Drop, Error)]
pub enum RtpFault {
    /// Fewer than 12 bytes.
    #[error("fewer bytes than a header has")]
    Short,
    /// The version is not 2.
    #[error("the version is not 2")]
    Version,
    /// Fewer bytes than the header and its CSRCs have.
    #[error("the CSRCs are cut off")]
    Csrc,
    /// The four bytes that begin the header extension, or the words that they count, are not all there.
    #[error("the header extension is cut off")]
    Extension,
    /// The padding bit is set, and no byte is left behind the header, or the last byte is 0 or counts
    /// more bytes than are left.
    #[error("the padding count fits no packet")]
    Padding,
}
