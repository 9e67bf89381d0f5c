//! What a table answers.
use rtp_units::Address;
use thiserror::Error;

/// Why a packet was not heard, in the order of the tests. The table is then as before.
#[derive(Clone, Copy, Debug, PartialEq, Eq, Drop, Error)]
pub enum Refuse {
    /// The SSRC is the session's own.
    #[error("a packet of this session's own SSRC")]
    Own,
    /// The source is not kept, and 64 are.
    #[error("64 sources are kept already")]
    LimitSources,
    /// The source was first heard from another address.
    #[error("the source was first heard from another address")]
    Collision { kept: Address, new: Address },
    /// Memory was refused.
    #[error("out of memory")]
    OutOfMemory,
}

/// What setting a name did.
#[derive(Clone, Copy, Debug, PartialEq, Eq, Drop)]
pub enum Named {
    /// The source is not kept.
    Unknown,
    /// The source has this name already.
    Same,
    /// The source has this name from now on.
    Changed,
}
