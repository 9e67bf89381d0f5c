//! Why bytes are no RTCP compound.
ghost use Rattle.std.specs.Prelude.{◌≡◌};
ghost use Rattle.rtcp_wire.specs.declared.fault.RtcpFault.TheVariants.{OutOfMemory as Memory};

use rtp_units::OutOfMemory;
use std::alloc::AllocFailed;
use thiserror::Error;

/// The first test that a compound fails. A number is the offset of the packet that fails it. The headers
/// of all packets are tested before the bodies.
#[derive(Clone, Copy, Debug, PartialEq, Eq, Drop, Error)]
pub enum RtcpFault {
    /// Fewer than four bytes are left where a packet must begin. So it is with no bytes at all.
    #[error("the packet at {0} is cut off")]
    Short(usize),
    /// The version is not 2.
    #[error("the version of the packet at {0} is not 2")]
    Version(usize),
    /// The packet passes the end.
    #[error("the packet at {0} passes the end")]
    Length(usize),
    /// Padding on a packet that is not the last, or a count of it that is 0, no multiple of 4, or
    /// greater than the body.
    #[error("the padding of the packet at {0} is wrong")]
    Padding(usize),
    /// The first packet's type is not 200 to 206.
    #[error("the compound begins with no packet of RTCP")]
    First(usize),
    /// The body, without padding, does not have the form of its type.
    #[error("the packet at {offset} has no body of type {kind}")]
    Body { offset: usize, kind: u8 },
    /// Memory was refused.
    #[error("out of memory")]
    OutOfMemory,
}

impl From<OutOfMemory> for RtcpFault {
    ghost from_gives = { λ _ e. e ≡ Memory };

    fn from(_: OutOfMemory) -> RtcpFault {
        RtcpFault::OutOfMemory
    }
}

impl<T: Drop> From<AllocFailed<T>> for RtcpFault {
    ghost from_gives = { λ _ e. e ≡ Memory };

    fn from(_: AllocFailed<T>) -> RtcpFault {
        RtcpFault::OutOfMemory
    }
}
