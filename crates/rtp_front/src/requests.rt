//! Requests for packets that are missing.
ghost use Rattle.std.specs.Prelude.{◌≡◌, ◌≤◌, length, IfOk};
ghost use Rattle.front_model.specs.Reports.{nack_bytes as nacks_of};

use rtcp_wire::{Items, Rtcp, nacks, write_compound};
use rtp_units::{Blob, OutOfMemory};
use std::alloc::Global;

/// A generic NACK (RFC 4585, section 6.2.1) from this SSRC for these numbers of a stream.
pub(crate) fn nack_bytes(
    alloc: Global,
    own: u32,
    media: u32,
    numbers: &[u16],
) -> Result<Blob, OutOfMemory>
    requires { length numbers.now ≤ 8192 }
    ensures { IfOk result (λ bytes. bytes ≡ nacks_of own media numbers.now) }
{
    let list = Items::from_vec(nacks(alloc, numbers)?);
    let packet = Rtcp::Nacks {
        sender: own,
        media,
        list,
    };
    write_compound(alloc, &[packet])
}
