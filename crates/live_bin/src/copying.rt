//! Copies of packets.

ghost use Rattle.std.specs.Prelude.{◌≡◌, IfOk};

use jitter_core::{Arrival, Packet};
use rtp_units::{Blob, OutOfMemory};
use std::alloc::Global;

/// An equal packet.
pub fn copied(alloc: Global, a: &Arrival) -> Result<Arrival, OutOfMemory>
    ensures { IfOk result (λ b. b ≡ a.now) }
{
    let bytes = Blob::copy_of(alloc, a.packet.bytes.bytes())?;
    Ok(Arrival {
        pusher: a.pusher,
        k: a.k,
        stamp: a.stamp,
        origin: a.origin,
        packet: Packet {
            seq: a.packet.seq,
            rtp: a.packet.rtp,
            pt: a.packet.pt,
            marker: a.packet.marker,
            payload: a.packet.payload,
            bytes,
        },
    })
}
