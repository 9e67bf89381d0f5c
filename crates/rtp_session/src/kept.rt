//! Packets with bytes of their own.
ghost use Rattle.std.specs.Prelude.{◌≡◌, ◌≤◌, length, IfOk};
ghost use Rattle.front_model.specs.Probation.{kept_at};

use rtp_units::{Blob, OutOfMemory};
use rtp_wire::laws::packets_are_their_bytes;
use rtp_wire::{RtpView, read};
use std::alloc::Global;
use std::marker::Model;

/// A packet of at most 65,535 bytes with the time at which it came, in nanoseconds, and bytes of its own.
/// Contracts see the time and the packet.
#[derive(Drop)]
pub struct Kept {
    stamp: u64,
    bytes: Blob,
}

impl Model for Kept {
    ghost use Rattle.std.specs.Prelude.{◌≡◌, ◌≤◌, length, None};
    ghost use Rattle.rtp_wire.specs.Packet.{first_fault};
    ghost use Rattle.rtp_wire.specs.View.{packet_of};
    ghost use Rattle.front_model.specs.Probation.{Kept as KeptPacket, kept_at};

    ghost Value = { KeptPacket };

    ghost view = { λ k. kept_at k.stamp (packet_of k.bytes) };

    ghost invariant = { λ k. (first_fault k.bytes ≡ None) × (length k.bytes ≤ 65535) };
}

impl Kept {
    /// A copy of a packet that came at `now`.
    pub(crate) fn copy_of(alloc: Global, now: u64, view: &RtpView<'_>) -> Result<Kept, OutOfMemory>
        requires { length view.now.bytes ≤ 65535 }
        ensures { IfOk result (λ kept. kept ≡ kept_at now view.now) }
    {
        // A law for the proof; the call does nothing.
        packets_are_their_bytes();
        Ok(Kept {
            stamp: now,
            bytes: Blob::copy_of(alloc, view.bytes())?,
        })
    }

    /// When it came.
    pub fn stamp(&self) -> u64
        ensures { result ≡ self.now.stamp }
    {
        self.stamp
    }

    /// The packet.
    pub fn packet(&self) -> RtpView<'_>
        ensures value { result ≡ self.now.packet }
        ensures small { length result.bytes ≤ 65535 }
    {
        // A law for the proof; the call does nothing.
        packets_are_their_bytes();
        match read(self.bytes.bytes()) {
            Ok(view) => view,
            Err(_) => unreachable!(),
        }
    }

    /// How many bytes its payload has.
    pub fn payload_size(&self) -> u16
        ensures { result ≡ length self.now.packet.payload }
    {
        let packet = self.packet();
        // The bytes of a packet are all of its fields, so that the payload has no more.
        let _bytes = packet.bytes();
        packet.payload().len() as u16
    }

    /// The packet's bytes, with no copy.
    pub fn into_bytes(self) -> Blob
        ensures { result ≡ self.packet.bytes }
    {
        self.bytes
    }
}
