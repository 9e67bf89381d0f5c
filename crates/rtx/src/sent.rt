//! Packets that were sent.
ghost use Rattle.std.specs.Prelude.{◌≡◌, IfOk};

use rtp_units::{Blob, OutOfMemory};
use rtp_wire::laws::packets_are_their_bytes;
use rtp_wire::{RtpView, read};
use std::alloc::Global;
use std::marker::Model;

/// A packet with bytes of its own. Contracts see the packet.
#[derive(Drop)]
pub struct SentPacket {
    seq: u16,
    bytes: Blob,
}

impl Model for SentPacket {
    ghost use Rattle.std.specs.Prelude.{◌≡◌, None};
    ghost use Rattle.rtp_wire.specs.Network.{number16};
    ghost use Rattle.rtp_wire.specs.Packet.{Packet, first_fault};
    ghost use Rattle.rtp_wire.specs.View.{packet_of};

    ghost Value = { Packet };

    ghost view = { λ s. packet_of s.bytes };

    ghost invariant = { λ s. (first_fault s.bytes ≡ None) × (s.seq ≡ number16 s.bytes 2) };
}

impl SentPacket {
    pub(crate) fn copy_of(alloc: Global, view: &RtpView<'_>) -> Result<SentPacket, OutOfMemory>
        ensures { IfOk result (λ sent. sent ≡ view.now) }
    {
        packets_are_their_bytes();
        Ok(SentPacket {
            seq: view.seq(),
            bytes: Blob::copy_of(alloc, view.bytes())?,
        })
    }

    pub(crate) fn seq(&self) -> u16
        ensures { result ≡ self.now.seq }
    {
        self.seq
    }

    pub(crate) fn view(&self) -> RtpView<'_>
        ensures { result ≡ self.now }
    {
        match read(self.bytes.bytes()) {
            Ok(view) => view,
            Err(_) => unreachable!(),
        }
    }
}
