//! The last packets of a stream, found by their number.
ghost use Rattle.std.specs.Prelude.{◌≡◌, ◌<◌, ◌+◌, ◌%◌, [], length, slice_index_or, IfOk};
ghost use Rattle.std.specs.Prelude.{option_copied};
ghost use Rattle.circular_buffer.specs.Buffer.{buffer};
ghost use Rattle.rtx.specs.Sending.{latest_in, pushed};

use crate::sent::SentPacket;
use circular_buffer::HeapCircularBuffer;
use rtp_units::OutOfMemory;
use std::alloc::Global;
use std::marker::Model;

// How many sequence numbers there are.
const NUMBERS: usize = 65_536;

/// The last packets of a stream, the latest first. Contracts see the packets. The latest one with a
/// number is found without a search.
#[derive(Drop)]
pub struct SentPackets {
    packets: HeapCircularBuffer<SentPacket>,
    // How many packets were added, modulo 2^16. At most 65,535 are kept, so this tells them apart.
    added: u16,
    // For each number that a kept packet has: how many were added once the latest of them was.
    added_with: Vec<u16>,
}

impl Model for SentPackets {
    ghost use Rattle.rtp_wire.specs.Packet.{Packet};
    ghost use Rattle.circular_buffer.specs.Buffer.{Buffer};
    ghost use Rattle.rtx.specs.Places.{IsIndexed};

    ghost Value = { Buffer Packet };

    ghost view = { λ s. s.packets };

    ghost invariant = { λ s. IsIndexed s.packets s.added s.added_with.items };
}

/// How many packets were added after the latest one with a number, modulo 2^16.
fn added_since(added: u16, added_with: &Vec<u16>, seq: u16) -> u16
    requires { length added_with.now.items ≡ 65536 }
    ensures sum { (slice_index_or added_with.now.items seq 0 + result) % 65536 ≡ added }
    ensures small { result < 65536 }
{
    added.wrapping_sub(added_with[usize::from(seq)])
}

impl SentPackets {
    /// No packets, with room for so many.
    pub(crate) fn with_capacity(alloc: Global, most: u16) -> Result<SentPackets, OutOfMemory>
        ensures { IfOk result (λ packets. packets ≡ buffer [] most) }
    {
        Ok(SentPackets {
            packets: HeapCircularBuffer::with_capacity(alloc, usize::from(most))?,
            added: 0,
            added_with: Vec::from_elem(alloc, 0, NUMBERS)?,
        })
    }

    /// Adds a packet. Where there is no room for it the oldest one goes.
    pub(crate) fn add(&mut self, sent: SentPacket)
        ensures { self.new ≡ pushed sent self.old }
    {
        self.added = self.added.wrapping_add(1);
        self.added_with[usize::from(sent.seq())] = self.added;
        self.packets.push_front(sent);
    }

    /// The latest packet with this number.
    pub(crate) fn latest(&self, seq: u16) -> Option<&SentPacket>
        ensures { option_copied result ≡ latest_in self.now.items seq }
    {
        let later = added_since(self.added, &self.added_with, seq);
        let sent = self.packets.get(usize::from(later))?;
        // A packet that had the number may be gone, and another one stand there.
        if sent.seq() != seq {
            return None;
        }
        Some(sent)
    }
}
