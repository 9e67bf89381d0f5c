//! A packet as its bytes show it.
ghost use Rattle.std.specs.Prelude.{◌≡◌, ◌≤◌, option_map, IfSome};
ghost use Rattle.rtp_wire.specs.Packet.{AreWords, IsPacket};

use crate::header::{csrcs_of, extension_of};
use crate::network::{u16_at, u32_at};
use arrayvec::ArrayVec;
use std::marker::Model;

/// A packet that was read. It borrows the packet's bytes, and contracts see it as a `Packet`.
#[derive(Drop)]
pub struct RtpView<'a> {
    pub(crate) bytes: &'a [u8],
    pub(crate) header_end: usize,
    pub(crate) padding: u8,
}

impl<'a> Model for RtpView<'a> {
    ghost use Rattle.rtp_wire.specs.Packet.{Packet};

    ghost Value = { Packet };

    ghost use Rattle.rtp_wire.specs.View.{packet_of, IsRead};

    ghost view = { λ v. packet_of v.bytes.now };

    ghost invariant = { λ v. IsRead v.bytes.now v.header_end v.padding };
}

impl<'a> RtpView<'a> {
    /// The marker, whose meaning the profile defines.
    pub fn marker(&self) -> bool
        ensures { result ≡ self.now.marker }
    {
        self.bytes[1] >> 7 == 1
    }

    /// The payload type, from 0 to 127.
    pub fn pt(&self) -> u8
        ensures value { result ≡ self.now.pt }
        ensures small { result ≤ 127 }
    {
        self.bytes[1] & 0x7f
    }

    /// The sequence number.
    pub fn seq(&self) -> u16
        ensures { result ≡ self.now.seq }
    {
        u16_at(self.bytes, 2)
    }

    /// The timestamp, in ticks of the payload type's clock.
    pub fn timestamp(&self) -> u32
        ensures { result ≡ self.now.timestamp }
    {
        u32_at(self.bytes, 4)
    }

    /// The source.
    pub fn ssrc(&self) -> u32
        ensures { result ≡ self.now.ssrc }
    {
        u32_at(self.bytes, 8)
    }

    /// The contributing sources.
    pub fn csrcs(&self) -> ArrayVec<u32, 15>
        ensures { result.items ≡ self.now.csrcs }
    {
        csrcs_of(self.bytes)
    }

    /// The 16 bits that the profile defines, and the bytes of whole words behind them.
    pub fn extension(&self) -> Option<(u16, &'a [u8])>
        ensures value { option_map (λ x. (x.0, x.1.now)) result ≡ self.now.extension }
        ensures words { IfSome result (λ x. AreWords x.1.now) }
    {
        extension_of(self.bytes)
    }

    /// The payload, without padding.
    pub fn payload(&self) -> &'a [u8]
        ensures { result.now ≡ self.now.payload }
    {
        let end = self.bytes.len() - usize::from(self.padding);
        &self.bytes[self.header_end..end]
    }

    /// How many bytes of padding follow the payload.
    pub fn padding(&self) -> u8
        ensures { result ≡ self.now.padding }
    {
        self.padding
    }

    /// All bytes of the packet.
    pub fn bytes(&self) -> &'a [u8]
        ensures value { result.now ≡ self.now.bytes }
        ensures packet { IsPacket self.now }
    {
        self.bytes
    }
}
