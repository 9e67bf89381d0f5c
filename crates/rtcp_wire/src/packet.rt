//! The packets of a compound.
ghost use Rattle.std.specs.Prelude.{◌≡◌};
ghost use Rattle.rtcp_wire.specs.Written.{kind_byte};

use crate::block::ReportBlock;
use crate::items::Items;
use arrayvec::ArrayVec;
use rtp_units::Blob;

/// One item of a source's description (RFC 3550, section 6.5): its type and its text.
#[derive(Debug, Drop)]
pub struct SdesItem {
    pub kind: u8,
    pub text: Blob,
}

/// The description of one source.
#[derive(Debug, Drop)]
pub struct Chunk {
    pub ssrc: u32,
    pub items: Items<SdesItem>,
}

/// An entry of a generic NACK (RFC 4585, section 6.2.1): the number `pid` is missing, and with bit i of
/// `blp`, the least being 0, the number `pid` + i + 1 modulo 2^16.
#[derive(Clone, Copy, Debug, PartialEq, Eq, Drop)]
pub struct Nack {
    pub pid: u16,
    pub blp: u16,
}

/// A packet of a compound.
#[derive(Drop)]
pub enum Rtcp {
    /// Type 200, a sender report. `seconds` and `fraction` are its NTP timestamp.
    Sr {
        ssrc: u32,
        seconds: u32,
        fraction: u32,
        rtp: u32,
        packets: u32,
        octets: u32,
        blocks: ArrayVec<ReportBlock, 31>,
        rest: Blob,
    },
    /// Type 201, a receiver report.
    Rr {
        ssrc: u32,
        blocks: ArrayVec<ReportBlock, 31>,
        rest: Blob,
    },
    /// Type 202, descriptions of sources.
    Sdes {
        chunks: Items<Chunk>,
    },
    /// Type 203: these sources leave.
    Bye {
        ssrcs: Items<u32>,
        reason: Option<Blob>,
    },
    /// Type 204, defined by an application.
    App {
        subtype: u8,
        ssrc: u32,
        name: [u8; 4],
        rest: Blob,
    },
    /// Type 205 with format 1, a generic NACK.
    Nacks {
        sender: u32,
        media: u32,
        list: Items<Nack>,
    },
    /// Type 205 with another format, or type 206.
    Feedback {
        kind: u8,
        format: u8,
        sender: u32,
        media: u32,
        rest: Blob,
    },
    /// Any other type.
    Unknown {
        kind: u8,
        count: u8,
        rest: Blob,
    },
}

impl Rtcp {
    /// The packet's type.
    pub fn kind(&self) -> u8
        ensures { result ≡ kind_byte self.now }
    {
        match self {
            Rtcp::Sr { .. } => 200,
            Rtcp::Rr { .. } => 201,
            Rtcp::Sdes { .. } => 202,
            Rtcp::Bye { .. } => 203,
            Rtcp::App { .. } => 204,
            Rtcp::Nacks { .. } => 205,
            Rtcp::Feedback { kind, .. } | Rtcp::Unknown { kind, .. } => *kind,
        }
    }
}
