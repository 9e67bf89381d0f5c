//! The words for what the layers below answer.
ghost use Rattle.std.specs.Prelude.{◌≡◌, option_map};
ghost use Rattle.timeline.specs.Words.{rtcp_word as word_of_rtcp, rtp_word as word_of_rtp, skip_word as word_of_skip};

use crate::line::Word;
use pcap_file::Skip;
use rtcp_wire::RtcpFault;
use rtp_wire::RtpFault;

/// The word for a record without a datagram.
pub fn skip_word(skip: Skip) -> Word
    ensures { result ≡ word_of_skip skip }
{
    match skip {
        Skip::Cut => Word::Cut,
        Skip::NotIp => Word::NotIp,
        Skip::Fragment => Word::Fragment,
        Skip::NotUdp => Word::NotUdp,
        Skip::Malformed => Word::Malformed,
        Skip::Big => Word::Big,
    }
}

/// The word for a payload that is no RTP packet.
pub fn rtp_word(fault: RtpFault) -> Word
    ensures { result ≡ word_of_rtp fault }
{
    match fault {
        RtpFault::Short => Word::Short,
        RtpFault::Version => Word::Version,
        RtpFault::Csrc => Word::Csrc,
        RtpFault::Extension => Word::Extension,
        RtpFault::Padding => Word::Padding,
    }
}

/// The word for a payload that is no RTCP compound, and the offset of the packet that is bad. None for
/// want of memory.
pub fn rtcp_word(fault: RtcpFault) -> Option<BadPacket>
    ensures { option_map (λ bad. (bad.word, bad.offset)) result ≡ word_of_rtcp fault }
{
    let (word, offset) = match fault {
        RtcpFault::Short(offset) => (Word::Short, offset),
        RtcpFault::Version(offset) => (Word::Version, offset),
        RtcpFault::Length(offset) => (Word::Length, offset),
        RtcpFault::Padding(offset) => (Word::Padding, offset),
        RtcpFault::First(offset) => (Word::First, offset),
        RtcpFault::Body { offset, kind: _ } => (Word::Body, offset),
        RtcpFault::OutOfMemory => return None,
    };
    Some(BadPacket { word, offset })
}

/// Which packet of a compound is bad, by its offset, and why.
#[derive(Clone, Copy, Debug, PartialEq, Eq, Drop)]
pub struct BadPacket {
    pub word: Word,
    pub offset: usize,
}
