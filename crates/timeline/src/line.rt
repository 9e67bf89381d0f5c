//! Lines of a log, before they are text.
ghost use Rattle.std.specs.Prelude.{◌≡◌, ◌++◌, ◌∷◌, [], OnOk, OnErr};

use jitter_model::Origin;
use rtp_units::{Blob, OutOfMemory};
use std::alloc::Global;
use std::marker::Model;

/// A fixed word of a line: why a record was skipped, why a payload is no RTP packet, or why a packet
/// was refused.
#[derive(Clone, Copy, Debug, PartialEq, Eq, Drop)]
pub enum Word {
    /// The record includes fewer bytes than the frame had.
    Cut,
    /// The frame carries no IP packet.
    NotIp,
    /// The IP packet is a fragment.
    Fragment,
    /// The IP packet carries no UDP datagram.
    NotUdp,
    /// Bytes are missing in the headers, or they contradict each other.
    Malformed,
    /// The payload is longer than 9,216 bytes.
    Big,
    /// No session has the datagram's destination port.
    Port,
    /// The payload has fewer than 12 bytes.
    Short,
    /// The version is not 2.
    Version,
    /// The CSRCs are not all there.
    Csrc,
    /// The header extension is not all there.
    Extension,
    /// The padding count is 0 or more than what is left.
    Padding,
    /// The RTCP packet passes the end.
    Length,
    /// A compound does not begin with a type of RTCP.
    First,
    /// The body of an RTCP packet does not have the form of its type.
    Body,
    /// The number has been covered by an earlier packet or loss.
    Late,
    /// A packet of this number was accepted before.
    Duplicate,
    /// There is no room for the number.
    Full,
    /// A retransmission, and nothing was accepted before it.
    Stray,
    /// A flush runs.
    Flushing,
    /// The pusher has ended.
    Ended,
    /// The SSRC is the program's own.
    Own,
    /// The source is new, and its session keeps as many as it can.
    Sources,
    /// The source was first heard from another address.
    Collision,
    /// The packet was kept in probation, and a later one broke the run.
    Probation,
    /// The payload type has no clock rate.
    Unmapped,
    /// The stream is new, and there are as many lanes as there can be.
    Lanes,
    /// The lane has another clock rate.
    Rate,
    /// The retransmission has no room for the original number.
    RtxShort,
    /// The stream of the retransmission is not known, or has no lane.
    RtxSsrc,
    /// Two streams asked for the number.
    RtxAmbiguous,
}

/// One line of a log. Times and presentation times are nanoseconds of the virtual clock.
#[derive(Debug, Drop)]
pub enum BinLine {
    /// A record that holds no datagram for a session. Records count from 1.
    Skip {
        time: u64,
        record: u64,
        reason: Word,
    },
    /// A payload on an RTP port that is no RTP packet.
    Bad {
        time: u64,
        session: u8,
        word: Word,
    },
    /// A payload on an RTCP port that is no compound: why, and the offset of the bad packet.
    RtcpBad {
        time: u64,
        session: u8,
        word: Word,
        offset: usize,
    },
    /// A packet is kept until its source is valid.
    Hold {
        time: u64,
        session: u8,
        ssrc: u32,
        seq: u16,
    },
    /// A packet of a session goes to no lane; `ssrc` and `seq` are those that it came with.
    Drop {
        time: u64,
        session: u8,
        ssrc: u32,
        seq: u16,
        cause: Word,
    },
    /// A payload type is first routed, with its clock rate.
    Pt {
        time: u64,
        session: u8,
        pt: u8,
        rate: u32,
    },
    /// A lane is made for a source.
    Lane {
        time: u64,
        lane: u8,
        session: u8,
        ssrc: u32,
    },
    /// A push dropped packets that had been put aside.
    Unaside {
        time: u64,
        lane: u8,
        count: u32,
    },
    /// A packet far from all others is put aside.
    Aside {
        time: u64,
        lane: u8,
        seq: u16,
    },
    /// The fifth far packet in a row begins a new segment; `discarded` held packets are dropped.
    Restart {
        time: u64,
        lane: u8,
        seq: u16,
        discarded: u32,
    },
    /// A packet that its lane did not take.
    Refuse {
        time: u64,
        lane: u8,
        seq: u16,
        kind: Origin,
        word: Word,
    },
    /// A packet leaves its lane; `len` is the payload's length, `bytes` the whole packet.
    Out {
        time: u64,
        lane: u8,
        number: u64,
        pts: u64,
        pt: u8,
        marker: bool,
        len: u16,
        bytes: Blob,
    },
    /// `count` numbers from `number` on are lost.
    Lost {
        time: u64,
        lane: u8,
        number: u64,
        count: u32,
        pts: u64,
        duration: u64,
    },
    /// The packet of this number is requested for the time `k`, counted from 0.
    Request {
        time: u64,
        lane: u8,
        number: u64,
        k: u8,
    },
    /// The requests of one series of turns, as the bytes of a generic NACK.
    Nack {
        time: u64,
        session: u8,
        bytes: Blob,
    },
    /// A flush of a lane begins, and `count` packets are dropped.
    Flush {
        time: u64,
        lane: u8,
        count: u32,
    },
    /// A flush of a lane ends.
    Flushed {
        time: u64,
        lane: u8,
    },
    /// A lane has a new latency, in nanoseconds.
    Latency {
        time: u64,
        lane: u8,
        ns: u64,
    },
    /// A source has a new CNAME.
    Cname {
        time: u64,
        session: u8,
        ssrc: u32,
        name: Blob,
    },
    /// A sender report of a kept source: its NTP time in nanoseconds and its RTP timestamp.
    Sr {
        time: u64,
        session: u8,
        ssrc: u32,
        ntp: u64,
        rtp: u32,
    },
    /// A sender report of a source that is not kept.
    RtcpStray {
        time: u64,
        session: u8,
        ssrc: u32,
    },
    /// A kept source said BYE.
    Bye {
        time: u64,
        session: u8,
        ssrc: u32,
    },
    /// The presentation time of a sender report in its lane.
    Sync {
        time: u64,
        lane: u8,
        local: u64,
    },
    /// How far a lane lies behind the first of those with its CNAME, in nanoseconds.
    Offset {
        time: u64,
        lane: u8,
        ns: u64,
    },
    /// A source is removed.
    Gone {
        time: u64,
        session: u8,
        ssrc: u32,
    },
    /// A session's report, as the bytes of a compound.
    Report {
        time: u64,
        session: u8,
        bytes: Blob,
    },
    /// A lane has given all that it had.
    End {
        time: u64,
        lane: u8,
    },
    /// The end of a log: records read, lanes made, packets given out, numbers lost, packets refused.
    Done {
        records: u64,
        lanes: u64,
        out: u64,
        lost: u64,
        refused: u64,
    },
}

/// A list of lines.
#[derive(Drop)]
pub struct Lines {
    items: Vec<BinLine>,
}

impl Model for Lines {
    ghost use Rattle.std.specs.Prelude.{List};
    ghost use Rattle.timeline.specs.declared.line.BinLine.{BinLine};

    ghost Value = { List BinLine };

    ghost view = { λ lines. lines.items.items };
}

impl Lines {
    /// No lines.
    pub fn new(alloc: Global) -> Lines
        ensures { result ≡ [] }
    {
        Lines {
            items: Vec::new(alloc),
        }
    }

    /// Adds a line.
    pub fn push(&mut self, line: BinLine) -> Result<(), OutOfMemory>
        ensures ok { OnOk result (self.new ≡ self.old ++ line ∷ []) }
        ensures err { OnErr result (self.new ≡ self.old) }
    {
        match self.items.push(line) {
            Ok(()) => Ok(()),
            Err(_) => Err(OutOfMemory),
        }
    }

    /// The lines, the first one first.
    pub fn lines(&self) -> &[BinLine]
        ensures { result.now ≡ self.now }
    {
        self.items.as_slice()
    }

    /// Drops all lines.
    pub fn clear(&mut self)
        ensures { self.new ≡ [] }
    {
        self.items.clear();
    }
}
