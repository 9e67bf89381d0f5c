//! What a session answers.
use crate::kept::Kept;
use rtp_units::{Address, Blob};

/// Why a packet was dropped, in the order of the tests.
#[derive(Clone, Copy, Debug, PartialEq, Eq, Drop)]
pub enum DropCause {
    /// Its SSRC is the session's own.
    Own,
    /// Its source is not kept, and 64 are.
    Sources,
    /// Its source was first heard from another address.
    Collision { kept: Address, new: Address },
}

/// What became of a packet of RTP.
#[derive(Drop)]
pub enum SessionOut {
    /// It waits until its source is valid. `broken` are the packets that waited before it and are
    /// dropped, the first one first: its number doesn't follow theirs.
    Held { broken: Vec<Kept> },
    /// It goes on, behind the packets that waited until it made their source valid, the first one first.
    Released { waited: Vec<Kept>, packet: Kept },
    /// It was not heard.
    Dropped(DropCause),
}

/// What a datagram of RTCP told.
#[derive(Debug, Drop)]
pub enum SessionNote {
    /// A kept source has this name from now on.
    Cname { ssrc: u32, text: Blob },
    /// A sender report of a kept source, with its NTP time in nanoseconds and its RTP timestamp.
    Sr { ssrc: u32, ntp_ns: u64, rtp: u32 },
    /// A sender report of an SSRC that is not kept.
    Stray(u32),
    /// A kept source said BYE.
    Bye(u32),
}

/// What a report time came to.
#[derive(Debug, Drop)]
pub struct Reported {
    /// The sources that were removed, in the order of first sight.
    pub gone: Vec<u32>,
    /// The compound to send: receiver reports, and the description of the program.
    pub bytes: Blob,
}
