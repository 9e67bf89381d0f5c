//! What a capture and a script bring to the lanes, defined on the whole list of what came to the
//! front (`specs/`), and the values that the definitions share with the programs. The laws of the
//! definitions are the contracts of [`laws`].
#![tactic(auto)]

pub mod laws;

use jitter_model::{Arrival, Settings};
use timeline::BinLine;

/// A lane as it begins.
#[derive(Clone, Copy, Debug, PartialEq, Eq, Drop)]
pub struct Opening {
    /// Its number, counted from 0.
    pub lane: u8,
    /// Its stream.
    pub session: u8,
    pub ssrc: u32,
    /// The script's settings before any timed line, with the clock rate of the stream's first
    /// packet.
    pub settings: Settings,
}

/// A sender report as it comes to a lane: from which pusher, as which of that pusher's deliveries
/// to the lane, its NTP time in nanoseconds and its RTP timestamp.
#[derive(Clone, Copy, Debug, PartialEq, Eq, Drop)]
pub struct SenderReport {
    pub pusher: u8,
    pub k: u64,
    pub ntp_ns: u64,
    pub rtp: u32,
}

/// One step of a front. The steps of a record come in one order.
#[derive(Debug, Drop)]
pub enum Step {
    /// A line is told.
    Tell(BinLine),
    /// A lane begins.
    Open(Opening),
    /// A packet goes to a lane.
    Push { lane: u8, arrival: Arrival },
    /// A sender report goes to a lane.
    Sync { lane: u8, report: SenderReport },
}
