//! What a journal has, and what a turn comes to.

use jitter_core::{Origin, Packet, Verdict};

/// An event of a lane with its reply. A turn that is answered idle, or in a flush, is no entry.
#[derive(Debug, Drop)]
pub enum Entry {
    /// A pusher's packet number `k`, from 0.
    Push {
        pusher: u8,
        k: u64,
        stamp: u64,
        seq: u16,
        origin: Origin,
        verdict: Verdict,
        number: u64,
        aside_dropped: u8,
    },
    /// A pusher's sender report, counted with its packets.
    Report {
        pusher: u8,
        k: u64,
        ntp_ns: u64,
        rtp: u32,
        local: Option<u64>,
    },
    /// The clock was stepped: by the control, 8, or by the lane's loop, 9.
    Clock {
        by: u8,
        t: u64,
    },
    FlushStart {
        count: u32,
    },
    FlushStop,
    Latency {
        ns: u64,
    },
    Ends {
        pusher: u8,
    },
    Packet {
        number: u64,
        pts: u64,
        packet: Packet,
    },
    Lost {
        number: u64,
        count: u32,
        pts: u64,
        duration: u64,
    },
    Request {
        number: u64,
        k: u8,
    },
    End,
}

/// What a turn came to.
#[derive(Clone, Copy, Debug, Drop)]
pub enum Next {
    /// Something was given out, declared lost or requested.
    Again,
    /// There is nothing to do, before this time where there is one.
    Wait(Option<u64>),
    /// A flush runs.
    Flushing,
    /// The lane told its End.
    Ended,
    /// The lane was stopped.
    Stopped,
}
