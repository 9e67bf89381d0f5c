//! Lanes by stream.
ghost use Rattle.std.specs.Prelude.{◌≡◌, ◌≤◌, ◌<◌, ◌+◌, ◌++◌, [], ◌∷◌, List, length, nat_lt, if◌then◌else◌, slice_get, Some, IfOk, MatchOption};
ghost use Rattle.indexmap.specs.IndexMap.{spare};
ghost use Rattle.rtp_demux.specs.Lanes.{Sight, sight, rate_of, StandsFor, IsLane, IsFound};
ghost use Rattle.rtp_demux.specs.declared.lanes.LaneOf.TheVariants.{New, Full};

use indexmap::IndexMap;
use rtp_units::OutOfMemory;
use std::alloc::Global;
use std::marker::Model;

/// The most lanes.
const MAX_LANES: usize = 64;

/// A session and an SSRC.
type Stream = (u8, u32);

/// The lane of a packet.
#[derive(Clone, Copy, Debug, PartialEq, Eq, Drop)]
pub enum LaneOf {
    /// The stream is new, and this is its lane from now on.
    New(u8),
    /// The stream has this lane.
    Known(u8),
    /// The stream has this lane, which began with another clock rate.
    Rate { lane: u8, kept: u32 },
    /// The stream is new, and there are 64 lanes.
    Full,
}

/// The lanes of all sessions, at most 64. Contracts see the list of their streams, each with the clock
/// rate that it began with, in the order of their numbers.
#[derive(Drop)]
pub struct SsrcDemux {
    lanes: IndexMap<Stream, u32>,
}

impl Model for SsrcDemux {
    ghost use Rattle.std.specs.Prelude.{◌≤◌, ◌+◌, ℕ, List, length};
    ghost use Rattle.indexmap.specs.IndexMap.{spare};

    ghost Value = { List ((ℕ × ℕ) × ℕ) };

    ghost view = { λ d. d.lanes.entries };

    ghost invariant = { λ d. (length d.lanes.entries ≤ 64)
        × (64 ≤ length d.lanes.entries + spare d.lanes) };
}

impl SsrcDemux {
    /// No lane, and room for 64.
    pub fn new(alloc: Global) -> Result<SsrcDemux, OutOfMemory>
        ensures { IfOk result (λ d. StandsFor d []) }
    {
        Ok(SsrcDemux {
            lanes: IndexMap::with_capacity(alloc, MAX_LANES)?,
        })
    }

    /// The lane of a packet of this stream, whose payload type has this clock rate. A new stream gets the
    /// next number, as long as there are fewer than 64 lanes.
    pub fn lane(&mut self, session: u8, ssrc: u32, rate: u32) -> LaneOf
        ensures answer { IsLane self.old (sight session ssrc rate) result }
        ensures stands { (calls : List Sight) → StandsFor self.old calls
            → StandsFor self.new (sight session ssrc rate ∷ calls) }
    {
        let answer = self.peek(session, ssrc, rate);
        if let LaneOf::New(_) = answer {
            add(&mut self.lanes, (session, ssrc), rate);
        }
        answer
    }

    /// What `lane` would answer. Nothing changes.
    pub fn peek(&self, session: u8, ssrc: u32, rate: u32) -> LaneOf
        ensures { IsLane self.now (sight session ssrc rate) result }
    {
        match seen(&self.lanes, (session, ssrc)) {
            Some((lane, kept)) if kept == rate => LaneOf::Known(lane),
            Some((lane, kept)) => LaneOf::Rate { lane, kept },
            None => next_lane(self.lanes.len()),
        }
    }

    /// The lane of a stream, if it has one.
    pub fn find(&self, session: u8, ssrc: u32) -> Option<u8>
        ensures { IsFound self.now (session, ssrc) result }
    {
        let (lane, _rate) = seen(&self.lanes, (session, ssrc))?;
        Some(lane)
    }
}

/// What a new stream is told where there are so many lanes.
fn next_lane(count: usize) -> LaneOf
    requires { count ≤ 64 }
    ensures { result ≡ (if nat_lt count 64 then New count else Full) }
{
    if count >= MAX_LANES {
        LaneOf::Full
    } else {
        LaneOf::New(count as u8)
    }
}

/// The number of a stream's lane and the rate that it began with.
fn seen(lanes: &IndexMap<Stream, u32>, stream: Stream) -> Option<(u8, u32)>
    requires { length lanes.now.entries ≤ 64 }
    ensures { MatchOption result (rate_of lanes.now.entries stream ≡ None)
        (λ x. slice_get lanes.now.entries x.0 ≡ Some (stream, x.1)) }
{
    let (lane, _stream, rate) = lanes.get_full(&stream)?;
    Some((lane as u8, *rate))
}

/// Gives a new stream the next number. There is room, so it takes no memory.
fn add(lanes: &mut IndexMap<Stream, u32>, stream: Stream, rate: u32)
    requires new { rate_of lanes.old.entries stream ≡ None }
    requires room { 0 < spare lanes.old }
    ensures entries { lanes.new.entries ≡ lanes.old.entries ++ (stream, rate) ∷ [] }
    ensures spare { spare lanes.old ≤ spare lanes.new + 1 }
{
    match lanes.insert(stream, rate) {
        Ok(_) => {}
        Err(_) => unreachable!(),
    }
}
