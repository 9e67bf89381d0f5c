//! What the sessions give on, on its way to the lanes.
ghost use Rattle.std.specs.Prelude.{◌≡◌, ◌<◌, ◌++◌, ◌∷◌, [], ℕ, List, nat_eq, true, false};
ghost use Rattle.std.specs.Prelude.{filter_map, Some, Ok, OnOk, IfOk};
ghost use Rattle.script_lang.specs.Contents.{Contents};
ghost use Rattle.rtp_demux.specs.Lanes.{lane_of};
ghost use Rattle.rtx.specs.Requests.{request};
ghost use Rattle.front_model.specs.Fates.{packet_from, fate};
ghost use Rattle.front_model.specs.Lanes.{lanes, route as route_by};
ghost use Rattle.front_model.specs.Moves.{Move, Released, Reported, Asked};
ghost use Rattle.front_model.specs.Steps.{release_steps, stream_steps, fate_steps, sync_steps};
ghost use Rattle.front_model.specs.declared.Step.TheVariants.{Tell, Open, Push};
ghost use Rattle.timeline.specs.declared.line.BinLine.TheVariants.{Drop, Lane};
ghost use Rattle.jitter_model.specs.declared.Origin.TheVariants.{Original};
ghost use Rattle.front_model.specs.Types.{is_rtx, rate as rate_by, rate_in, rates};
ghost use Rattle.front_model.specs.Restoring.{original as original_by};
ghost use Rattle.rtp_demux.specs.Types.{StandsFor as RoutesFor, route_of};
ghost use Rattle.rtx.specs.declared.receiver.Original.{Original as Found};
ghost use Rattle.rtx.specs.Restoring.{IsRestored, restored as restored_of};
ghost use Rattle.rtp_wire.specs.Packet.{Packet as View};
ghost use Rattle.rtp_front.specs.Chosen.{IsReadOf};
ghost use Rattle.rtp_front.specs.Standing.{routes_in, next_in, IsLeftBy, IsRouted, IsCounted};
ghost use Rattle.rtp_front.specs.Standing.{IsSameButCounts, Carried};

use crate::choices::Choices;
use front_model::{Opening, SenderReport, Step};
use indexmap::IndexMap;
use jitter_model::{Arrival, Origin, Packet};
use rtp_demux::laws::streams_have_one_lane;
use rtp_demux::{LaneOf, PtDemux, PtRoute, SsrcDemux};
use rtp_session::Kept;
use rtp_units::OutOfMemory;
use rtp_wire::{RtpView, read};
use rtx::{Map, Receiver, Restored, RtxFault};
use script_lang::{PtLine, Script};
use std::alloc::Global;
use std::marker::Model;
use timeline::{BinLine, Word};

/// How many bytes of a retransmission's payload are the original sequence number.
const NUMBER_SIZE: u16 = 2;

/// By session the payload types that were seen; the lanes of all sessions; the receiver of
/// retransmissions; and how often each pusher gave each lane something.
#[derive(Drop)]
pub(crate) struct Streams {
    types: IndexMap<u8, PtDemux>,
    lanes: SsrcDemux,
    receiver: Receiver,
    given: IndexMap<(u8, u8), u64>,
}

impl Model for Streams {
    ghost use Rattle.rtp_front.specs.Standing.{StreamsState};

    ghost Value = { StreamsState };

    ghost view = { λ x. record {
      lanes = x.lanes;
      types = x.types.entries;
      receiver = x.receiver;
      given = x.given.entries;
    } };
}

impl Streams {
    pub(crate) fn new(alloc: Global, script: &Script) -> Result<Streams, OutOfMemory>
        ensures { IfOk result (λ x. IsLeftBy script.now [] x) }
    {
        let map = Map {
            lines: Vec::from_slice(alloc, script.rtx.as_slice())?,
            fids: Vec::from_slice(alloc, script.fids.as_slice())?,
        };
        Ok(Streams {
            types: types_of(alloc, script)?,
            lanes: SsrcDemux::new(alloc)?,
            receiver: Receiver::new(alloc, &map, true)?,
            given: IndexMap::new(alloc),
        })
    }

    /// Notes a number that a lane asked for again.
    pub(crate) fn note_request(&mut self, session: u8, ssrc: u32, seq: u16)
        ensures { (c : Contents) (older : List Move) → IsLeftBy c older self.old
            → IsLeftBy c (Asked (request session ssrc seq) ∷ older) self.new }
    {
        self.receiver.note_request(session, ssrc, seq);
    }

    /// A packet that a session released goes to a lane, or is dropped.
    pub(crate) fn release(
        &mut self,
        alloc: Global,
        choices: &Choices,
        time: u64,
        session: u8,
        kept: Kept,
        steps: &mut Vec<Step>,
    ) -> Result<(), OutOfMemory>
        requires { session < 8 }
        ensures steps { (c : Contents) (older : List Move) → IsReadOf c choices.now
            → IsLeftBy c older self.old
            → OnOk result (steps.new.items
            ≡ steps.old.items ++ release_steps c time older session kept.stamp kept.packet) }
        ensures stands { (c : Contents) (older : List Move) → IsReadOf c choices.now
            → IsLeftBy c older self.old
            → OnOk result
            (IsLeftBy c (Released session kept.stamp kept.packet ∷ older) self.new) }
    {
        let pt = kept.packet().pt();
        if choices.is_retransmission(session, pt) {
            return self.restore(alloc, choices, time, session, kept, steps);
        }
        match self.route(session, pt) {
            PtRoute::Unmapped => tell_kept_drop(time, session, &kept, Word::Unmapped, steps),
            PtRoute::Known(rate) => self.give(choices, time, session, rate, kept, steps),
            PtRoute::First(rate) => {
                steps.push(Step::Tell(BinLine::Pt {
                    time,
                    session,
                    pt,
                    rate,
                }))?;
                self.give(choices, time, session, rate, kept, steps)
            }
        }
    }

    fn route(&mut self, session: u8, pt: u8) -> PtRoute
        ensures answer { (c : Contents) (older : List Move) → IsLeftBy c older self.old
            → result ≡ route_by c session older pt }
        ensures stands { (c : Contents) (older : List Move) (stamp : ℕ) (p : View)
            → IsLeftBy c older self.old → p.pt ≡ pt → is_rtx c session pt ≡ false
            → IsRouted c older (Released session stamp p) self.new }
    {
        route_in(&mut self.types, session, pt)
    }

    /// Gives a packet that came by itself, whose type has this clock rate, to the lane of its
    /// stream.
    fn give(
        &mut self,
        choices: &Choices,
        time: u64,
        session: u8,
        rate: u32,
        kept: Kept,
        steps: &mut Vec<Step>,
    ) -> Result<(), OutOfMemory>
        requires { session < 8 }
        ensures steps { (c : Contents) (older : List Move) → IsReadOf c choices.now
            → IsRouted c older (Released session kept.stamp kept.packet) self.old
            → is_rtx c session kept.packet.pt ≡ false
            → rate_by c session kept.packet.pt ≡ Some rate
            → OnOk result (steps.new.items ≡ steps.old.items
            ++ stream_steps c time older session kept.packet (Some rate)
            ++ fate_steps c time older session kept.stamp kept.packet
            (fate c older session kept.packet)) }
        ensures stands { (c : Contents) (older : List Move) → IsReadOf c choices.now
            → IsRouted c older (Released session kept.stamp kept.packet) self.old
            → is_rtx c session kept.packet.pt ≡ false
            → rate_by c session kept.packet.pt ≡ Some rate
            → OnOk result
            (IsLeftBy c (Released session kept.stamp kept.packet ∷ older) self.new) }
    {
        // A law for the proof; the call does nothing.
        streams_have_one_lane();
        let ssrc = kept.packet().ssrc();
        match self.lanes.lane(session, ssrc, rate) {
            LaneOf::New(lane) => {
                open_lane(time, choices.opening(lane, session, ssrc, rate), steps)?;
                self.push_own(session, lane, kept, steps)
            }
            LaneOf::Known(lane) => self.push_own(session, lane, kept, steps),
            LaneOf::Rate { .. } => tell_kept_drop(time, session, &kept, Word::Rate, steps),
            LaneOf::Full => tell_kept_drop(time, session, &kept, Word::Lanes, steps),
        }
    }

    /// Restores what a retransmission carries (RFC 4588, section 4).
    fn restore(
        &mut self,
        alloc: Global,
        choices: &Choices,
        time: u64,
        session: u8,
        kept: Kept,
        steps: &mut Vec<Step>,
    ) -> Result<(), OutOfMemory>
        ensures steps { (c : Contents) (older : List Move) → IsReadOf c choices.now
            → IsLeftBy c older self.old → is_rtx c session kept.packet.pt ≡ true
            → OnOk result (steps.new.items ≡ steps.old.items
            ++ fate_steps c time older session kept.stamp kept.packet
            (fate c older session kept.packet)) }
        ensures stands { (c : Contents) (older : List Move) → IsReadOf c choices.now
            → IsLeftBy c older self.old → is_rtx c session kept.packet.pt ≡ true
            → OnOk result
            (IsLeftBy c (Released session kept.stamp kept.packet ∷ older) self.new) }
    {
        let word = match self.receiver.restore(alloc, session, &kept.packet()) {
            Ok(restored) => {
                return self.give_restored(choices, time, session, kept, restored, steps);
            }
            Err(RtxFault::Short) => Word::RtxShort,
            Err(RtxFault::UnknownPt | RtxFault::UnknownSsrc) => Word::RtxSsrc,
            Err(RtxFault::Ambiguous { .. }) => Word::RtxAmbiguous,
            Err(RtxFault::OutOfMemory) => return Err(OutOfMemory),
        };
        tell_kept_drop(time, session, &kept, word, steps)
    }

    /// Gives a restored packet to the lane of its stream, which has to be there.
    fn give_restored(
        &mut self,
        choices: &Choices,
        time: u64,
        session: u8,
        kept: Kept,
        restored: Restored,
        steps: &mut Vec<Step>,
    ) -> Result<(), OutOfMemory>
        requires { Carried kept.packet restored }
        ensures steps { (c : Contents) (older : List Move) (o : Found)
            → IsReadOf c choices.now
            → IsRouted c older (Released session kept.stamp kept.packet) self.old
            → is_rtx c session kept.packet.pt ≡ true
            → original_by c older session kept.packet ≡ Ok o → IsRestored o kept.packet restored
            → OnOk result (steps.new.items ≡ steps.old.items
            ++ fate_steps c time older session kept.stamp kept.packet
            (fate c older session kept.packet)) }
        ensures stands { (c : Contents) (older : List Move) (o : Found)
            → IsReadOf c choices.now
            → IsRouted c older (Released session kept.stamp kept.packet) self.old
            → is_rtx c session kept.packet.pt ≡ true
            → original_by c older session kept.packet ≡ Ok o → IsRestored o kept.packet restored
            → OnOk result
            (IsLeftBy c (Released session kept.stamp kept.packet ∷ older) self.new) }
    {
        // A law for the proof; the call does nothing.
        streams_have_one_lane();
        let (original, ssrc) = (restored.session, restored.ssrc);
        let packet = restored_packet(&kept, restored);
        let Some(rate) = choices.rate(original, packet.pt) else {
            return tell_kept_drop(time, session, &kept, Word::Unmapped, steps);
        };
        match self.lanes.peek(original, ssrc, rate) {
            LaneOf::Known(lane) => {
                self.push(
                    session,
                    lane,
                    kept.stamp(),
                    Origin::Retransmission,
                    packet,
                    steps,
                )
            }
            LaneOf::Rate { .. } => tell_kept_drop(time, session, &kept, Word::Rate, steps),
            LaneOf::New(_) => tell_kept_drop(time, session, &kept, Word::RtxSsrc, steps),
            LaneOf::Full => tell_kept_drop(time, session, &kept, Word::RtxSsrc, steps),
        }
    }

    /// A packet that came by itself goes to a lane of its session.
    fn push_own(
        &mut self,
        session: u8,
        lane: u8,
        kept: Kept,
        steps: &mut Vec<Step>,
    ) -> Result<(), OutOfMemory>
        ensures steps { OnOk result (steps.new.items ≡ steps.old.items
            ++ Push lane (record {
              pusher = session;
              k = next_in self.old.given (session, lane);
              stamp = kept.stamp;
              origin = Original;
              packet = packet_from kept.packet;
            }) ∷ []) }
        ensures next { OnOk result (IsCounted (session, lane) self.old self.new) }
        ensures rest { IsSameButCounts self.old self.new }
    {
        let stamp = kept.stamp();
        self.push(
            session,
            lane,
            stamp,
            Origin::Original,
            packet_of(kept),
            steps,
        )
    }

    /// A packet goes to a lane, as the next that this pusher gives to it.
    fn push(
        &mut self,
        pusher: u8,
        lane: u8,
        stamp: u64,
        origin: Origin,
        packet: Packet,
        steps: &mut Vec<Step>,
    ) -> Result<(), OutOfMemory>
        ensures steps { OnOk result (steps.new.items ≡ steps.old.items
            ++ Push lane (record {
              pusher = pusher;
              k = next_in self.old.given (pusher, lane);
              stamp = stamp;
              origin = origin;
              packet = packet;
            }) ∷ []) }
        ensures next { OnOk result (IsCounted (pusher, lane) self.old self.new) }
        ensures rest { IsSameButCounts self.old self.new }
    {
        let k = self.count(pusher, lane)?;
        steps.push(Step::Push {
            lane,
            arrival: Arrival {
                pusher,
                k,
                stamp,
                origin,
                packet,
            },
        })?;
        Ok(())
    }

    /// A sender report that a session heard goes to the lane of its stream, where there is one.
    pub(crate) fn report(
        &mut self,
        session: u8,
        ssrc: u32,
        ntp_ns: u64,
        rtp: u32,
        steps: &mut Vec<Step>,
    ) -> Result<(), OutOfMemory>
        ensures steps { (c : Contents) (older : List Move) → IsLeftBy c older self.old
            → OnOk result (steps.new.items ≡ steps.old.items
            ++ sync_steps c older session ntp_ns rtp (lane_of (lanes c older) (session, ssrc))) }
        ensures stands { (c : Contents) (older : List Move) → IsLeftBy c older self.old
            → OnOk result (IsLeftBy c (Reported session ssrc ntp_ns rtp ∷ older) self.new) }
    {
        // A law for the proof; the call does nothing.
        streams_have_one_lane();
        let Some(lane) = self.lanes.find(session, ssrc) else {
            return Ok(());
        };
        let k = self.count(session, lane)?;
        steps.push(Step::Sync {
            lane,
            report: SenderReport {
                pusher: session,
                k,
                ntp_ns,
                rtp,
            },
        })?;
        Ok(())
    }

    /// How often this pusher gave this lane something, which is once more from now on.
    fn count(&mut self, pusher: u8, lane: u8) -> Result<u64, OutOfMemory>
        ensures value { IfOk result (λ k. k ≡ next_in self.old.given (pusher, lane)) }
        ensures next { OnOk result (IsCounted (pusher, lane) self.old self.new) }
        ensures rest { IsSameButCounts self.old self.new }
    {
        let k = self.next_number(pusher, lane);
        // A count of 2^64 is never reached; it would be told as want of memory.
        let Some(next) = k.checked_add(1) else {
            return Err(OutOfMemory);
        };
        self.given.insert((pusher, lane), next)?;
        Ok(k)
    }

    /// How often this pusher gave this lane something.
    fn next_number(&self, pusher: u8, lane: u8) -> u64
        ensures { result ≡ next_in self.now.given (pusher, lane) }
    {
        match self.given.get(&(pusher, lane)) {
            Some(k) => *k,
            None => 0,
        }
    }
}

/// The route of a packet of this type of a session. A session that has no types routes none.
fn route_in(types: &mut IndexMap<u8, PtDemux>, session: u8, pt: u8) -> PtRoute
    ensures answer { (rates : List (ℕ × ℕ)) (calls : List ℕ)
        → RoutesFor (routes_in types.old.entries session) rates calls
        → result ≡ route_of rates calls pt }
    ensures stands { (rates : List (ℕ × ℕ)) (calls : List ℕ)
        → RoutesFor (routes_in types.old.entries session) rates calls
        → RoutesFor (routes_in types.new.entries session) rates (pt ∷ calls) }
    ensures others { (other : ℕ) → nat_eq session other ≡ false
        → routes_in types.new.entries other ≡ routes_in types.old.entries other }
{
    if let Some(types) = types.get_mut(&session) {
        return types.route(pt);
    }
    PtRoute::Unmapped
}

/// For each session of a script its payload types, of which none was seen.
fn types_of(alloc: Global, script: &Script) -> Result<IndexMap<u8, PtDemux>, OutOfMemory>
    ensures { IfOk result (λ types. (session : ℕ)
        → RoutesFor (routes_in types.entries session) (rates script.now session) []) }
{
    let mut types = IndexMap::new(alloc);
    for line in script.sessions.as_slice() {
        let rates = rates_in(alloc, script.pts.as_slice(), line.session)?;
        types.insert(line.session, PtDemux::new(alloc, rates.as_slice())?)?;
    }
    Ok(types)
}

/// The payload types of a session with their clock rates.
fn rates_in(alloc: Global, pts: &[PtLine], session: u8) -> Result<Vec<(u8, u32)>, OutOfMemory>
    ensures { IfOk result (λ types. types.items ≡ filter_map (rate_in session) pts.now) }
{
    let mut rates = Vec::new(alloc);
    for line in pts {
        if line.session == session {
            rates.push((line.pt, line.rate))?;
        }
    }
    Ok(rates)
}

/// A packet as a buffer takes it.
fn packet_of(kept: Kept) -> Packet
    ensures { result ≡ packet_from kept.packet }
{
    let payload = kept.payload_size();
    let view = kept.packet();
    let (seq, rtp, pt, marker) = (view.seq(), view.timestamp(), view.pt(), view.marker());
    Packet {
        seq,
        rtp,
        pt,
        marker,
        payload,
        bytes: kept.into_bytes(),
    }
}

/// What a retransmission carried, as a buffer takes it.
fn restored_packet(kept: &Kept, restored: Restored) -> Packet
    requires { Carried kept.now.packet restored }
    ensures { (o : Found) → IsRestored o kept.now.packet restored
        → result ≡ packet_from (restored_of o kept.now.packet) }
{
    let view = match read(restored.bytes.bytes()) {
        Ok(view) => view,
        Err(_) => unreachable!(),
    };
    let (rtp, pt, marker) = (view.timestamp(), view.pt(), view.marker());
    Packet {
        seq: restored.seq,
        rtp,
        pt,
        marker,
        payload: kept.payload_size().saturating_sub(NUMBER_SIZE),
        bytes: restored.bytes,
    }
}

/// Tells that a packet was dropped, and why.
pub(crate) fn tell_drop(
    time: u64,
    session: u8,
    view: &RtpView<'_>,
    cause: Word,
    steps: &mut Vec<Step>,
) -> Result<(), OutOfMemory>
    ensures { OnOk result (steps.new.items ≡ steps.old.items
        ++ Tell (Drop time session view.now.ssrc view.now.seq cause) ∷ []) }
{
    steps.push(Step::Tell(BinLine::Drop {
        time,
        session,
        ssrc: view.ssrc(),
        seq: view.seq(),
        cause,
    }))?;
    Ok(())
}

/// Tells that a packet with bytes of its own was dropped, and why.
fn tell_kept_drop(
    time: u64,
    session: u8,
    kept: &Kept,
    cause: Word,
    steps: &mut Vec<Step>,
) -> Result<(), OutOfMemory>
    ensures { OnOk result (steps.new.items ≡ steps.old.items
        ++ Tell (Drop time session kept.now.packet.ssrc kept.now.packet.seq cause) ∷ []) }
{
    tell_drop(time, session, &kept.packet(), cause, steps)
}

/// Tells of a lane that begins, and begins it.
fn open_lane(time: u64, opening: Opening, steps: &mut Vec<Step>) -> Result<(), OutOfMemory>
    ensures { OnOk result (steps.new.items ≡ steps.old.items
        ++ Tell (Lane time opening.lane opening.session opening.ssrc) ∷ Open opening ∷ []) }
{
    steps.push(Step::Tell(BinLine::Lane {
        time,
        lane: opening.lane,
        session: opening.session,
        ssrc: opening.ssrc,
    }))?;
    steps.push(Step::Open(opening))?;
    Ok(())
}
