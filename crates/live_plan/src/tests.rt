//! Plans of small captures, and the journal of a lane that runs by one.
ghost use Rattle.std.specs.Prelude.{◌≡◌, ◌<◌, ◌↔◌, All, IsTrue, length};

use crate::{PlanBuilder, make_plan};
use live_bin::{Course, Entry, LaneHistory, LaneState, Plan, PlanLane, Run};
use pcap_file::PcapRecord;
use rtp_units::{Blob, OutOfMemory};
use script_lang::{Script, read};
use std::alloc::Global;
use std::marker::Brand;
use std::test::*;

/// A link type whose frames begin with the IPv4 header.
const IPV4: u16 = 228;

/// The ports of RTP and RTCP of session 0, and that of RTP of session 1, less 4864.
const RTP: u8 = 140;

const RTCP: u8 = 141;

const OTHER_RTP: u8 = 142;

/// A frame with a datagram to a port 4864 + `port`, captured at `ms` milliseconds.
fn record(alloc: Global, ms: u8, port: u8, payload: &[u8]) -> Result<PcapRecord, OutOfMemory> {
    let size = payload.len().min(200) as u8;
    let header = [
        0x45,
        0,
        0,
        28 + size,
        0,
        0,
        0,
        0,
        64,
        17,
        0,
        0,
        10,
        0,
        0,
        1,
        10,
        0,
        0,
        9,
        0x9c,
        0x40,
        19,
        port,
        0,
        8 + size,
        0,
        0,
    ];
    let mut frame = Vec::from_slice(alloc, &header)?;
    frame.extend_from_slice(payload)?;
    Ok(PcapRecord {
        offset: 0,
        stamp: 5_000_000_000 + u64::from(ms) * 1_000_000,
        original: 28 + u32::from(size),
        bytes: Blob::from_vec(frame),
    })
}

/// A packet of type 96 whose payload is the bytes 1 to 4.
fn packet(seq: u8, rtp: u16, ssrc: u8) -> [u8; 16] {
    let [high, low] = rtp.to_be_bytes();
    [
        0x80, 96, 0, seq, 0, 0, high, low, 0x11, 0x22, 0x33, ssrc, 1, 2, 3, 4,
    ]
}

/// One session.
const SCRIPT: &[u8] = b"session 0 5004 5005\npt 0 96 90000\nset latency 100\nset probation 0\n";

/// Two sessions, and timed items of both.
const TIMED: &[u8] = b"session 0 5004 5005\nsession 1 5006 5007\npt 0 96 90000\npt 1 96 8000\n\
set probation 0\nat 10 latency 0 300\nat 15 clock\nat 20 flush-start 1\nat 30 flush-stop 1\n";

/// A sender report of the source 11223311, and its CNAME a@b.
const COMPOUND: [u8; 44] = [
    0x80, 200, 0, 6, 0x11, 0x22, 0x33, 0x11, 0, 0, 0, 1, 0, 0, 0, 0, 0, 0, 0, 7, 0, 0, 0, 1, 0, 0,
    0, 4, 0x81, 202, 0, 3, 0x11, 0x22, 0x33, 0x11, 1, 3, 0x61, 0x40, 0x62, 0, 0, 0,
];

const WHOLE: [&str; 11] = [
    "Ends { pusher: 8 }",
    "Push { pusher: 0, k: 0, stamp: 0, seq: 1, origin: Original, verdict: Accepted, \
     number: 65537, aside_dropped: 0 }",
    "Push { pusher: 0, k: 1, stamp: 20000000, seq: 2, origin: Original, verdict: Accepted, \
     number: 65538, aside_dropped: 0 }",
    "Push { pusher: 0, k: 2, stamp: 60000000, seq: 4, origin: Original, verdict: Accepted, \
     number: 65540, aside_dropped: 0 }",
    "Ends { pusher: 0 }",
    "Packet { number: 65537, pts: 0, packet: Packet { seq: 1, rtp: 0, pt: 96, \
     marker: false, payload: 4, \
     bytes: Blob { items: [128, 96, 0, 1, 0, 0, 0, 0, 17, 34, 51, 68, 1, 2, 3, 4] } } }",
    "Packet { number: 65538, pts: 20000000, packet: Packet { seq: 2, rtp: 1800, pt: 96, \
     marker: false, payload: 4, \
     bytes: Blob { items: [128, 96, 0, 2, 0, 0, 7, 8, 17, 34, 51, 68, 1, 2, 3, 4] } } }",
    "Clock { by: 9, t: 140000000 }",
    "Lost { number: 65539, count: 1, pts: 40000000, duration: 20000000 }",
    "Packet { number: 65540, pts: 60000000, packet: Packet { seq: 4, rtp: 5400, pt: 96, \
     marker: false, payload: 4, \
     bytes: Blob { items: [128, 96, 0, 4, 0, 0, 21, 24, 17, 34, 51, 68, 1, 2, 3, 4] } } }",
    "End",
];

fn is_shown(alloc: Global, entry: &Entry, text: &str) -> Result<bool, OutOfMemory> {
    let shown = format!(in alloc; "{entry:?}")?;
    Ok(shown.as_str() == text)
}

/// The place of the first entry that is another one.
fn first_other(alloc: Global, journal: &[Entry]) -> Result<Option<usize>, OutOfMemory> {
    for (place, text) in WHOLE.iter().enumerate() {
        let same = match journal.get(place) {
            Some(entry) => is_shown(alloc, entry, text)?,
            None => false,
        };
        if !same {
            return Ok(Some(place));
        }
    }
    Ok(None)
}

fn completed<K: Run>(alloc: Global, plan: &Plan) -> Result<LaneHistory, OutOfMemory>
    requires plan { plan.now ≡ K.plan }
    requires lane { 0 < length plan.now.lanes }
{
    let state = LaneState::<K>::new(alloc, plan, 0)?;
    state.complete(plan)
}

fn history(alloc: Global, plan: &Plan) -> Result<LaneHistory, OutOfMemory>
    requires { 0 < length plan.now.lanes }
{
    completed::<Brand>(alloc, plan)
}

/// Whether all stamps are below 2^63.
fn are_early(records: &[PcapRecord]) -> bool
    ensures { IsTrue result ↔ All (λ r. r.stamp < 9223372036854775808) records.now }
{
    records.iter().all(|captured| captured.stamp < 1 << 63)
}

fn planned(
    alloc: Global,
    script: &Script,
    records: &[PcapRecord],
) -> Result<(Plan, Course), OutOfMemory> {
    if records.len() > 100 || !are_early(records) {
        return Err(OutOfMemory);
    }
    make_plan(alloc, script, IPV4, records)
}

/// Three packets of a stream, the third after a gap.
fn three(alloc: Global) -> Result<Vec<PcapRecord>, OutOfMemory> {
    let mut records = Vec::new(alloc);
    records.push(record(alloc, 0, RTP, &packet(1, 0, 0x44))?)?;
    records.push(record(alloc, 20, RTP, &packet(2, 1800, 0x44))?)?;
    records.push(record(alloc, 60, RTP, &packet(4, 5400, 0x44))?)?;
    Ok(records)
}

#[test]
fn a_lane_by_its_plan(rt: HostRuntime) -> Result<(), Fail> {
    let alloc = rt.alloc();
    let script = read(alloc, SCRIPT)?;
    let (plan, course) = planned(alloc, &script, three(alloc)?.as_slice())?;
    assert_eq!(rt; course.routes.len(), 3);
    assert_eq!(rt; course.events.len(), 0);
    assert_eq!(rt; plan.records(), 3);
    assert_eq!(rt; plan.len(), 1);
    if plan.len() > 0 {
        let history = history(alloc, &plan)?;
        assert_eq!(rt; history.entries().len(), 11);
        assert_eq!(rt; first_other(alloc, history.entries())?, None);
    }
    Ok(())
}

/// How many deliveries of session 0, how many of session 1, and how many events.
fn lengths(lane: &PlanLane) -> (usize, usize, usize) {
    if lane.queues.len() < 2 {
        return (0, 0, 0);
    }
    (
        lane.queues.of(0).len(),
        lane.queues.of(1).len(),
        lane.events.len(),
    )
}

/// Whether the lane has this event at this place.
fn has_event(alloc: Global, lane: &PlanLane, place: u64, text: &str) -> Result<bool, OutOfMemory> {
    if place >= lane.events.len() as u64 {
        return Ok(false);
    }
    let shown = format!(in alloc; "{:?}", lane.events.at(place))?;
    Ok(shown.as_str() == text)
}

/// Packets of two sessions, the second one first, and a compound of the first.
fn mixed(alloc: Global) -> Result<Vec<PcapRecord>, OutOfMemory> {
    let mut records = Vec::new(alloc);
    records.push(record(alloc, 0, OTHER_RTP, &packet(1, 0, 0x44))?)?;
    records.push(record(alloc, 5, RTP, &packet(1, 0, 0x11))?)?;
    records.push(record(alloc, 10, RTCP, &COMPOUND)?)?;
    records.push(record(alloc, 20, RTP, &packet(2, 1800, 0x11))?)?;
    Ok(records)
}

/// Whether packets go from session 1 to lane 0, then from session 0 to lane 1, with its report
/// between them, and the events are those of sessions 0, all, 1 and 1.
fn is_course_of_two(course: &Course) -> bool {
    let ways = [(1, 0), (0, 1), (0, 1), (0, 1)];
    let sessions = [Some(0), Some(0), None, Some(1), Some(1), Some(1), Some(1)];
    let gone = course.routes.iter().map(|way| (way.session, way.lane));
    gone.eq(ways) && course.events.iter().copied().eq(sessions)
}

#[test]
fn lanes_of_two_sessions(rt: HostRuntime) -> Result<(), Fail> {
    let alloc = rt.alloc();
    let script = read(alloc, TIMED)?;
    let (plan, course) = planned(alloc, &script, mixed(alloc)?.as_slice())?;
    assert!(rt; is_course_of_two(&course));
    assert_eq!(rt; plan.len(), 2);
    if plan.len() > 1 {
        let first = plan.lane(0);
        let second = plan.lane(1);
        assert_eq!(rt; (first.session, first.ssrc), (1, 0x1122_3344));
        assert_eq!(rt; (second.session, second.ssrc), (0, 0x1122_3311));
        assert!(rt; first.cname.is_none() && second.cname.is_some());
        assert_eq!(rt; lengths(first), (0, 1, 5));
        assert_eq!(rt; lengths(second), (3, 0, 3));
        assert!(rt; has_event(alloc, first, 2, "FlushStart")?);
        assert!(rt; has_event(alloc, second, 1, "Latency(300000000)")?);
    }
    Ok(())
}

#[test]
fn a_plan_record_by_record(rt: HostRuntime) -> Result<(), Fail> {
    let alloc = rt.alloc();
    let script = read(alloc, SCRIPT)?;
    let captured = record(alloc, 0, RTP, &packet(1, 0, 0x44))?;
    let mut builder = PlanBuilder::new(alloc, &script)?;
    assert_eq!(rt; builder.records(), 0);
    assert!(rt; captured.stamp < 1 << 63);
    builder.take(alloc, IPV4, &captured)?;
    assert_eq!(rt; builder.records(), 1);
    let (plan, course) = builder.finish(alloc, &script)?;
    assert_eq!(rt; (plan.len(), course.routes.len()), (1, 1));
    Ok(())
}
