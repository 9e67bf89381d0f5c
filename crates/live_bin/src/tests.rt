//! A lane that is given two packets in order and one after a gap.
ghost use Rattle.std.specs.Prelude.{◌≡◌, ◌<◌, length, IfSome, IfOk};

use crate::{
    Delivery, Entry, Events, LaneHistory, LaneState, Lanes, Next, Plan, PlanLane, Queue, Queues,
    Run,
};
use jitter_core::{Arrival, Origin, Packet, Settings};
use rtp_units::{Blob, Mode, OutOfMemory};
use std::alloc::Global;
use std::marker::Brand;
use std::test::*;

const SETTINGS: Settings = Settings {
    rate: 90_000,
    mode: Mode::Slave,
    latency: 100_000_000,
    rtx: false,
    rtx_delay: 20_000_000,
    rtx_retry: 40_000_000,
    rtx_max: 3,
    reorder: 3,
    dropout: 3000,
    misorder: 100,
    faststart: 0,
    pushers: 257,
};

const WHOLE: [&str; 11] = [
    "Ends { pusher: 8 }",
    "Push { pusher: 0, k: 0, stamp: 0, seq: 1, origin: Original, verdict: Accepted, \
     number: 65537, aside_dropped: 0 }",
    "Push { pusher: 0, k: 1, stamp: 20000000, seq: 2, origin: Original, verdict: Accepted, \
     number: 65538, aside_dropped: 0 }",
    "Push { pusher: 0, k: 2, stamp: 60000000, seq: 4, origin: Original, verdict: Accepted, \
     number: 65540, aside_dropped: 0 }",
    "Ends { pusher: 0 }",
    "Packet { number: 65537, pts: 0, packet: Packet { seq: 1, rtp: 0, pt: 96, \
     marker: false, payload: 4, bytes: Blob { items: [1, 2, 3, 4] } } }",
    "Packet { number: 65538, pts: 20000000, packet: Packet { seq: 2, rtp: 1800, pt: 96, \
     marker: false, payload: 4, bytes: Blob { items: [1, 2, 3, 4] } } }",
    "Clock { by: 9, t: 140000000 }",
    "Lost { number: 65539, count: 1, pts: 40000000, duration: 20000000 }",
    "Packet { number: 65540, pts: 60000000, packet: Packet { seq: 4, rtp: 5400, pt: 96, \
     marker: false, payload: 4, bytes: Blob { items: [1, 2, 3, 4] } } }",
    "End",
];

fn is_shown(alloc: Global, entry: &Entry, text: &str) -> Result<bool, OutOfMemory> {
    let shown = format!(in alloc; "{entry:?}")?;
    Ok(shown.as_str() == text)
}

/// The place of the first entry that is another one.
fn first_other(alloc: Global, journal: &[Entry]) -> Result<Option<usize>, OutOfMemory> {
    for (place, text) in WHOLE.iter().enumerate() {
        let same = match journal.get(place) {
            Some(entry) => is_shown(alloc, entry, text)?,
            None => false,
        };
        if !same {
            return Ok(Some(place));
        }
    }
    Ok(None)
}

fn delivery(
    alloc: Global,
    k: u64,
    stamp: u64,
    seq: u16,
    rtp: u32,
) -> Result<Delivery, OutOfMemory> {
    Ok(Delivery::Packet(Arrival {
        pusher: 0,
        k,
        stamp,
        origin: Origin::Original,
        packet: Packet {
            seq,
            rtp,
            pt: 96,
            marker: false,
            payload: 4,
            bytes: Blob::copy_of(alloc, &[1, 2, 3, 4])?,
        },
    }))
}

fn lane(alloc: Global) -> Result<PlanLane, OutOfMemory> {
    let mut rows = Vec::new(alloc);
    rows.push(delivery(alloc, 0, 0, 1, 0)?)?;
    rows.push(delivery(alloc, 1, 20_000_000, 2, 1800)?)?;
    rows.push(delivery(alloc, 2, 60_000_000, 4, 5400)?)?;
    let mut queues = Vec::new(alloc);
    queues.push(Queue::new(rows))?;
    Ok(PlanLane {
        session: 0,
        ssrc: 0x1122_3344,
        settings: SETTINGS,
        cname: None,
        queues: Queues::new(queues),
        events: Events::new(Vec::new(alloc)),
    })
}

fn plan(alloc: Global, lane: PlanLane) -> Result<Option<Plan>, OutOfMemory> {
    let mut lanes = Vec::new(alloc);
    lanes.push(lane)?;
    Ok(Plan::of(3, Lanes::new(lanes)))
}

/// Takes a turn, and steps the clock where the lane is idle and its pushers ended.
fn step<K: Run>(state: &mut LaneState<K>) -> Result<bool, OutOfMemory> {
    match state.turn()? {
        Next::Again => Ok(true),
        Next::Wait(Some(t)) => {
            if state.all_ended() {
                state.tick(t)?;
            }
            Ok(true)
        }
        Next::Wait(None) | Next::Flushing | Next::Ended | Next::Stopped => Ok(false),
    }
}

/// The answers of the pushers' calls.
fn push_all<K: Run>(state: &mut LaneState<K>, plan: &Plan) -> Result<[bool; 10], OutOfMemory>
    requires plan { plan.now ≡ K.plan }
{
    Ok([
        state.control(plan)?,
        state.ends(plan, 8)?,
        state.deliver(plan, 0)?,
        state.deliver(plan, 0)?,
        state.ends(plan, 0)?,
        state.deliver(plan, 0)?,
        state.ends(plan, 0)?,
        state.deliver(plan, 0)?,
        state.ends(plan, 0)?,
        state.deliver(plan, 1)?,
    ])
}

/// How many steps the lane's loop takes.
fn run_loop<K: Run>(state: &mut LaneState<K>) -> Result<u8, OutOfMemory> {
    for taken in 0..16u8 {
        if !step(state)? {
            return Ok(taken);
        }
    }
    Ok(16)
}

/// Pushers and loop one after the other: what the pushers' calls answered, how many steps the loop
/// took, and the first entry that is another one.
fn call_by_call<K: Run>(
    alloc: Global,
    plan: &Plan,
) -> Result<([bool; 10], u8, Option<usize>), OutOfMemory>
    requires plan { plan.now ≡ K.plan }
    requires lane { 0 < length plan.now.lanes }
{
    let mut state = LaneState::<K>::new(alloc, plan, 0)?;
    let answers = push_all(&mut state, plan)?;
    let steps = run_loop(&mut state)?;
    let other = first_other(alloc, state.journal())?;
    Ok((answers, steps, other))
}

/// Whether a turn of a lane that was stopped answers that.
fn stopped<K: Run>(alloc: Global, plan: &Plan) -> Result<bool, OutOfMemory>
    requires plan { plan.now ≡ K.plan }
    requires lane { 0 < length plan.now.lanes }
{
    let mut state = LaneState::<K>::new(alloc, plan, 0)?;
    state.stop();
    Ok(matches!(state.turn()?, Next::Stopped))
}

fn completed<K: Run>(alloc: Global, plan: &Plan) -> Result<LaneHistory, OutOfMemory>
    requires plan { plan.now ≡ K.plan }
    requires lane { 0 < length plan.now.lanes }
{
    let state = LaneState::<K>::new(alloc, plan, 0)?;
    state.complete(plan)
}

fn answers(alloc: Global, plan: &Plan) -> Result<([bool; 10], u8, Option<usize>), OutOfMemory>
    requires { 0 < length plan.now.lanes }
{
    call_by_call::<Brand>(alloc, plan)
}

fn stops(alloc: Global, plan: &Plan) -> Result<bool, OutOfMemory>
    requires { 0 < length plan.now.lanes }
{
    stopped::<Brand>(alloc, plan)
}

fn history(alloc: Global, plan: &Plan) -> Result<LaneHistory, OutOfMemory>
    requires { 0 < length plan.now.lanes }
{
    completed::<Brand>(alloc, plan)
}

#[test]
fn a_lane_call_by_call(rt: HostRuntime) -> Result<(), Fail> {
    let alloc = rt.alloc();
    let plan = plan(alloc, lane(alloc)?)?;
    assert!(rt; plan.is_some());
    if let Some(plan) = plan {
        assert_eq!(rt; plan.len(), 1);
        if plan.len() > 0 {
            let given = [
                false, true, true, true, false, true, true, false, false, false,
            ];
            assert_eq!(rt; answers(alloc, &plan)?, (given, 5, None));
            assert!(rt; stops(alloc, &plan)?);
        }
    }
    Ok(())
}

#[test]
fn a_lane_at_once(rt: HostRuntime) -> Result<(), Fail> {
    let alloc = rt.alloc();
    if let Some(plan) = plan(alloc, lane(alloc)?)? {
        if plan.len() > 0 {
            let history = history(alloc, &plan)?;
            assert_eq!(rt; history.entries().len(), 11);
            assert_eq!(rt; first_other(alloc, history.entries())?, None);
        }
    }
    Ok(())
}

#[test]
fn a_rate_out_of_range(rt: HostRuntime) -> Result<(), Fail> {
    let alloc = rt.alloc();
    let unclocked = Settings {
        rate: 0,
        ..SETTINGS
    };
    let lane = PlanLane {
        settings: unclocked,
        ..lane(alloc)?
    };
    assert!(rt; plan(alloc, lane)?.is_none());
    Ok(())
}
