//! The lines of a lane that is called step by step: two packets in order and one after a gap.
ghost use Rattle.std.specs.Prelude.{◌≡◌, ◌<◌, length};

use crate::entry;
use jitter_core::{Arrival, Origin, Packet, Settings};
use live_bin::{
    Delivery, Entry, Events, LaneState, Lanes, Next, Plan, PlanLane, Queue, Queues, Run,
};
use rtp_units::{Blob, Mode, OutOfMemory};
use std::alloc::Global;
use std::marker::Brand;
use std::test::*;

const SETTINGS: Settings = Settings {
    rate: 90_000,
    mode: Mode::Slave,
    latency: 100_000_000,
    rtx: false,
    rtx_delay: 20_000_000,
    rtx_retry: 40_000_000,
    rtx_max: 3,
    reorder: 3,
    dropout: 3000,
    misorder: 100,
    faststart: 0,
    pushers: 257,
};

const LINES: [&str; 11] = [
    "0 ends 8\n",
    "1 push 0 0 0 1 o accepted 65537 0 0\n",
    "2 push 0 1 20000000 2 o accepted 65538 0 0\n",
    "3 push 0 2 60000000 4 o accepted 65540 0 0\n",
    "4 ends 0\n",
    "5 out 65537 0 96 0 4\n",
    "6 out 65538 20000000 96 0 4\n",
    "7 clock 9 140000000\n",
    "8 lost 65539 1 40000000 20000000\n",
    "9 out 65540 60000000 96 0 4\n",
    "10 end\n",
];

fn delivery(
    alloc: Global,
    k: u64,
    stamp: u64,
    seq: u16,
    rtp: u32,
) -> Result<Delivery, OutOfMemory> {
    Ok(Delivery::Packet(Arrival {
        pusher: 0,
        k,
        stamp,
        origin: Origin::Original,
        packet: Packet {
            seq,
            rtp,
            pt: 96,
            marker: false,
            payload: 4,
            bytes: Blob::copy_of(alloc, &[1, 2, 3, 4])?,
        },
    }))
}

fn plan(alloc: Global) -> Result<Option<Plan>, OutOfMemory> {
    let mut rows = Vec::new(alloc);
    rows.push(delivery(alloc, 0, 0, 1, 0)?)?;
    rows.push(delivery(alloc, 1, 20_000_000, 2, 1800)?)?;
    rows.push(delivery(alloc, 2, 60_000_000, 4, 5400)?)?;
    let mut queues = Vec::new(alloc);
    queues.push(Queue::new(rows))?;
    let mut lanes = Vec::new(alloc);
    lanes.push(PlanLane {
        session: 0,
        ssrc: 0x1122_3344,
        settings: SETTINGS,
        cname: None,
        queues: Queues::new(queues),
        events: Events::new(Vec::new(alloc)),
    })?;
    Ok(Plan::of(3, Lanes::new(lanes)))
}

/// The control ends, session 0 brings its three packets and ends, and then nobody brings anything.
fn bring_all<K: Run>(state: &mut LaneState<K>, plan: &Plan) -> Result<[bool; 8], OutOfMemory>
    requires plan { plan.now ≡ K.plan }
{
    Ok([
        state.ends(plan, 8)?,
        state.deliver(plan, 0)?,
        state.deliver(plan, 0)?,
        state.deliver(plan, 0)?,
        state.ends(plan, 0)?,
        state.deliver(plan, 0)?,
        state.ends(plan, 0)?,
        state.deliver(plan, 1)?,
    ])
}

/// Takes a turn, and steps the clock where the lane waits and its pushers ended.
fn step<K: Run>(state: &mut LaneState<K>) -> Result<bool, OutOfMemory> {
    match state.turn()? {
        Next::Again => Ok(true),
        Next::Wait(Some(t)) => {
            if state.all_ended() {
                state.tick(t)?;
            }
            Ok(true)
        }
        Next::Wait(None) | Next::Flushing | Next::Ended | Next::Stopped => Ok(false),
    }
}

fn run_loop<K: Run>(state: &mut LaneState<K>) -> Result<(), OutOfMemory> {
    for _ in 0..16u8 {
        if !step(state)? {
            return Ok(());
        }
    }
    Ok(())
}

/// The place of the first entry that has another line.
fn first_other(alloc: Global, journal: &[Entry]) -> Result<Option<usize>, OutOfMemory> {
    for (place, line) in LINES.iter().enumerate() {
        let same = match journal.get(place) {
            Some(of) => entry(alloc, place as u64, of, false)?.bytes() == line.as_bytes(),
            None => false,
        };
        if !same {
            return Ok(Some(place));
        }
    }
    Ok(None)
}

/// The answers of the pushers' calls, the first entry that has another line, how many entries there
/// are, and whether a turn after a stop answers that.
fn call_by_call<K: Run>(
    alloc: Global,
    plan: &Plan,
) -> Result<([bool; 8], Option<usize>, usize, bool), OutOfMemory>
    requires plan { plan.now ≡ K.plan }
    requires lane { 0 < length plan.now.lanes }
{
    let mut state = LaneState::<K>::new(alloc, plan, 0)?;
    let answers = bring_all(&mut state, plan)?;
    run_loop(&mut state)?;
    let other = first_other(alloc, state.journal())?;
    let count = state.journal().len();
    state.stop();
    let stopped = matches!(state.turn()?, Next::Stopped);
    Ok((answers, other, count, stopped))
}

fn called(
    alloc: Global,
    plan: &Plan,
) -> Result<([bool; 8], Option<usize>, usize, bool), OutOfMemory>
    requires { 0 < length plan.now.lanes }
{
    call_by_call::<Brand>(alloc, plan)
}

#[test]
fn a_lane_line_by_line(rt: HostRuntime) -> Result<(), Fail> {
    let alloc = rt.alloc();
    let plan = plan(alloc)?;
    assert!(rt; plan.is_some());
    if let Some(plan) = plan {
        if plan.len() > 0 {
            let answers = [true, true, true, true, true, false, false, false];
            assert_eq!(rt; called(alloc, &plan)?, (answers, None, 11, true));
        }
    }
    Ok(())
}
