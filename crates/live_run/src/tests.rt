//! Workers that are held at places until others are where they should be.
ghost use Rattle.std.specs.Prelude.{◌<◌};

use crate::{Gate, Place, run_lanes};
use jitter_core::{Arrival, Origin, Packet, Settings, Verdict};
use live_bin::{
    ControlEvent, Course, Delivery, Entry, Events, LaneHistory, Lanes, Plan, PlanLane, Queue,
    Queues, Route,
};
use rtp_units::{Blob, Mode, OutOfMemory};
use std::alloc::Global;
use std::sync::atomic::{AtomicU64, Ordering};
use std::test::*;
use std::thread;

const SETTINGS: Settings = Settings {
    rate: 90_000,
    mode: Mode::Slave,
    latency: 100_000_000,
    rtx: false,
    rtx_delay: 20_000_000,
    rtx_retry: 40_000_000,
    rtx_max: 3,
    reorder: 3,
    dropout: 3000,
    misorder: 100,
    faststart: 0,
    pushers: 257,
};

// Waits until the count isn't 0, for a while at most, and counts where it stayed 0.
fn hold(count: &AtomicU64, missed: &AtomicU64) {
    for _ in 0..10_000_000u32 {
        if count.load(Ordering::SeqCst) != 0 {
            return;
        }
        thread::yield_now();
    }
    missed.fetch_add(1, Ordering::SeqCst);
}

// Holds the first push of session 1 until lane 0 has given a packet out, that packet's place until
// the push has come to the gate, and the last push of session 0 until a packet was given out.
#[derive(Drop)]
struct Meeting {
    second: AtomicU64,
    outputs: AtomicU64,
    missed: AtomicU64,
}

impl Gate for Meeting {
    fn pass(&self, place: Place) {
        match place {
            Place::Push { session: 0, k: 15 } => hold(&self.outputs, &self.missed),
            Place::Push { session: 1, k: 0 } => {
                self.second.fetch_add(1, Ordering::SeqCst);
                hold(&self.outputs, &self.missed);
            }
            Place::Output { lane: 0 } => {
                self.outputs.fetch_add(1, Ordering::SeqCst);
                hold(&self.second, &self.missed);
            }
            _ => {}
        }
    }
}

fn arrival(alloc: Global, session: u8, k: u64, ms: u64) -> Result<Delivery, OutOfMemory>
    requires ms { ms < 1000 }
    requires k { k < 16 }
{
    Ok(Delivery::Packet(Arrival {
        pusher: session,
        k,
        stamp: ms * 1_000_000,
        origin: Origin::Original,
        packet: Packet {
            seq: 1 + k as u16,
            rtp: 90 * ms as u32,
            pt: 96,
            marker: false,
            payload: 4,
            bytes: Blob::copy_of(alloc, &[1, 2, 3, 4])?,
        },
    }))
}

// Packets 20 ms apart.
fn queue(alloc: Global, session: u8, count: u64, first: u64) -> Result<Queue, OutOfMemory>
    requires count { count < 17 }
    requires first { first < 100 }
{
    let mut rows = Vec::new(alloc);
    for k in 0..count {
        rows.push(arrival(alloc, session, k, first + 20 * k)?)?;
    }
    Ok(Queue::new(rows))
}

fn lane(
    alloc: Global,
    session: u8,
    queues: Vec<Queue>,
    events: &[ControlEvent],
) -> Result<PlanLane, OutOfMemory> {
    Ok(PlanLane {
        session,
        ssrc: 0x1122_3344,
        settings: Settings {
            pushers: if session == 0 { 257 } else { 258 },
            ..SETTINGS
        },
        cname: None,
        queues: Queues::new(queues),
        events: Events::new(events.to_vec(alloc)?),
    })
}

// Two sessions with a lane each, whose packets come in turn.
fn two_sessions(alloc: Global) -> Result<(Option<Plan>, Course), OutOfMemory> {
    let mut first = Vec::new(alloc);
    first.push(queue(alloc, 0, 16, 0)?)?;
    let mut second = Vec::new(alloc);
    second.push(Queue::new(Vec::new(alloc)))?;
    second.push(queue(alloc, 1, 16, 10)?)?;
    let mut lanes = Vec::new(alloc);
    lanes.push(lane(alloc, 0, first, &[])?)?;
    lanes.push(lane(alloc, 1, second, &[])?)?;
    let mut routes = Vec::new(alloc);
    for _ in 0..16 {
        routes.push(Route {
            session: 0,
            lane: 0,
        })?;
        routes.push(Route {
            session: 1,
            lane: 1,
        })?;
    }
    let events = Vec::new(alloc);
    Ok((Plan::of(32, Lanes::new(lanes)), Course { routes, events }))
}

fn is_output(entry: &Entry) -> bool {
    matches!(entry, Entry::Packet { .. })
}

fn is_push(entry: &Entry) -> bool {
    matches!(entry, Entry::Push { .. })
}

// Whether a packet left before the last one came.
fn overlaps(history: &LaneHistory) -> bool {
    let entries = history.entries();
    let first = entries.iter().position(is_output).unwrap_or(entries.len());
    entries.iter().skip(first).any(is_push)
}

#[test]
fn sessions_and_loops_side_by_side(rt: HostRuntime) -> Result<(), Fail> {
    let alloc = rt.alloc();
    let gate = Meeting {
        second: AtomicU64::new(0),
        outputs: AtomicU64::new(0),
        missed: AtomicU64::new(0),
    };
    let (plan, course) = two_sessions(alloc)?;
    assert!(rt; plan.is_some());
    if let Some(plan) = plan {
        if plan.len() <= 64 {
            let histories = run_lanes(&rt, alloc, &plan, &course, &gate)?;
            assert_eq!(rt; histories.len(), 2);
            assert_eq!(rt; gate.missed.load(Ordering::SeqCst), 0);
            assert!(rt; histories.first().is_some_and(overlaps));
        }
    }
    Ok(())
}

// Holds the first push until the control has come to its third event, and that event until the third
// push has come to the gate.
#[derive(Drop)]
struct InFlush {
    third: AtomicU64,
    event: AtomicU64,
    missed: AtomicU64,
}

impl Gate for InFlush {
    fn pass(&self, place: Place) {
        match place {
            Place::Push { session: 0, k: 0 } => hold(&self.event, &self.missed),
            Place::Push { session: 0, k: 2 } => {
                self.third.fetch_add(1, Ordering::SeqCst);
            }
            Place::Control { k: 2 } => {
                self.event.fetch_add(1, Ordering::SeqCst);
                hold(&self.third, &self.missed);
            }
            _ => {}
        }
    }
}

fn flushed(alloc: Global) -> Result<(Option<Plan>, Course), OutOfMemory> {
    let control = [
        ControlEvent::Clock(10_000_000),
        ControlEvent::FlushStart,
        ControlEvent::Clock(20_000_000),
        ControlEvent::FlushStop,
    ];
    let mut queues = Vec::new(alloc);
    queues.push(queue(alloc, 0, 3, 0)?)?;
    let mut lanes = Vec::new(alloc);
    lanes.push(lane(alloc, 0, queues, &control)?)?;
    let routes = vec![in alloc; Route {
        session: 0,
        lane: 0
    }; 3]?;
    let events = vec![in alloc; Some(0u8); 4]?;
    Ok((Plan::of(3, Lanes::new(lanes)), Course { routes, events }))
}

fn is_refused_in_flush(entry: &Entry) -> bool {
    matches!(
        entry,
        Entry::Push {
            verdict: Verdict::Flushing,
            ..
        }
    )
}

#[test]
fn packets_of_a_flush(rt: HostRuntime) -> Result<(), Fail> {
    let alloc = rt.alloc();
    let gate = InFlush {
        third: AtomicU64::new(0),
        event: AtomicU64::new(0),
        missed: AtomicU64::new(0),
    };
    let (plan, course) = flushed(alloc)?;
    assert!(rt; plan.is_some());
    if let Some(plan) = plan {
        if plan.len() <= 64 {
            let histories = run_lanes(&rt, alloc, &plan, &course, &gate)?;
            assert_eq!(rt; gate.missed.load(Ordering::SeqCst), 0);
            let mut refused = 0u64;
            for history in &histories {
                for entry in history.entries() {
                    if is_refused_in_flush(entry) {
                        refused = refused.saturating_add(1);
                    }
                }
            }
            assert!(rt; refused >= 2);
        }
    }
    Ok(())
}
