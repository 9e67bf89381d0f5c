//! Runs a plan with workers beside each other.
ghost use Rattle.std.specs.Prelude.{◌≡◌, ◌<◌, ◌≤◌, length, vec_len, IfOk};
ghost use Rattle.live_run.specs.Histories.{AreWhole};

use crate::cell::{Cell, Gate};
use crate::loops::take_turns;
use crate::pushers::{send_controls, send_deliveries};
use live_bin::{Course, LaneHistory, LaneState, Plan, Run};
use rtp_units::OutOfMemory;
use std::alloc::Global;
use std::marker::Brand;
use std::sync::{Condvar, Mutex, Wait};
use std::thread;
use std::thread::Threads;

// What a thread does.
#[derive(Clone, Copy, Drop)]
enum Worker {
    Control,
    Session(u8),
    Loop(u8),
}

/// Runs a plan: one worker gives the lanes the control events, one for each session what it brings,
/// and one for each lane takes its turns. Answers one history for each lane, in the plan's order. Each fits
/// the plan and is complete, whatever the order was in which the workers came. It may wait for ever where a gate
/// does.
pub fn run_lanes<R: Threads + Wait + Sync, G: Gate + Sync>(
    rt: &R,
    alloc: Global,
    plan: &Plan,
    course: &Course,
    gate: &G,
) -> Result<Vec<LaneHistory>, OutOfMemory>
    requires few { length plan.now.lanes ≤ 64 }
    ensures whole { IfOk result (λ v. AreWhole plan.now v.items) }
{
    run_named::<Brand, R, G>(rt, alloc, plan, course, gate)
}

// Runs the plan that K names.
fn run_named<K: Run + Send + Sync, R: Threads + Wait + Sync, G: Gate + Sync>(
    rt: &R,
    alloc: Global,
    plan: &Plan,
    course: &Course,
    gate: &G,
) -> Result<Vec<LaneHistory>, OutOfMemory>
    requires plan { plan.now ≡ K.plan }
    requires few { length plan.now.lanes ≤ 64 }
    ensures whole { IfOk result (λ v. AreWhole plan.now v.items) }
{
    let cells: Vec<Cell<K>> = make_cells(alloc, plan)?;
    let mut workers = make_workers(alloc, plan)?;
    let threads = workers.len();
    let shared = cells.as_slice();
    thread::for_each_mut(
        rt,
        workers.as_mut_slice(),
        threads,
        &|_, worker: &mut Worker|
            requires { plan.now ≡ K.plan }
        { work(rt, plan, course, gate, shared, *worker) },
    );
    complete_all(alloc, plan, cells)
}

// A cell for each lane.
fn make_cells<K: Run>(alloc: Global, plan: &Plan) -> Result<Vec<Cell<K>>, OutOfMemory>
    requires plan { plan.now ≡ K.plan }
    requires few { length plan.now.lanes ≤ 64 }
    ensures { IfOk result (λ v. vec_len v ≡ length plan.now.lanes) }
{
    let mut cells = Vec::new(alloc);
    for number in 0..plan.len() as u8 {
        cells.push(Cell {
            state: Mutex::new(LaneState::new(alloc, plan, number)?),
            changed: Condvar::new(),
        })?;
    }
    Ok(cells)
}

// The control, the sessions, and a loop for each lane, the last one first: where no thread can be
// made for a part of them, what stands behind it runs before it. So no loop waits on its thread for
// a pusher that comes later.
fn make_workers(alloc: Global, plan: &Plan) -> Result<Vec<Worker>, OutOfMemory>
    requires few { length plan.now.lanes ≤ 64 }
    ensures some { IfOk result (λ v. 0 < vec_len v) }
{
    let mut workers = Vec::new(alloc);
    workers.push(Worker::Control)?;
    for session in 0..8u8 {
        workers.push(Worker::Session(session))?;
    }
    for number in 0..plan.len() as u8 {
        workers.push(Worker::Loop(number))?;
    }
    workers.as_mut_slice().reverse();
    Ok(workers)
}

fn work<K: Run, R: Wait, G: Gate>(
    rt: &R,
    plan: &Plan,
    course: &Course,
    gate: &G,
    cells: &[Cell<K>],
    worker: Worker,
)
    requires plan { plan.now ≡ K.plan }
{
    match worker {
        Worker::Control => send_controls(rt, plan, course, gate, cells),
        Worker::Session(session) => {
            if session < 8 {
                send_deliveries(rt, plan, course, gate, cells, session);
            }
        }
        Worker::Loop(lane) => {
            if usize::from(lane) < cells.len() {
                take_turns(rt, gate, &cells[usize::from(lane)], lane);
            }
        }
    }
}

// Completes the states of all lanes, one after the other.
fn complete_all<K: Run>(
    alloc: Global,
    plan: &Plan,
    mut cells: Vec<Cell<K>>,
) -> Result<Vec<LaneHistory>, OutOfMemory>
    requires plan { plan.now ≡ K.plan }
    requires few { length plan.now.lanes ≤ 64 }
    requires all { vec_len cells ≡ length plan.now.lanes }
    ensures { IfOk result (λ v. AreWhole plan.now v.items) }
{
    let mut histories = Vec::new(alloc);
    let mut number: u8 = 0;
    cells.as_mut_slice().reverse();
    while let Some(cell) = cells.pop() {
        let Cell { state, changed: _ } = cell;
        let state = expected(alloc, plan, state.into_inner(), number)?;
        histories.push(state.complete(plan)?)?;
        number += 1;
    }
    Ok(histories)
}

// The state of this lane, or a new one in its place.
fn expected<K: Run>(
    alloc: Global,
    plan: &Plan,
    state: LaneState<K>,
    number: u8,
) -> Result<LaneState<K>, OutOfMemory>
    requires plan { plan.now ≡ K.plan }
    requires number { number < length plan.now.lanes }
    ensures { IfOk result (λ state. state.lane.number ≡ number) }
{
    if state.lane() == number {
        Ok(state)
    } else {
        LaneState::new(alloc, plan, number)
    }
}
