//! The workers that push: the control, and the sessions.
ghost use Rattle.std.specs.Prelude.{◌≡◌, ◌<◌};

use crate::cell::{Cell, Gate, Place};
use live_bin::{Course, Entry, LaneState, Next, Plan, Run};
use rtp_units::OutOfMemory;
use std::sync::Wait;

/// A session's worker takes turns itself on a lane that holds so many packets, so that the lane,
/// which has room for 8,192 numbers, takes what comes next too.
const CROWD: u32 = 4096;

/// Gives each lane its control events in the order of the script, and ends the control.
pub fn send_controls<K: Run, R: Wait, G: Gate>(
    rt: &R,
    plan: &Plan,
    course: &Course,
    gate: &G,
    cells: &[Cell<K>],
)
    requires plan { plan.now ≡ K.plan }
{
    for (k, session) in course.events.iter().enumerate() {
        gate.pass(Place::Control { k: k as u64 });
        send_event(rt, plan, cells, *session);
    }
    for cell in cells {
        end_control(rt, plan, cell);
    }
}

// Gives the next control event to each lane of the session, or to all lanes.
fn send_event<K: Run, R: Wait>(rt: &R, plan: &Plan, cells: &[Cell<K>], session: Option<u8>)
    requires plan { plan.now ≡ K.plan }
{
    for number in 0..cells.len() {
        if concerns(plan, number, session) {
            send_control(rt, plan, &cells[number]);
        }
    }
}

// Whether an event of this session, or of all, is one of the lane's.
fn concerns(plan: &Plan, number: usize, session: Option<u8>) -> bool {
    match session {
        Some(session) => {
            number < plan.len() && number < 64 && plan.lane(number as u8).session == session
        }
        None => true,
    }
}

fn send_control<K: Run, R: Wait>(rt: &R, plan: &Plan, cell: &Cell<K>)
    requires plan { plan.now ≡ K.plan }
{
    let mut guard = cell.state.lock(rt);
    let state = &mut *guard;
    if state.control(plan).is_err() {
        state.stop();
    }
    drop(guard);
    cell.changed.notify_all();
}

fn end_control<K: Run, R: Wait>(rt: &R, plan: &Plan, cell: &Cell<K>)
    requires plan { plan.now ≡ K.plan }
{
    let mut guard = cell.state.lock(rt);
    let state = &mut *guard;
    if state.end_control(plan).is_err() {
        state.stop();
    }
    drop(guard);
    cell.changed.notify_all();
}

/// Gives the lanes what this session brings, in the order of the capture, and ends it. `session` is
/// from 0 to 7.
pub fn send_deliveries<K: Run, R: Wait, G: Gate>(
    rt: &R,
    plan: &Plan,
    course: &Course,
    gate: &G,
    cells: &[Cell<K>],
    session: u8,
)
    requires plan { plan.now ≡ K.plan }
    requires session { session < 8 }
{
    let mut k = 0;
    for route in course.routes.iter() {
        if route.session == session && usize::from(route.lane) < cells.len() {
            gate.pass(Place::Push { session, k });
            let given = send_delivery(rt, plan, &cells[usize::from(route.lane)], session);
            pass_outputs(gate, route.lane, given);
            k += 1;
        }
    }
    for cell in cells {
        end_session(rt, plan, cell, session);
    }
}

// Passes the gate for packets that left the lane.
fn pass_outputs<G: Gate>(gate: &G, lane: u8, given: u32) {
    for _ in 0..given {
        gate.pass(Place::Output { lane });
    }
}

// Gives a lane the next delivery. Where the lane holds many packets, turns are taken first: answers
// how many packets left it then.
fn send_delivery<K: Run, R: Wait>(rt: &R, plan: &Plan, cell: &Cell<K>, session: u8) -> u32
    requires plan { plan.now ≡ K.plan }
{
    let mut guard = cell.state.lock(rt);
    let state = &mut *guard;
    let given = make_room(rt, state);
    if state.deliver(plan, session).is_err() {
        state.stop();
    }
    drop(guard);
    cell.changed.notify_all();
    given
}

// Takes the turns that are due on a lane that holds many packets. Answers how many packets left it.
fn make_room<K: Run, R: Wait>(rt: &R, state: &mut LaneState<K>) -> u32 {
    let mut given = 0u32;
    if state.store().ring().len() < CROWD {
        return given;
    }
    for _ in rt.forever() {
        match state.turn() {
            Ok(Next::Again) => {
                if let Some(Entry::Packet { .. }) = state.journal().last() {
                    given = given.saturating_add(1);
                }
            }
            Ok(_) => break,
            Err(OutOfMemory) => {
                state.stop();
                break;
            }
        }
    }
    given
}

fn end_session<K: Run, R: Wait>(rt: &R, plan: &Plan, cell: &Cell<K>, session: u8)
    requires plan { plan.now ≡ K.plan }
    requires session { session < 8 }
{
    let mut guard = cell.state.lock(rt);
    let state = &mut *guard;
    if state.end_session(plan, session).is_err() {
        state.stop();
    }
    drop(guard);
    cell.changed.notify_all();
}
