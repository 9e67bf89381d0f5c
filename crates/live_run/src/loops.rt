//! The loop of a lane.

use crate::cell::{Cell, Gate, Place};
use live_bin::{Entry, LaneState, Next, Run};
use rtp_units::OutOfMemory;
use std::sync::Wait;

// What a turn of a lane's loop comes to.
#[derive(Clone, Copy, Debug, PartialEq, Eq, Drop)]
enum Step {
    /// A packet left the lane.
    Output,
    /// Something else came of it.
    Again,
    /// There is nothing to do before a pusher comes.
    Wait,
    /// The loop is over.
    End,
}

/// Takes a lane's turns until its End.
pub fn take_turns<K: Run, R: Wait, G: Gate>(rt: &R, gate: &G, cell: &Cell<K>, lane: u8) {
    for _ in rt.forever() {
        match take_turn(rt, cell) {
            Step::Output => gate.pass(Place::Output { lane }),
            Step::Again | Step::Wait => {}
            Step::End => break,
        }
    }
}

// Takes one turn, and waits where there is nothing to do yet.
fn take_turn<K: Run, R: Wait>(rt: &R, cell: &Cell<K>) -> Step {
    let mut guard = cell.state.lock(rt);
    let state = &mut *guard;
    let step = advance(state);
    if step == Step::Wait {
        let _guard = cell.changed.wait(rt, guard);
    }
    step
}

// Takes a turn, and steps the clock where the lane is idle and all its pushers ended. So turn, test
// and step are under one lock.
fn advance<K: Run>(state: &mut LaneState<K>) -> Step {
    match state.turn() {
        Ok(Next::Again) => told(state.journal()),
        Ok(Next::Wait(Some(t))) => {
            if state.all_ended() {
                match state.tick(t) {
                    Ok(()) => Step::Again,
                    Err(OutOfMemory) => stop(state),
                }
            } else {
                Step::Wait
            }
        }
        Ok(Next::Wait(None) | Next::Flushing) => {
            if state.all_ended() {
                Step::End
            } else {
                Step::Wait
            }
        }
        Ok(Next::Ended | Next::Stopped) => Step::End,
        Err(OutOfMemory) => stop(state),
    }
}

fn told(journal: &[Entry]) -> Step {
    match journal.last() {
        Some(Entry::Packet { .. }) => Step::Output,
        _ => Step::Again,
    }
}

fn stop<K: Run>(state: &mut LaneState<K>) -> Step {
    state.stop();
    Step::End
}
