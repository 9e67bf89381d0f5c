//! The timers of requests that are still to come.

ghost use Rattle.std.specs.Prelude.{◌≡◌, ◌<◌, ◌≤◌, ◌^◌, ◌+◌, ◌*◌, [], IfOk, IfSome, None, Some, option_map, true, false};
ghost use Rattle.std.specs.FinMap as map;
ghost use Rattle.jitter_timers.specs.Timers.{queue, IsQueue, HasRoom};
ghost use Rattle.jitter_model.specs.Turns.{low as low_of};
ghost use Rattle.jitter_core.specs.Steps.{IsBounded};
ghost use Rattle.jitter_core.specs.Requesting.{asked_of};
ghost use Rattle.jitter_core.specs.Scheduling.{pending, with_timer, IsTimed, AreTimers};
ghost use Rattle.jitter_core.specs.Scheduling.{AreTimersBelow, AreTimersBut, CanFill, AreInRange, AreLater};
ghost use Rattle.jitter_core.specs.Scheduling.{state_gaps};
ghost use Rattle.jitter_core.specs.Turning.{have_ended, state_sight, state_asked, state_wake, Serves};

use crate::requesting::{Due, due_for, lowest, pending_time};
use crate::state::State;
use jitter_model::Turn;
use jitter_model::laws::{replies_tell, searches_find_the_least};
use jitter_timers::{Steps, TimerQueue};
use rtp_units::OutOfMemory;
use std::alloc::Global;
use std::sync::ledger::Ledger;

// More than the numbers that can have requests, which lie less than 8,194 apart.
const ROOM: usize = 16_384;

/// The timer of each number that has a request still to come: when the first one is due that was not served.
#[derive(Drop)]
pub struct Schedule {
    pub timers: TimerQueue,
    /// From which number on the timers may differ from the requests, if any may; all may where it is 0.
    pub stale_from: Option<u64>,
}

impl Schedule {
    /// No timers.
    pub fn new(alloc: Global) -> Result<Schedule, OutOfMemory>
        ensures timers { IfOk result (λ x. x.timers ≡ queue 16384 map.empty []) }
        ensures stale { IfOk result (λ x. x.stale_from ≡ Some 0) }
    {
        Ok(Schedule {
            timers: TimerQueue::with_capacity(alloc, ROOM)?,
            stale_from: Some(0),
        })
    }
}

/// Sets the timers of the numbers from `from` on anew.
fn schedule_from<L: Ledger>(
    state: &State,
    timers: &mut TimerQueue,
    from: u64,
    ended: bool,
    steps: &mut Steps<L>,
)
    requires bounded { IsBounded state.now }
    requires ended { ended ≡ have_ended state.now.settings.pushers state.now.progress.ended }
    requires room { timers.old.room ≡ 16384 }
    requires below { AreTimersBelow state.now from timers.old.times }
    ensures room { timers.new.room ≡ 16384 }
    ensures right { AreTimers state.now timers.new.times }
    ensures quick { steps.new ≤ steps.old + 14 * (state_gaps state.now + 2) }
{
    let start = lowest(state).max(from);
    let mut number = state.span.top.unwrap_or(0) + 2;
    while start < number {
        number -= 1;
        if !state.held.has(number) {
            reschedule(state, timers, number, ended, steps);
        }
    }
}

/// Sets all timers anew.
fn schedule_all<L: Ledger>(
    state: &State,
    timers: &mut TimerQueue,
    ended: bool,
    steps: &mut Steps<L>,
)
    requires bounded { IsBounded state.now }
    requires ended { ended ≡ have_ended state.now.settings.pushers state.now.progress.ended }
    requires room { timers.old.room ≡ 16384 }
    ensures room { timers.new.room ≡ 16384 }
    ensures right { AreTimers state.now timers.new.times }
    ensures quick { steps.new ≤ steps.old + 14 * (state_gaps state.now + 2) }
{
    timers.clear();
    if state.settings.rtx {
        schedule_from(state, timers, 0, ended, steps);
    }
}

/// Sets the timers anew that are stale.
pub fn refresh<L: Ledger>(state: &State, schedule: &mut Schedule, ended: bool, steps: &mut Steps<L>)
    requires bounded { IsBounded state.now }
    requires ended { ended ≡ have_ended state.now.settings.pushers state.now.progress.ended }
    requires timed { IsTimed state.now schedule.old }
    ensures room { schedule.new.timers.room ≡ 16384 }
    ensures right { AreTimers state.now schedule.new.timers.times }
    ensures stale { schedule.new.stale_from ≡ None }
    ensures quick { steps.new ≤ steps.old + 14 * (state_gaps state.now + 2) }
    ensures none { schedule.old.stale_from ≡ None → steps.new ≡ steps.old }
{
    let Some(from) = schedule.stale_from else {
        return;
    };
    schedule.stale_from = None;
    if from == 0 {
        schedule_all(state, &mut schedule.timers, ended, steps);
    } else {
        schedule_from(state, &mut schedule.timers, from, ended, steps);
    }
}

/// The request that is answered, if one is due. Drops the timers before it, whose limits have passed.
pub fn first_request<L: Ledger>(
    state: &State,
    timers: &mut TimerQueue,
    ended: bool,
    steps: &mut Steps<L>,
) -> Option<Due>
    requires bounded { IsBounded state.now }
    requires ended { ended ≡ have_ended state.now.settings.pushers state.now.progress.ended }
    requires right { AreTimers state.now timers.old.times }
    ensures value { option_map asked_of result ≡ state_asked state.now }
    ensures room { timers.new.room ≡ timers.old.room }
    ensures right { AreTimers state.now timers.new.times }
    ensures later { result ≡ None → AreLater state.now.progress.time timers.new.times }
    ensures quick { steps.new ≤ steps.old + 14 * (state_gaps state.now + 1) }
{
    while let Some((time, number)) = timers.first() {
        if state.progress.time < time {
            return None;
        }
        if let Some(due) = due_for(state, number, ended) {
            return Some(due);
        }
        timers.cancel(number, steps);
    }
    None
}

/// When the next request is due.
pub fn first_wake(state: &State, timers: &TimerQueue) -> Option<u64>
    requires bounded { IsBounded state.now }
    requires right { AreTimers state.now timers.now.times }
    requires later { AreLater state.now.progress.time timers.now.times }
    ensures { result ≡ state_wake state.now }
{
    // Laws for the proof; the calls do nothing.
    replies_tell();
    searches_find_the_least();
    match timers.first() {
        None => None,
        Some((time, _)) => Some(time),
    }
}

/// Sets the timer of a number anew.
fn reschedule<L: Ledger>(
    state: &State,
    timers: &mut TimerQueue,
    number: u64,
    ended: bool,
    steps: &mut Steps<L>,
)
    requires bounded { IsBounded state.now }
    requires ended { ended ≡ have_ended state.now.settings.pushers state.now.progress.ended }
    requires number { number ≤ 2 ^ 62 }
    requires room { HasRoom timers.old number }
    requires few { map.len timers.old.times ≤ 8194 }
    ensures after { IsQueue timers.new timers.old.room
        (with_timer timers.old.times number
        (pending state.now.settings (state_sight state.now) number)) }
    ensures quick { steps.new ≤ steps.old + 14 }
{
    match pending_time(state, number, ended) {
        Some(time) => timers.set(number, time, steps),
        None => {
            timers.cancel(number, steps);
        }
    }
}

/// Sets the timers that change with a packet one above the greatest number, which is the latest height: its own, that of
/// the number after it, and that of the number for which it is `reorder` later.
pub fn follow<L: Ledger>(
    state: &State,
    timers: &mut TimerQueue,
    number: u64,
    ended: bool,
    steps: &mut Steps<L>,
)
    requires bounded { IsBounded state.now }
    requires ended { ended ≡ have_ended state.now.settings.pushers state.now.progress.ended }
    requires top { state.now.span.top ≡ Some number }
    requires low { low_of (state_sight state.now) state.now.span.next ≤ number }
    requires room { timers.old.room ≡ 16384 }
    requires few { map.len timers.old.times ≤ 8192 }
    requires within { AreInRange state.now timers.old.times }
    requires others { AreTimersBut state.now number timers.old.times }
    ensures room { timers.new.room ≡ 16384 }
    ensures right { AreTimers state.now timers.new.times }
    ensures quick { steps.new ≤ steps.old + 42 }
{
    reschedule(state, timers, number, ended, steps);
    reschedule(state, timers, number + 1, ended, steps);
    let reorder = u64::from(state.settings.reorder);
    if lowest(state) + reorder <= number {
        reschedule(state, timers, number - reorder, ended, steps);
    }
}

/// Sets the timer that changes with a packet between the lowest and the greatest number: its own.
pub fn fill<L: Ledger>(
    state: &State,
    timers: &mut TimerQueue,
    number: u64,
    ended: bool,
    steps: &mut Steps<L>,
)
    requires bounded { IsBounded state.now }
    requires ended { ended ≡ have_ended state.now.settings.pushers state.now.progress.ended }
    requires small { number ≤ 2 ^ 62 }
    requires room { timers.old.room ≡ 16384 }
    requires others { CanFill state.now number timers.old.times }
    ensures room { timers.new.room ≡ 16384 }
    ensures right { AreTimers state.now timers.new.times }
    ensures quick { steps.new ≤ steps.old + 14 }
{
    reschedule(state, timers, number, ended, steps);
}

/// Serves a request.
pub fn serve<L: Ledger>(
    state: &mut State,
    timers: &mut TimerQueue,
    due: &Due,
    ended: bool,
    steps: &mut Steps<L>,
) -> Turn
    requires bounded { IsBounded state.old }
    requires ended { ended ≡ have_ended state.old.settings.pushers state.old.progress.ended }
    requires asked { Some (asked_of due.now) ≡ state_asked state.old }
    requires room { timers.old.room ≡ 16384 }
    requires right { AreTimers state.old timers.old.times }
    ensures value { result ≡ Turn.Request due.now.number due.now.k }
    ensures does { Serves state.old state.new due.now.number due.now.k }
    ensures room { timers.new.room ≡ 16384 }
    ensures right { AreTimers state.new timers.new.times }
    ensures quick { steps.new ≤ steps.old + 14 }
{
    // A law for the proof; the call does nothing.
    replies_tell();
    state.served.set(due.number, u16::from(due.k) + 1);
    reschedule(state, timers, due.number, ended, steps);
    Turn::Request {
        number: due.number,
        k: due.k,
    }
}
