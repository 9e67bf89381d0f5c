//! The requests of numbers that did not come.

ghost use Rattle.std.specs.Prelude.{◌≡◌, ◌<◌, ◌≤◌, ◌^◌, ◌+◌, ◌*◌, max, Some, option_map, unwrap_or};
ghost use Rattle.std.specs.Option.{ForSome};
ghost use Rattle.jitter_model.specs.Requests.{lesser, earlier, due, wanted_missing, wanted_next};
ghost use Rattle.jitter_core.specs.Served.{served_in};
ghost use Rattle.jitter_model.specs.Turns.{low as low_of, deadline as deadline_of, wanted, asked_for};
ghost use Rattle.jitter_core.specs.Steps.{IsBounded};
ghost use Rattle.jitter_core.specs.Requesting.{first_due_by, undue_at, wanted_of, asked_of};
ghost use Rattle.jitter_core.specs.Scheduling.{pending, pending_of as time_of_pending};
ghost use Rattle.jitter_core.specs.Turning.{have_ended, state_sight};

use crate::state::State;
use jitter_model::Settings;
use jitter_model::laws::searches_find_the_least;

/// The requests of a number: when the first is due, and from when on none is made.
#[derive(Clone, Copy, Debug, Drop)]
pub struct Wish {
    pub first: u64,
    pub limit: u64,
}

/// A request that is due: when the first unserved one of its number was, the number, and which request it is.
#[derive(Clone, Copy, Debug, Drop)]
pub struct Due {
    pub time: u64,
    pub number: u64,
    pub k: u8,
}

/// The lesser of the times that there are.
pub fn least_of(a: Option<u64>, b: Option<u64>) -> Option<u64>
    ensures { result ≡ lesser a b }
{
    match (a, b) {
        (None, b) => b,
        (Some(a), None) => Some(a),
        (Some(a), Some(b)) => Some(a.min(b)),
    }
}

/// The earlier one of two, and of two of one time the first.
fn earlier_of(a: Option<Due>, b: Option<Due>) -> Option<Due>
    ensures { option_map asked_of result ≡ earlier (option_map asked_of a) (option_map asked_of b) }
{
    match (a, b) {
        (None, b) => b,
        (Some(a), None) => Some(a),
        (Some(a), Some(b)) => { if b.time < a.time { Some(b) } else { Some(a) } }
    }
}

/// When the first request for a missing number is due.
fn first_due(state: &State, number: u64) -> Option<u64>
    requires bounded { IsBounded state.now }
    requires number { number ≤ 2 ^ 62 }
    ensures value { result ≡ first_due_by state.now.settings state.now.peaks number }
    ensures small { ForSome result (λ t. t < 2 ^ 63 + 2 ^ 36) }
{
    let delayed = match state.peaks.first_from(number + 1) {
        None => None,
        Some(stamp) => Some(stamp + state.settings.rtx_delay),
    };
    let reordered = if state.settings.reorder == 0 {
        None
    } else {
        state
            .peaks
            .first_from(number + u64::from(state.settings.reorder))
    };
    least_of(delayed, reordered)
}

/// The requests of a missing number.
fn wish_for_missing(state: &State, number: u64) -> Option<Wish>
    requires bounded { IsBounded state.now }
    requires number { number ≤ 2 ^ 62 }
    ensures value { option_map wanted_of result
        ≡ wanted_missing (first_due_by state.now.settings state.now.peaks number)
        (deadline_of (state_sight state.now) number) }
    ensures small { ForSome result (λ w. w.first < 2 ^ 63 + 2 ^ 37) }
{
    match first_due(state, number) {
        None => None,
        Some(first) => Some(Wish {
            first,
            limit: state.heights.expected(number) + state.progress.latency,
        }),
    }
}

/// The requests of the number after the greatest.
fn wish_for_next(state: &State, top: u64) -> Option<Wish>
    requires { IsBounded state.now }
    ensures value { option_map wanted_of result
        ≡ wanted_next state.now.settings state.now.progress.latency top state.now.heights }
    ensures small { ForSome result (λ w. w.first < 2 ^ 63 + 2 ^ 37) }
{
    match state.heights.next_time(top) {
        None => None,
        Some(time) => Some(Wish {
            first: time + state.settings.rtx_delay,
            limit: time + state.progress.latency,
        }),
    }
}

/// The requests of a number that isn't below the lowest one.
fn wish_for(state: &State, number: u64, ended: bool) -> Option<Wish>
    requires bounded { IsBounded state.now }
    requires number { number ≤ 2 ^ 62 }
    requires ended { ended ≡ have_ended state.now.settings.pushers state.now.progress.ended }
    ensures value { option_map wanted_of result
        ≡ wanted state.now.settings (state_sight state.now) number }
    ensures small { ForSome result (λ w. w.first < 2 ^ 63 + 2 ^ 37) }
{
    let top = state.span.top.unwrap_or(0);
    if !state.settings.rtx {
        None
    } else if number < top && !state.held.has(number) {
        wish_for_missing(state, number)
    } else if number == top + 1 && !ended {
        wish_for_next(state, top)
    } else {
        None
    }
}

/// The time between the first request and request `k`.
fn delay_of(settings: &Settings, k: u16) -> u64
    requires { settings.now.rtx_retry ≤ 60000000000 }
    ensures value { result ≡ k * settings.now.rtx_retry }
    ensures small { result < 2 ^ 52 }
{
    u64::from(k) * settings.rtx_retry
}

/// When request `k` of a number is due.
fn due_time(settings: &Settings, first: u64, k: u16) -> u64
    requires retry { settings.now.rtx_retry ≤ 60000000000 }
    requires first { first < 2 ^ 63 + 2 ^ 37 }
    ensures { result ≡ due settings.now first k }
{
    first + delay_of(settings, k)
}

/// The first of the unserved requests that isn't due at a time, or one past the last request.
fn first_undue(settings: &Settings, time: u64, first: u64, served: u16) -> u16
    requires { 1 ≤ settings.now.rtx_retry }
    ensures value { result ≡ undue_at settings.now time first served }
    ensures most { result ≤ max served (settings.now.rtx_max + 1) }
{
    // A law for the proof; the call does nothing.
    searches_find_the_least();
    let end = u16::from(settings.rtx_max) + 1;
    if time < first {
        return served;
    }
    let last_due = (time - first) / settings.rtx_retry;
    if u64::from(end) <= last_due {
        served.max(end)
    } else {
        served.max(last_due as u16 + 1)
    }
}

/// The greatest request of a number that is due, where an unserved one is.
fn due_of(state: &State, number: u64, wish: &Wish) -> Option<Due>
    requires bounded { IsBounded state.now }
    requires first { wish.now.first < 2 ^ 63 + 2 ^ 37 }
    ensures { option_map asked_of result
        ≡ asked_for state.now.settings (state_sight state.now) number (Some (wanted_of wish.now)) }
{
    let settings = &state.settings;
    let served = state.served.count(number);
    let time = due_time(settings, wish.first, served);
    let now = state.progress.time;
    if served <= u16::from(settings.rtx_max) && time <= now && now < wish.limit {
        let undue = first_undue(settings, now, wish.first, served);
        Some(Due {
            time,
            number,
            k: undue.saturating_sub(1) as u8,
        })
    } else {
        None
    }
}

/// When the first unserved request of a number is due, where that lies before the limit.
fn pending_of(state: &State, number: u64, wish: &Wish) -> Option<u64>
    requires bounded { IsBounded state.now }
    requires first { wish.now.first < 2 ^ 63 + 2 ^ 37 }
    ensures { result ≡ time_of_pending state.now.settings (served_in state.now.served number)
        (Some (wanted_of wish.now)) }
{
    let settings = &state.settings;
    let served = state.served.count(number);
    let time = due_time(settings, wish.first, served);
    if served <= u16::from(settings.rtx_max) && time < wish.limit {
        Some(time)
    } else {
        None
    }
}

/// The request of a number that is due, if there is one.
pub fn due_for(state: &State, number: u64, ended: bool) -> Option<Due>
    requires bounded { IsBounded state.now }
    requires number { number ≤ 2 ^ 62 }
    requires ended { ended ≡ have_ended state.now.settings.pushers state.now.progress.ended }
    ensures { option_map asked_of result
        ≡ asked_for state.now.settings (state_sight state.now) number
        (wanted state.now.settings (state_sight state.now) number) }
{
    match wish_for(state, number, ended) {
        None => None,
        Some(wish) => due_of(state, number, &wish),
    }
}

/// When the first unserved request of a number is due, where it has one before the limit.
pub fn pending_time(state: &State, number: u64, ended: bool) -> Option<u64>
    requires bounded { IsBounded state.now }
    requires number { number ≤ 2 ^ 62 }
    requires ended { ended ≡ have_ended state.now.settings.pushers state.now.progress.ended }
    ensures { result ≡ pending state.now.settings (state_sight state.now) number }
{
    match wish_for(state, number, ended) {
        None => None,
        Some(wish) => pending_of(state, number, &wish),
    }
}

/// The lowest number that is still to be given out.
pub fn lowest(state: &State) -> u64
    requires { IsBounded state.now }
    ensures value { result ≡ low_of (state_sight state.now) state.now.span.next }
    ensures small { result ≤ 2 ^ 61 }
    ensures top { result ≤ unwrap_or state.now.span.top 0 + 2 }
{
    state.span.next.unwrap_or(state.span.least.unwrap_or(0))
}
