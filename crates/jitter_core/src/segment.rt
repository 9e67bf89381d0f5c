//! A segment: how it begins, and how a packet is accepted into it.

ghost use Rattle.std.specs.Prelude.{◌≡◌, ◌<◌, ◌≤◌, ◌^◌, ◌+◌, ◌-◌, None, [], ◌∷◌, length};
ghost use Rattle.std.specs.FinMap as map;
ghost use Rattle.packet_store.specs.Store.{IsWindow};
ghost use Rattle.jitter_model.specs.Verdicts.{opened_number};
ghost use Rattle.jitter_model.specs.Laws.{IsRun};
ghost use Rattle.jitter_core.specs.Asides.{in_order, newest_first};
ghost use Rattle.jitter_core.specs.Steps.{IsBounded, IsFitted, CanAccept, Accepts, accepted_span, lowest, run_of, state_number};
ghost use Rattle.jitter_core.specs.Peaks.{with_peak};
ghost use Rattle.jitter_core.specs.Pushing.{IsOpenedBy};

use crate::peaks::{Peak, Peaks};
use crate::placing::{add_mark, is_above, place};
use crate::state::{Span, State};
use crate::verdicts::number_of;
use jitter_model::laws::numbers_lie_between;
use jitter_model::{Arrival, Held};
use packet_store::{AsideList, Offer, Store};
use std::mem;

/// Drops what is held, and forgets all numbers, heights and the clock.
pub fn clear_segment(state: &mut State)
    requires { IsFitted state.old }
    ensures settings { state.new.settings ≡ state.old.settings }
    ensures progress { state.new.progress ≡ state.old.progress }
    ensures aside { state.new.aside ≡ state.old.aside }
    ensures segment { IsOpenedBy state.new [] }
{
    state.held.discard_all();
    state.heights.clear();
    state.peaks.clear();
    state.served.clear();
    state.skew.reset();
    state.span = Span {
        next: None,
        top: None,
        least: None,
        first_pts: None,
        held: 0,
    };
}

/// The numbers after a packet was accepted.
fn span_with(span: &Span, number: u64, pts: u64) -> Span
    requires { span.now.held < 2 ^ 32 - 1 }
    ensures { result ≡ accepted_span span.now number pts }
{
    Span {
        next: span.next,
        top: Some(number.max(span.top.unwrap_or(0))),
        least: Some(number.min(span.least.unwrap_or(number))),
        first_pts: Some(span.first_pts.unwrap_or(pts)),
        held: span.held + 1,
    }
}

/// The lowest number that is still to be given out, or that comes.
fn lowest_with(span: &Span, number: u64) -> u64
    ensures { result ≡ lowest span.now.next span.now.least number }
{
    match span.next {
        Some(next) => next,
        None => span.least.unwrap_or(number).min(number),
    }
}

/// Holds a packet under a number of the window from `low` on that isn't held.
fn hold(store: &mut Store<Held>, low: u64, number: u64, held: Held)
    requires low { low ≤ 2 ^ 62 }
    requires from { low ≤ number }
    requires to { number < low + 8192 }
    requires window { IsWindow store.old low }
    requires fresh { map.get store.old number ≡ None }
    ensures { store.new ≡ map.insert store.old number held }
{
    match store.offer(low, number, held) {
        Offer::Held => {}
        Offer::Duplicate(_) | Offer::Full(_) => unreachable!(),
    }
}

/// Adds the packet to the peaks, if it is one.
fn add_peak(peaks: &mut Peaks, span: &Span, number: u64, stamp: u64)
    requires { length peaks.old ≤ 8192 }
    ensures { peaks.new ≡ with_peak span.now.top span.now.next number stamp peaks.old }
{
    if is_above(span.top, number) {
        peaks.add(span.next, Peak { number, stamp });
    }
}

/// Accepts a packet.
pub fn accept(state: &mut State, number: u64, a: Arrival)
    requires bounded { IsBounded state.old }
    requires small { number ≤ 2 ^ 62 }
    requires may { CanAccept state.old a number }
    ensures settings { state.new.settings ≡ state.old.settings }
    ensures progress { state.new.progress ≡ state.old.progress }
    ensures aside { state.new.aside ≡ state.old.aside }
    ensures segment { Accepts state.old state.new a number }
{
    let span = state.span;
    let stamp = a.stamp;
    let place = place(&mut state.skew, span.top, &state.heights, &a, number);
    let low = lowest_with(&span, number);
    let held = Held {
        pts: place.pts,
        packet: a.packet,
    };
    hold(&mut state.held, low, number, held);
    add_mark(&mut state.heights, span.next, place.mark);
    add_peak(&mut state.peaks, &span, number, stamp);
    state.span = span_with(&span, number, place.pts);
}

/// Begins a segment anew with the packets that are put aside and one that follows them, and gives that one's
/// number.
pub fn reopen(state: &mut State, a: Arrival) -> u64
    requires bounded { IsBounded state.old }
    requires aside { state.old.aside ≡ in_order (run_of state.old) }
    requires run { IsRun (a ∷ run_of state.old) }
    requires few { length (run_of state.old) ≤ 4 }
    ensures settings { state.new.settings ≡ state.old.settings }
    ensures progress { state.new.progress ≡ state.old.progress }
    ensures aside { state.new.aside ≡ [] }
    ensures number { result ≡ opened_number (run_of state.old) a }
    ensures segment { IsOpenedBy state.new (a ∷ run_of state.old) }
{
    // A law for the proof; the call does nothing.
    numbers_lie_between();
    let mut aside = mem::replace(&mut state.aside, AsideList::new());
    clear_segment(state);
    while let Some(earlier) = aside.take_first() {
        accept_next(state, earlier);
    }
    accept_next(state, a)
}

/// Accepts a packet under the number that it has after those before it, and gives that number.
fn accept_next(state: &mut State, a: Arrival) -> u64
    requires bounded { IsBounded state.old }
    requires may { CanAccept state.old a (state_number state.old a) }
    ensures settings { state.new.settings ≡ state.old.settings }
    ensures progress { state.new.progress ≡ state.old.progress }
    ensures aside { state.new.aside ≡ state.old.aside }
    ensures number { result ≡ state_number state.old a }
    ensures segment { Accepts state.old state.new a (state_number state.old a) }
{
    let number = number_of(state.span.top, a.packet.seq);
    accept(state, number, a);
    number
}
