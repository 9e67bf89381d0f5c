//! Flushes, and reports of the sender.

ghost use Rattle.std.specs.Prelude.{◌≡◌, ◌≤◌};
ghost use Rattle.jitter_core.specs.Calls.{resumed, Flushes, state_flush_count, Reports};
ghost use Rattle.jitter_core.specs.Steps.{IsBounded};

use crate::segment::clear_segment;
use crate::state::State;
use rtp_units::SyncInfo;

/// Begins a flush, and gives how many packets it drops.
pub fn start_flush(state: &mut State) -> u32
    requires { IsBounded state.old }
    ensures dropped { result ≡ state_flush_count state.old }
    ensures does { Flushes state.old state.new }
{
    let held = state.span.held;
    let aside = state.aside.drop_all();
    let dropped = if state.progress.flushing {
        0
    } else {
        held + u32::from(aside)
    };
    state.progress.flushing = true;
    clear_segment(state);
    dropped
}

/// Ends a flush.
pub fn stop_flush(state: &mut State)
    ensures { state.new ≡ resumed state.old }
{
    state.progress.flushing = false;
}

/// The presentation time of a report's timestamp, with the report's time.
pub fn report_on(state: &State, ntp_ns: u64, rtp: u32) -> Option<SyncInfo>
    requires { IsBounded state.now }
    ensures { Reports state.now ntp_ns rtp result }
{
    if state.span.top.is_none() {
        return None;
    }
    Some(SyncInfo {
        ntp_ns,
        local: state.skew.other(rtp),
    })
}
