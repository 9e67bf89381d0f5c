//! How far the clocks of lanes with one CNAME (RFC 3550, section 6.5.1) are apart.
ghost use Rattle.std.specs.Prelude.{◌≡◌, ◌<◌, ◌≤◌, ◌++◌, length, IfOk, OnOk};
ghost use Rattle.live_output.specs.Clocks.{ahead as ahead_of, clock_of, clocks as clocks_of};
ghost use Rattle.live_output.specs.Clocks.{further as further_of, last_sync as last_sync_of};
ghost use Rattle.live_output.specs.Clocks.{offset as offset_of, sync_next};

use live_bin::{Entry, LaneHistory, Plan};
use rtp_units::{Blob, OutOfMemory, SyncInfo};
use std::alloc::Global;

/// A lane whose source has a CNAME, and the last report that has a time in the lane's timeline.
#[derive(Debug, Drop)]
pub struct LaneClock {
    pub lane: u8,
    pub name: Blob,
    pub info: SyncInfo,
}

/// The clocks of a run, in the order of its lanes.
pub fn clocks(
    alloc: Global,
    plan: &Plan,
    histories: &[LaneHistory],
) -> Result<Vec<LaneClock>, OutOfMemory>
    requires few { length plan.now.lanes ≤ 64 }
    requires each { length histories.now ≡ length plan.now.lanes }
    ensures { IfOk result (λ clocks. clocks.items ≡ clocks_of plan.now histories.now) }
{
    let mut clocks = Vec::new(alloc);
    for number in 0..histories.len() {
        add_clock(alloc, &mut clocks, plan, number as u8, &histories[number])?;
    }
    Ok(clocks)
}

fn add_clock(
    alloc: Global,
    clocks: &mut Vec<LaneClock>,
    plan: &Plan,
    lane: u8,
    history: &LaneHistory,
) -> Result<(), OutOfMemory>
    requires { lane < length plan.now.lanes }
    ensures { OnOk result
        (clocks.new.items ≡ clocks.old.items ++ clock_of plan.now lane history.now) }
{
    if let Some(name) = &plan.lane(lane).cname
        && let Some(info) = last_sync(history.entries())
    {
        clocks.push(LaneClock {
            lane,
            name: Blob::copy_of(alloc, name.bytes())?,
            info,
        })?;
    }
    Ok(())
}

// The last report of a journal that has a time in the lane's timeline.
fn last_sync(entries: &[Entry]) -> Option<SyncInfo>
    ensures { result ≡ last_sync_of entries.now }
{
    let mut last = None;
    for entry in entries {
        last = newer(last, entry);
    }
    last
}

fn newer(last: Option<SyncInfo>, entry: &Entry) -> Option<SyncInfo>
    ensures { result ≡ sync_next last entry.now }
{
    match entry {
        Entry::Report {
            ntp_ns,
            local: Some(local),
            ..
        } => Some(SyncInfo {
            ntp_ns: *ntp_ns,
            local: *local,
        }),
        _ => last,
    }
}

/// How far a clock is ahead of the last of those with its CNAME, in nanoseconds.
pub fn offset(clocks: &[LaneClock], clock: &LaneClock) -> u128
    ensures { result ≡ offset_of clocks.now clock.now }
{
    let mut most = 0;
    for other in clocks {
        most = further(most, clock, other);
    }
    most
}

// The greater one of `most` and of how far a clock is ahead of another, if they have one CNAME.
fn further(most: u128, clock: &LaneClock, other: &LaneClock) -> u128
    ensures { result ≡ further_of clock.now most other.now }
{
    if other.name.bytes() == clock.name.bytes() {
        most.max(ahead(&clock.info, &other.info))
    } else {
        most
    }
}

// By how much a report's NTP time less its local time is greater than another's.
fn ahead(info: &SyncInfo, other: &SyncInfo) -> u128
    ensures { result ≡ ahead_of info.now other.now }
{
    let own = u128::from(info.ntp_ns) + u128::from(other.local);
    let others = u128::from(other.ntp_ns) + u128::from(info.local);
    own.saturating_sub(others)
}
