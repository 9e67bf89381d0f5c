//! `Segment`: what the estimator goes by beside its window, and how a height changes both.
ghost use Rattle.std.specs.Prelude.{◌≡◌, ◌-◌, ◌+◌, ◌*◌, ◌<◌, ◌≤◌, ◌^◌, ◌⊎◌, ℤ, pos, negsuc, ◌+ℤ◌, ◌-ℤ◌, ◌≤ℤ◌, [], ◌∷◌, None, length};
ghost use Rattle.rtp_units.specs.Numbers.{ext32, nanoseconds};
ghost use Rattle.skew_model.specs.Skew.{in_order, started, time_at, difference, sent_at};
ghost use Rattle.skew_estimator.specs.Estimator.{cut};
ghost use Rattle.skew_estimator.specs.Near.{IsNear};
ghost use Rattle.skew_estimator.specs.Segment.{estimate_of, filled_with, in_mode, with_latest, IsFitted};

use crate::means::{filled_mean, filling_mean, fills, is_apart};
use crate::window::{MOST, Window};
use rtp_units::{Mode, held_to_time, ticks_to_ns};

/// The arrival and the extended timestamp at which the estimator started, the extended timestamp of the latest height, the
/// skew, and the size of the window once it is filled.
#[derive(Clone, Copy, Debug, Drop)]
pub struct Segment {
    pub(crate) base: u64,
    pub(crate) start: i64,
    pub(crate) latest: i64,
    pub(crate) skew: i128,
    pub(crate) size: Option<usize>,
}

/// The extended timestamp of 32 bits that is nearest to a reference.
pub(crate) fn extended(reference: i64, low: u32) -> i64
    requires from { negsuc (2 ^ 62 + 2 ^ 33) ≤ℤ reference }
    requires to { reference ≤ℤ pos (2 ^ 62 + 2 ^ 33) }
    ensures value { result ≡ ext32 reference low }
    ensures above { reference ≤ℤ (result +ℤ pos 2147483648) }
    ensures below { result ≤ℤ (reference +ℤ pos 2147483647) }
{
    let here = (i128::from(reference) + 9_223_372_036_854_775_808) as u64 % 4_294_967_296;
    let distance = (u64::from(low) + 6_442_450_944 - here) % 4_294_967_296;
    reference + distance as i64 - 2_147_483_648
}

impl Segment {
    /// A segment that starts at a height with this arrival and this extended timestamp.
    pub(crate) fn started(arrival: u64, timestamp: i64) -> Segment
        ensures { estimate_of result (pos 0 ∷ []) ≡ started arrival timestamp }
    {
        Segment {
            base: arrival,
            start: timestamp,
            latest: timestamp,
            skew: 0,
            size: None,
        }
    }
}

/// A segment whose latest height has this extended timestamp.
pub(crate) fn with_latest(segment: &Segment, timestamp: i64) -> Segment
    ensures { result ≡ with_latest segment.now timestamp }
{
    Segment {
        latest: timestamp,
        ..*segment
    }
}

/// The sender's time of an extended timestamp.
fn sent_at(start: i64, rate: u32, timestamp: i64) -> i128
    requires rate { 0 < rate }
    requires start_from { negsuc (2 ^ 62 + 2 ^ 33) ≤ℤ start }
    requires start_to { start ≤ℤ pos (2 ^ 62 + 2 ^ 33) }
    requires from { negsuc (2 ^ 62 + 2 ^ 33) ≤ℤ timestamp }
    requires to { timestamp ≤ℤ pos (2 ^ 62 + 2 ^ 33) }
    ensures value { result ≡ nanoseconds (timestamp -ℤ start) rate }
    ensures above { negsuc (2 ^ 94) ≤ℤ result }
    ensures below { result ≤ℤ pos (2 ^ 94) }
{
    ticks_to_ns(i128::from(timestamp) - i128::from(start), rate)
}

/// How much later than the sender's time a packet arrived, both counted from the start.
fn difference(base: u64, arrival: u64, sent: i128) -> i128
    requires above { negsuc (2 ^ 94) ≤ℤ sent }
    requires below { sent ≤ℤ pos (2 ^ 94) }
    ensures value { result ≡ (pos arrival -ℤ pos base) -ℤ sent }
    ensures near { IsNear result }
{
    i128::from(arrival) - i128::from(base) - sent
}

/// The presentation time of an extended timestamp.
pub(crate) fn time_of(segment: &Segment, rate: u32, timestamp: i64) -> u64
    requires rate { 0 < rate }
    requires start_from { negsuc (2 ^ 62 + 2 ^ 33) ≤ℤ segment.now.start }
    requires start_to { segment.now.start ≤ℤ pos (2 ^ 62 + 2 ^ 33) }
    requires from { negsuc (2 ^ 62 + 2 ^ 33) ≤ℤ timestamp }
    requires to { timestamp ≤ℤ pos (2 ^ 62 + 2 ^ 33) }
    requires near { IsNear segment.now.skew }
    ensures { result ≡ time_at rate (estimate_of segment.now []) timestamp }
{
    let sent = sent_at(segment.start, rate, timestamp);
    held_to_time(i128::from(segment.base) + sent + segment.skew)
}

/// A segment after a height whose difference came into a window that isn't filled yet.
fn fill(segment: &Segment, window: &Window, timestamp: i64, sent: i128) -> Segment
    requires some { 0 < length window.now }
    requires few { length window.now ≤ 512 }
    requires near { IsNear segment.now.skew }
    requires size { segment.now.size ≡ None }
    ensures segment { result ≡ filled_with segment.now window.now timestamp sent }
    ensures fitted { IsFitted result.size window.now }
    ensures near { IsNear result.skew }
{
    let count = window.len();
    let least = window.least();
    if fills(count as u64, sent) {
        return Segment {
            latest: timestamp,
            skew: least,
            size: Some(count),
            ..*segment
        };
    }
    let skew = filling_mean(count as u64, sent, least, segment.skew);
    Segment {
        latest: timestamp,
        skew,
        ..*segment
    }
}

/// The segment and the window after a height that is one above the one before it.
pub(crate) fn measure(
    segment: &Segment,
    window: &mut Window,
    rate: u32,
    timestamp: i64,
    arrival: u64,
) -> Segment
    requires rate { 0 < rate }
    requires start_from { negsuc (2 ^ 62 + 2 ^ 33) ≤ℤ segment.now.start }
    requires start_to { segment.now.start ≤ℤ pos (2 ^ 62 + 2 ^ 33) }
    requires from { negsuc (2 ^ 62 + 2 ^ 33) ≤ℤ timestamp }
    requires to { timestamp ≤ℤ pos (2 ^ 62 + 2 ^ 33) }
    requires near { IsNear segment.now.skew }
    requires fitted { IsFitted segment.now.size window.old }
    ensures estimate { estimate_of result window.new
        ≡ cut (in_order rate (estimate_of segment.now window.old) arrival timestamp) }
    ensures fitted { IsFitted result.size window.new }
    ensures near { IsNear result.skew }
    ensures latest { result.latest ≡ timestamp }
    ensures start { (result.start ≡ segment.now.start) ⊎ (result.start ≡ timestamp) }
{
    let sent = sent_at(segment.start, rate, timestamp);
    let difference = difference(segment.base, arrival, sent);
    if is_apart(difference, segment.skew) {
        window.restart();
        return Segment::started(arrival, timestamp);
    }
    let Some(size) = segment.size else {
        window.add(difference, MOST);
        return fill(segment, window, timestamp, sent);
    };
    window.add(difference, size);
    let skew = filled_mean(window.least(), segment.skew);
    Segment {
        latest: timestamp,
        skew,
        ..*segment
    }
}

/// The segment and the window after a height that is one above the one before it, in this mode.
pub(crate) fn advance(
    segment: &Segment,
    window: &mut Window,
    rate: u32,
    mode: Mode,
    timestamp: i64,
    arrival: u64,
) -> Segment
    requires rate { 0 < rate }
    requires start_from { negsuc (2 ^ 62 + 2 ^ 33) ≤ℤ segment.now.start }
    requires start_to { segment.now.start ≤ℤ pos (2 ^ 62 + 2 ^ 33) }
    requires from { negsuc (2 ^ 62 + 2 ^ 33) ≤ℤ timestamp }
    requires to { timestamp ≤ℤ pos (2 ^ 62 + 2 ^ 33) }
    requires near { IsNear segment.now.skew }
    requires fitted { IsFitted segment.now.size window.old }
    ensures estimate { estimate_of result window.new
        ≡ cut (in_mode mode rate (estimate_of segment.now window.old) arrival timestamp) }
    ensures fitted { IsFitted result.size window.new }
    ensures near { IsNear result.skew }
    ensures latest { result.latest ≡ timestamp }
    ensures start { (result.start ≡ segment.now.start) ⊎ (result.start ≡ timestamp) }
{
    if let Mode::Slave = mode {
        return measure(segment, window, rate, timestamp, arrival);
    }
    Segment {
        latest: timestamp,
        ..*segment
    }
}
