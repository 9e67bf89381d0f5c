//! Whether lanes meet the conditions of a plan.

ghost use Rattle.std.specs.Prelude.{◌≡◌, ◌↔◌, ◌≤◌, ◌<◌, false, length, [], ◌∷◌, IsTrue};
ghost use Rattle.jitter_model.specs.History.{is_pusher};
ghost use Rattle.jitter_model.specs.Runs.{IsValid};
ghost use Rattle.live_bin.specs.Plans.{IsDelivery, AreDeliveries, AreQueues, IsEvent, AreEvents};
ghost use Rattle.live_bin.specs.Plans.{AreRight, IsLane, packets, packets_in, flushes_after};
ghost use Rattle.live_bin.specs.Checked.{weight};

use crate::lane::is_in;
use crate::plan::{ControlEvent, Delivery, Events, Lanes, PlanLane, Queue, Queues};
use jitter_core::Settings;

fn is_valid(settings: Settings) -> bool
    ensures { IsTrue result ↔ IsValid settings }
{
    if settings.rate < 1 || settings.rate > 1_000_000 {
        return false;
    }
    if settings.latency > 600_000_000_000 || settings.rtx_delay > 60_000_000_000 {
        return false;
    }
    if settings.rtx_retry < 1_000_000 || settings.rtx_retry > 60_000_000_000 {
        return false;
    }
    if settings.dropout < 1 || settings.dropout > 30_000 {
        return false;
    }
    if settings.reorder > 100 || settings.misorder > 1000 || settings.faststart > 1000 {
        return false;
    }
    settings.pushers < 512
}

fn is_delivery(settings: &Settings, pusher: u8, k: u64, delivery: &Delivery) -> bool
    requires { pusher < 9 }
    ensures { IsTrue result ↔ IsDelivery settings.now pusher k delivery.now }
{
    match delivery {
        Delivery::Packet(a) => {
            a.pusher == pusher && a.k == k && a.stamp < 1 << 63 && is_in(settings.pushers, pusher)
        }
        Delivery::Report {
            pusher: by,
            k: j,
            ..
        } => *by == pusher && *j == k && is_in(settings.pushers, pusher),
    }
}

fn are_deliveries(settings: &Settings, pusher: u8, queue: &Queue) -> bool
    requires { pusher < 9 }
    ensures { IsTrue result ↔ AreDeliveries settings.now pusher 0 queue.now }
{
    for k in 0..queue.len() as u64 {
        if !is_delivery(settings, pusher, k, queue.at(k)) {
            return false;
        }
    }
    true
}

fn is_event(event: ControlEvent) -> bool
    ensures { IsTrue result ↔ IsEvent event }
{
    match event {
        ControlEvent::Clock(t) => t < (1 << 63) + (1 << 50),
        ControlEvent::FlushStart | ControlEvent::FlushStop => true,
        ControlEvent::Latency(ns) => ns <= 600_000_000_000,
    }
}

fn are_queues(settings: &Settings, queues: &Queues) -> bool
    requires { length queues.now ≤ 8 }
    ensures { IsTrue result ↔ AreQueues settings.now 0 queues.now }
{
    for pusher in 0..queues.len() as u8 {
        if !are_deliveries(settings, pusher, queues.of(pusher)) {
            return false;
        }
    }
    true
}

fn count(queue: &Queue) -> u64
    ensures { result ≡ packets queue.now }
{
    let mut count: u64 = 0;
    for k in 0..queue.len() as u64 {
        count += weight_of(queue.at(k));
    }
    count
}

fn weight_of(delivery: &Delivery) -> u64
    ensures { result ≡ weight delivery.now }
{
    match delivery {
        Delivery::Packet(_) => 1,
        Delivery::Report { .. } => 0,
    }
}

fn are_few(queues: &Queues) -> bool
    requires { length queues.now ≤ 8 }
    ensures { IsTrue result ↔ (packets_in queues.now < 2147483648) }
{
    let mut total: u64 = 0;
    for pusher in 0..queues.len() as u8 {
        let more = count(queues.of(pusher));
        if more >= 2_147_483_648 - total {
            return false;
        }
        total += more;
    }
    true
}

fn flushes(before: bool, event: ControlEvent) -> bool
    ensures { result ≡ flushes_after before (event ∷ []) }
{
    match event {
        ControlEvent::FlushStart => true,
        ControlEvent::FlushStop => false,
        ControlEvent::Clock(_) | ControlEvent::Latency(_) => before,
    }
}

fn are_events(events: &Events) -> bool
    ensures { IsTrue result
        ↔ (AreEvents events.now × (flushes_after false events.now ≡ false)) }
{
    let mut flushing = false;
    for k in 0..events.len() as u64 {
        let event = events.at(k);
        if !is_event(event) {
            return false;
        }
        flushing = flushes(flushing, event);
    }
    !flushing
}

fn is_lane(lane: &PlanLane) -> bool
    ensures { IsTrue result ↔ IsLane lane.now }
{
    is_valid(lane.settings)
        && is_in(lane.settings.pushers, 8)
        && lane.queues.len() <= 8
        && are_queues(&lane.settings, &lane.queues)
        && are_few(&lane.queues)
        && are_events(&lane.events)
}

/// Whether what is brought to each lane meets the conditions of its buffer.
pub fn are_right(lanes: &Lanes) -> bool
    requires { length lanes.now ≤ 64 }
    ensures { IsTrue result ↔ AreRight lanes.now }
{
    for number in 0..lanes.len() as u8 {
        if !is_lane(lanes.at(number)) {
            return false;
        }
    }
    true
}
