//! What a run has to do.

ghost use Rattle.live_bin.specs.Plans.{AreRight};

use crate::checking::are_right;
use jitter_core::{Arrival, Settings};
use rtp_units::{Blob, OutOfMemory};
use std::marker::Model;

/// What a pusher brings to a lane. `k` counts what it brings there, from 0.
#[derive(Debug, Drop)]
pub enum Delivery {
    Packet(Arrival),
    /// A sender report: its NTP time and its RTP timestamp.
    Report {
        pusher: u8,
        k: u64,
        ntp_ns: u64,
        rtp: u32,
    },
}

/// What the control does to a lane.
#[derive(Clone, Copy, Debug, Drop)]
pub enum ControlEvent {
    Clock(u64),
    FlushStart,
    FlushStop,
    Latency(u64),
}

/// What one pusher brings to one lane, in its order.
#[derive(Drop)]
pub struct Queue {
    rows: Vec<Delivery>,
}

impl Model for Queue {
    ghost use Rattle.std.specs.Prelude.{List};
    ghost use Rattle.live_bin.specs.declared.plan.Delivery.{Delivery};

    ghost Value = { List Delivery };

    ghost view = { λ queue. queue.rows.items };
}

impl Queue {
    ghost use Rattle.std.specs.Prelude.{◌≡◌, ◌<◌, ◌++◌, ◌∷◌, [], length, Some, slice_get};
    ghost use Rattle.std.specs.Prelude.{OnOk, OnErr};

    pub fn new(rows: Vec<Delivery>) -> Queue
        ensures { result ≡ rows.items }
    {
        Queue { rows }
    }

    /// Adds a delivery behind those that are there.
    pub fn push(&mut self, delivery: Delivery) -> Result<(), OutOfMemory>
        ensures added { OnOk result (self.new ≡ self.old ++ delivery ∷ []) }
        ensures err { OnErr result (self.new ≡ self.old) }
    {
        self.rows.push(delivery)?;
        Ok(())
    }

    pub fn len(&self) -> usize
        ensures { result ≡ length self.now }
    {
        self.rows.len()
    }

    /// The delivery number `k`.
    pub fn at(&self, k: u64) -> &Delivery
        requires { k < length self.now }
        ensures { slice_get self.now k ≡ Some result.now }
    {
        &self.rows[k as usize]
    }
}

/// What each pusher brings to one lane: first what session 0 brings, then session 1, and so on.
#[derive(Drop)]
pub struct Queues {
    rows: Vec<Queue>,
}

impl Model for Queues {
    ghost use Rattle.std.specs.Prelude.{List};
    ghost use Rattle.live_bin.specs.declared.plan.Delivery.{Delivery};

    ghost Value = { List (List Delivery) };

    ghost view = { λ queues. queues.rows.items };
}

impl Queues {
    ghost use Rattle.std.specs.Prelude.{◌≡◌, ◌<◌, length, [], Some, slice_get, slice_index_or};

    pub fn new(rows: Vec<Queue>) -> Queues
        ensures { result ≡ rows.items }
    {
        Queues { rows }
    }

    pub fn len(&self) -> usize
        ensures { result ≡ length self.now }
    {
        self.rows.len()
    }

    /// What this pusher brings.
    pub fn of(&self, pusher: u8) -> &Queue
        requires { pusher < length self.now }
        ensures { slice_get self.now pusher ≡ Some result.now }
    {
        &self.rows[usize::from(pusher)]
    }
}

/// The control list of a lane.
#[derive(Drop)]
pub struct Events {
    rows: Vec<ControlEvent>,
}

impl Model for Events {
    ghost use Rattle.std.specs.Prelude.{List};
    ghost use Rattle.live_bin.specs.declared.plan.ControlEvent.{ControlEvent};

    ghost Value = { List ControlEvent };

    ghost view = { λ events. events.rows.items };
}

impl Events {
    ghost use Rattle.std.specs.Prelude.{◌≡◌, ◌<◌, length, Some, slice_get};

    pub fn new(rows: Vec<ControlEvent>) -> Events
        ensures { result ≡ rows.items }
    {
        Events { rows }
    }

    pub fn len(&self) -> usize
        ensures { result ≡ length self.now }
    {
        self.rows.len()
    }

    /// The event number `k`, from 0.
    pub fn at(&self, k: u64) -> ControlEvent
        requires { k < length self.now }
        ensures { slice_get self.now k ≡ Some result }
    {
        self.rows[k as usize]
    }
}

/// One lane of a plan: its session and SSRC, the settings with which its buffer opens, its source's
/// CNAME (RFC 3550, section 6.5.1), and what is brought to it.
#[derive(Drop)]
pub struct PlanLane {
    pub session: u8,
    pub ssrc: u32,
    pub settings: Settings,
    pub cname: Option<Blob>,
    pub queues: Queues,
    pub events: Events,
}

/// The lanes of a plan.
#[derive(Drop)]
pub struct Lanes {
    rows: Vec<PlanLane>,
}

impl Model for Lanes {
    ghost use Rattle.std.specs.Prelude.{List};
    ghost use Rattle.live_bin.specs.declared.plan.PlanLane.{PlanLane};

    ghost Value = { List PlanLane };

    ghost view = { λ lanes. lanes.rows.items };
}

impl Lanes {
    ghost use Rattle.std.specs.Prelude.{◌≡◌, ◌<◌, length, Some, slice_get};

    pub fn new(rows: Vec<PlanLane>) -> Lanes
        ensures { result ≡ rows.items }
    {
        Lanes { rows }
    }

    pub fn len(&self) -> usize
        ensures { result ≡ length self.now }
    {
        self.rows.len()
    }

    /// The lane of this number.
    pub fn at(&self, number: u8) -> &PlanLane
        requires { number < length self.now }
        ensures { slice_get self.now number ≡ Some result.now }
    {
        &self.rows[usize::from(number)]
    }
}

/// What a run has to do: its lanes, and the number of records that it came from. What is brought to
/// each lane meets the conditions of its buffer.
#[derive(Drop)]
pub struct Plan {
    records: u64,
    lanes: Lanes,
    ghost right: { ∥ AreRight lanes ∥₁ },
}

impl Plan {
    ghost use Rattle.std.specs.Prelude.{◌≡◌, ◌↔◌, ◌<◌, ◌≤◌, length, IfSome, IsSome};
    ghost use Rattle.live_bin.specs.Plans.{AreRight, IsLane};
    ghost use Rattle.live_bin.specs.Lookup.{lane_of};

    /// A plan of lanes that are known to be right.
    pub fn new(records: u64, lanes: Lanes) -> Plan
        requires { AreRight lanes }
        ensures records { result.records ≡ records }
        ensures lanes { result.lanes ≡ lanes }
    {
        Plan { records, lanes }
    }

    /// A plan of at most 64 lanes. There is none exactly where what is brought to a lane doesn't
    /// meet the conditions of its buffer.
    pub fn of(records: u64, lanes: Lanes) -> Option<Plan>
        requires { length lanes ≤ 64 }
        ensures right { IsSome result ↔ AreRight lanes }
        ensures records { IfSome result (λ p. p.records ≡ records) }
        ensures lanes { IfSome result (λ p. p.lanes ≡ lanes) }
    {
        if are_right(&lanes) {
            Some(Plan { records, lanes })
        } else {
            None
        }
    }

    /// How many records it came from.
    pub fn records(&self) -> u64
        ensures { result ≡ self.now.records }
    {
        self.records
    }

    /// How many lanes it has.
    pub fn len(&self) -> usize
        ensures { result ≡ length self.now.lanes }
    {
        self.lanes.len()
    }

    /// The lane of this number.
    pub fn lane(&self, number: u8) -> &PlanLane
        requires { number < length self.now.lanes }
        ensures is { lane_of self.now number ≡ result.now }
        ensures right { ∥ IsLane result.now ∥₁ }
    {
        self.lanes.at(number)
    }
}
