//! When lanes want a turn.
ghost use Rattle.std.specs.Prelude.{◌≡◌, ◌≤◌, ◌<◌, ◌==◌, ℕ, None, if◌then◌else◌};
ghost use Rattle.std.specs.FinMap as map;
ghost use Rattle.jitter_timers.specs.Timers.{HasRoom};

use jitter_timers::{Steps, TimerQueue};
use lane_core::MAX_LANES;
use replay_model::Wake;
use rtp_units::OutOfMemory;
use std::alloc::Global;
use std::marker::Brand;
use std::sync::ledger::{Blank, Ledger};

/// The time in nanoseconds at which each lane wants a turn, where it wants one, with the first of
/// them at hand.
///
/// A change takes no memory, and moves no more of the others than the number of lanes has binary
/// digits.
#[derive(Drop)]
pub struct Wakes {
    timers: TimerQueue,
    ghost room: { timers.room ≡ 64 },
    ghost low: { (lane : ℕ) → 64 ≤ lane → map.get timers.times lane ≡ None },
}

impl Wakes {
    ghost use Rattle.std.specs.Prelude.{◌≡◌, ◌≤◌, ◌<◌, ℕ, None, IfOk};
    ghost use Rattle.std.specs.FinMap as map;
    ghost use Rattle.replay_model.specs.Serving.{first_wake};
    ghost use Rattle.bin_core.specs.Waking.{kept_wake, wake_changed};

    /// No lane wants a turn.
    pub fn new(alloc: Global) -> Result<Wakes, OutOfMemory>
        ensures { IfOk result (λ wakes. (lane : ℕ) → kept_wake wakes lane ≡ None) }
    {
        Ok(Wakes {
            timers: TimerQueue::with_capacity(alloc, MAX_LANES)?,
        })
    }

    /// The first wake: the least pair of a time and a lane.
    pub fn first(&self) -> Option<Wake>
        ensures { result ≡ first_wake (kept_wake self.now) 64 }
    {
        match self.timers.first() {
            None => None,
            Some((time, lane)) => Some(Wake {
                time,
                lane: lane as usize,
            }),
        }
    }

    /// The wake of a lane, which was one, becomes another one.
    pub fn change(&mut self, lane: usize, was: Option<u64>, wake: Option<u64>)
        requires lane { lane < 64 }
        requires was { kept_wake self.old lane ≡ was }
        ensures { (k : ℕ) → kept_wake self.new k ≡ wake_changed (kept_wake self.old) lane wake k }
    {
        if wake != was {
            set_timer::<Brand>(&mut self.timers, lane as u64, wake, Blank::new(1));
        }
    }
}

fn set_timer<L: Ledger>(timers: &mut TimerQueue, lane: u64, wake: Option<u64>, blank: Blank)
    requires name { blank.name ≡ L.name }
    requires parts { blank.parts ≡ L.parts }
    requires some { 0 < blank.parts }
    requires room { HasRoom timers.old lane }
    ensures room { timers.new.room ≡ timers.old.room }
    ensures times { (k : ℕ) → map.get timers.new.times k
        ≡ (if k == lane then wake else map.get timers.old.times k) }
{
    let mut steps = Steps::<L>::new(blank);
    match wake {
        None => {
            timers.cancel(lane, &mut steps);
        }
        Some(time) => timers.set(lane, time, &mut steps),
    }
}
