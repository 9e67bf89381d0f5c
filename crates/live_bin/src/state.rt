//! The state of one lane in a run.

ghost use Rattle.std.specs.Prelude.{◌<◌, length};
ghost use Rattle.live_bin.specs.Kept.{IsKept};

use crate::entry::{Entry, Next};
use crate::history::LaneHistory;
use crate::lane::{Lane, Progress, control_on, deliver_on, ends_on, tick_on, turn_on};
use crate::plan::Plan;
use jitter_core::laws::{
    rests_after_the_end, rests_when_done, turns_run_out, wakes_are_bounded, wakes_are_right,
};
use jitter_core::{Buffer, Held};
use packet_store::Store;
use rtp_units::OutOfMemory;
use std::alloc::Global;
use std::marker::{Brand, PhantomData};

/// Which plan a run has. Each run picks it.
pub trait Run {
    ghost use Rattle.live_bin.specs.declared.plan.Plan.{Plan};

    ghost plan: { Plan };
}

impl Run for Brand {
    ghost use Rattle.live_bin.specs.Lookup.{no_plan};

    ghost plan = { no_plan };
}

/// A lane whose journal fits the plan that K names, and whose buffer is the one that the journal
/// leaves.
#[derive(Drop)]
pub struct LaneState<K: Run> {
    lane: Lane,
    of: PhantomData<K>,
    ghost named: { lane.number < length K.plan.lanes },
    ghost kept: { IsKept K.plan lane },
}

impl<K: Run> LaneState<K> {
    ghost use Rattle.std.specs.Prelude.{ℕ, Option, ◌≡◌, ◌≢◌, ◌<◌, ◌≤◌, ◌-◌, ◌++◌, ◌∷◌, [], true};
    ghost use Rattle.std.specs.Prelude.{false, Some, length, is_some, IfOk, OnOk, OnErr};
    ghost use Rattle.jitter_model.specs.declared.Turn.TheVariants.{Idle};
    ghost use Rattle.jitter_model.specs.History.{all_ended, end_told, is_pusher};
    ghost use Rattle.jitter_model.specs.Times.{held};
    ghost use Rattle.std.specs.FinMap as map;
    ghost use Rattle.live_bin.specs.declared.entry.Entry.TheVariants.{Clock};
    ghost use Rattle.live_bin.specs.declared.entry.Next.TheVariants.{Wait};
    ghost use Rattle.live_bin.specs.Steps.{IsSame, ended_of, left_for, next_delivery};
    ghost use Rattle.live_bin.specs.Plans.{event};
    ghost use Rattle.live_bin.specs.Lookup.{lane_of};
    ghost use Rattle.live_bin.specs.Whole.{IsWhole};
    ghost use Rattle.live_bin.specs.Grows.{Grows, HaveEnded, IsReady, GoesOn, Comes, Wakes};
    ghost use Rattle.live_bin.specs.Grows.{waiting, pending, turn_of};
    ghost use mathlib.Core.List.{IsPrefix};
    ghost use Rattle.live_bin.specs.Words.{lane_in, history, delivery_of, delivered, event_of};
    ghost use Rattle.live_bin.specs.Words.{controlled, may_end, ended, answer, turned};

    /// A lane of the plan to which nothing came yet.
    pub fn new(alloc: Global, plan: &Plan, number: u8) -> Result<LaneState<K>, OutOfMemory>
        requires plan { plan.now ≡ K.plan }
        requires number { number < length plan.now.lanes }
        ensures number { IfOk result (λ s. s.lane.number ≡ number) }
        ensures journal { IfOk result (λ s. s.lane.journal.items ≡ []) }
    {
        let buffer = Buffer::new(alloc, &plan.lane(number).settings)?;
        Ok(LaneState {
            lane: Lane {
                number,
                stopped: false,
                progress: Progress {
                    given: [0; 8],
                    controls: 0,
                    ended: [false; 9],
                    told: false,
                },
                buffer,
                journal: Vec::new(alloc),
                alloc,
            },
            of: PhantomData,
        })
    }

    /// The lane's number.
    pub fn lane(&self) -> u8
        ensures { result ≡ self.now.lane.number }
    {
        self.lane.number
    }

    /// Gives the buffer the first delivery of this pusher that it didn't have, and tells whether
    /// there was one.
    pub fn deliver(&mut self, plan: &Plan, pusher: u8) -> Result<bool, OutOfMemory>
        requires plan { plan.now ≡ K.plan }
        ensures number { self.new.lane.number ≡ self.old.lane.number }
        ensures value { IfOk result (λ b. b ≡ is_some (delivery_of plan.now self.old.lane pusher)) }
        ensures added { IfOk result (λ b. self.new.lane.journal.items
            ≡ self.old.lane.journal.items ++ delivered plan.now self.old.lane pusher) }
        ensures fewer { IfOk result (λ b. b ≡ true
            → waiting (lane_in plan.now self.new.lane) self.new.lane.progress pusher
            < waiting (lane_in plan.now self.old.lane) self.old.lane.progress pusher) }
        ensures last { IfOk result (λ b. b ≡ false
            → is_some (next_delivery (lane_in plan.now self.new.lane) self.new.lane.progress pusher)
            ≡ false) }
        ensures grows { OnOk result (Grows self.old.lane self.new.lane) }
        ensures err { OnErr result (IsSame self.old.lane self.new.lane) }
    {
        let row = plan.lane(self.lane.number);
        deliver_on(&mut self.lane, row, pusher)
    }

    /// Gives the buffer the first event of the control list that it didn't have, and tells whether
    /// there was one.
    pub fn control(&mut self, plan: &Plan) -> Result<bool, OutOfMemory>
        requires plan { plan.now ≡ K.plan }
        ensures number { self.new.lane.number ≡ self.old.lane.number }
        ensures value { IfOk result (λ b. b ≡ is_some (event_of plan.now self.old.lane)) }
        ensures added { IfOk result (λ b. self.new.lane.journal.items
            ≡ self.old.lane.journal.items ++ controlled plan.now self.old.lane) }
        ensures fewer { IfOk result (λ b. b ≡ true
            → pending (lane_in plan.now self.new.lane) self.new.lane.progress
            < pending (lane_in plan.now self.old.lane) self.old.lane.progress) }
        ensures last { IfOk result (λ b. b ≡ false
            → is_some (event (lane_in plan.now self.new.lane) self.new.lane.progress.controls)
            ≡ false) }
        ensures grows { OnOk result (Grows self.old.lane self.new.lane) }
        ensures err { OnErr result (IsSame self.old.lane self.new.lane) }
    {
        let row = plan.lane(self.lane.number);
        control_on(&mut self.lane, row)
    }

    /// Ends a pusher of the lane that goes on and has nothing left, and tells whether it is one.
    pub fn ends(&mut self, plan: &Plan, pusher: u8) -> Result<bool, OutOfMemory>
        requires plan { plan.now ≡ K.plan }
        ensures number { self.new.lane.number ≡ self.old.lane.number }
        ensures value { IfOk result (λ b. b ≡ may_end plan.now self.old.lane pusher) }
        ensures added { IfOk result (λ b. self.new.lane.journal.items
            ≡ self.old.lane.journal.items ++ ended (may_end plan.now self.old.lane pusher) pusher) }
        ensures over { OnOk result (is_pusher (lane_in plan.now self.old.lane).settings.pushers
            pusher ≡ true → left_for (lane_in plan.now self.old.lane) self.old.lane.progress pusher
            ≡ false → ended_of self.new.lane.progress pusher ≡ true) }
        ensures grows { OnOk result (Grows self.old.lane self.new.lane) }
        ensures err { OnErr result (IsSame self.old.lane self.new.lane) }
    {
        let row = plan.lane(self.lane.number);
        ends_on(&mut self.lane, row, pusher)
    }

    /// Steps the clock to the wake of the idle buffer, after all pushers ended.
    pub fn tick(&mut self, t: u64) -> Result<(), OutOfMemory>
        requires ended { all_ended (lane_in K.plan self.old.lane).settings (history K.plan
            self.old.lane) ≡ true }
        requires wake { turn_of K.plan self.old.lane ≡ Idle (Some t) }
        ensures number { self.new.lane.number ≡ self.old.lane.number }
        ensures added { OnOk result (self.new.lane.journal.items
            ≡ self.old.lane.journal.items ++ Clock 9 t ∷ []) }
        ensures wakes { OnOk result (Wakes K.plan self.old.lane self.new.lane) }
        ensures grows { OnOk result (Grows self.old.lane self.new.lane) }
        ensures err { OnErr result (IsSame self.old.lane self.new.lane) }
    {
        // Laws for the proof; the calls do nothing.
        wakes_are_bounded();
        wakes_are_right();
        turns_run_out();
        rests_when_done();
        tick_on(&mut self.lane, t)
    }

    /// Takes a turn.
    pub fn turn(&mut self) -> Result<Next, OutOfMemory>
        ensures number { self.new.lane.number ≡ self.old.lane.number }
        ensures value { IfOk result (λ next. next ≡ answer K.plan self.old.lane) }
        ensures added { IfOk result (λ next. self.new.lane.journal.items
            ≡ self.old.lane.journal.items ++ turned K.plan self.old.lane) }
        ensures wake { IfOk result (λ next. (t : ℕ) → next ≡ Wait (Some t)
            → turn_of K.plan self.new.lane ≡ Idle (Some t)) }
        ensures comes { IfOk result (λ next. IsReady K.plan self.old.lane
            → Comes K.plan self.old.lane self.new.lane next) }
        ensures grows { OnOk result (Grows self.old.lane self.new.lane) }
        ensures err { OnErr result (IsSame self.old.lane self.new.lane) }
    {
        // Laws for the proof; the calls do nothing.
        rests_when_done();
        wakes_are_right();
        turns_run_out();
        turn_on(&mut self.lane)
    }

    /// Makes all further turns answer `Stopped`. It takes no memory.
    pub fn stop(&mut self)
        ensures { self.new.lane ≡ record self.old.lane { stopped = true } }
    {
        self.lane.stopped = true;
    }

    /// What came and went so far, the oldest entry first.
    pub fn journal(&self) -> &[Entry]
        ensures { result.now ≡ self.now.lane.journal.items }
    {
        self.lane.journal.as_slice()
    }

    /// Whether every pusher of the lane ended.
    pub fn all_ended(&self) -> bool
        ensures { result ≡ all_ended (lane_in K.plan self.now.lane).settings (history K.plan
            self.now.lane) }
    {
        self.lane.buffer.all_ended()
    }

    /// The held packets, each under its extended sequence number.
    pub fn store(&self) -> &Store<Held>
        ensures { (n : ℕ) → map.get result.now n ≡ held (lane_in K.plan self.now.lane).settings
            (history K.plan self.now.lane) n }
    {
        self.lane.buffer.store()
    }

    // Gives the buffer all events of the control list that are left.
    fn give_controls(&mut self, plan: &Plan) -> Result<(), OutOfMemory>
        requires plan { plan.now ≡ K.plan }
        ensures none { OnOk result (is_some (event (lane_in plan.now self.new.lane)
            self.new.lane.progress.controls) ≡ false) }
        ensures grows { OnOk result (Grows self.old.lane self.new.lane) }
    {
        loop {
            if !self.control(plan)? {
                return Ok(());
            }
        }
    }

    // Gives the buffer all deliveries of a pusher that are left.
    fn give(&mut self, plan: &Plan, pusher: u8) -> Result<(), OutOfMemory>
        requires plan { plan.now ≡ K.plan }
        ensures none { OnOk result (is_some (next_delivery (lane_in plan.now self.new.lane)
            self.new.lane.progress pusher) ≡ false) }
        ensures grows { OnOk result (Grows self.old.lane self.new.lane) }
    {
        loop {
            if !self.deliver(plan, pusher)? {
                return Ok(());
            }
        }
    }

    /// Gives the buffer all that is left of the control list, and ends the control.
    pub fn end_control(&mut self, plan: &Plan) -> Result<(), OutOfMemory>
        requires plan { plan.now ≡ K.plan }
        ensures ended { OnOk result (is_pusher (lane_in plan.now self.old.lane).settings.pushers 8
            ≡ true → ended_of self.new.lane.progress 8 ≡ true) }
        ensures grows { OnOk result (Grows self.old.lane self.new.lane) }
    {
        self.give_controls(plan)?;
        self.ends(plan, 8)?;
        Ok(())
    }

    /// Gives the buffer all that is left of a session, and ends it. `pusher` is from 0 to 7.
    pub fn end_session(&mut self, plan: &Plan, pusher: u8) -> Result<(), OutOfMemory>
        requires plan { plan.now ≡ K.plan }
        requires session { pusher < 8 }
        ensures ended { OnOk result (is_pusher (lane_in plan.now self.old.lane).settings.pushers
            pusher ≡ true → ended_of self.new.lane.progress pusher ≡ true) }
        ensures grows { OnOk result (Grows self.old.lane self.new.lane) }
    {
        self.give(plan, pusher)?;
        self.ends(plan, pusher)?;
        Ok(())
    }

    // Gives the buffer all that is left, and ends all pushers.
    fn end_all(&mut self, plan: &Plan) -> Result<(), OutOfMemory>
        requires plan { plan.now ≡ K.plan }
        ensures ended { OnOk result (HaveEnded (lane_in K.plan self.new.lane) self.new.lane) }
        ensures grows { OnOk result (Grows self.old.lane self.new.lane) }
    {
        self.end_control(plan)?;
        for pusher in 0..8u8 {
            self.end_session(plan, pusher)?;
        }
        Ok(())
    }

    // Takes a turn of a lane whose pushers ended, and steps the clock where it is idle. Tells
    // whether it came to End.
    fn step(&mut self) -> Result<bool, OutOfMemory>
        requires ready { IsReady K.plan self.old.lane }
        ensures told { IfOk result (λ b. b ≡ true
            → end_told (history K.plan self.new.lane) ≡ true) }
        ensures goes_on { IfOk result (λ b. b ≡ false → GoesOn K.plan self.old.lane self.new.lane) }
        ensures grows { OnOk result (Grows self.old.lane self.new.lane) }
    {
        match self.turn()? {
            Next::Again => Ok(false),
            Next::Ended => Ok(true),
            Next::Wait(Some(t)) => self.step_at(t),
            Next::Wait(None) | Next::Flushing | Next::Stopped => unreachable!(),
        }
    }

    // Steps the clock to the wake, and takes the turn there.
    fn step_at(&mut self, t: u64) -> Result<bool, OutOfMemory>
        requires ready { IsReady K.plan self.old.lane }
        requires wake { turn_of K.plan self.old.lane ≡ Idle (Some t) }
        ensures told { IfOk result (λ b. b ≡ true
            → end_told (history K.plan self.new.lane) ≡ true) }
        ensures goes_on { IfOk result (λ b. b ≡ false → GoesOn K.plan self.old.lane self.new.lane) }
        ensures grows { OnOk result (Grows self.old.lane self.new.lane) }
    {
        self.tick(t)?;
        match self.turn()? {
            Next::Again => Ok(false),
            Next::Ended => Ok(true),
            Next::Wait(_) | Next::Flushing | Next::Stopped => unreachable!(),
        }
    }

    // Takes turns until End.
    fn take_turns(&mut self) -> Result<(), OutOfMemory>
        requires ready { IsReady K.plan self.old.lane }
        ensures told { OnOk result (end_told (history K.plan self.new.lane) ≡ true) }
        ensures grows { OnOk result (Grows self.old.lane self.new.lane) }
    {
        loop {
            if self.step()? {
                return Ok(());
            }
        }
    }

    // Takes turns until End, unless it was told.
    fn finish(&mut self) -> Result<(), OutOfMemory>
        requires on { self.old.lane.stopped ≡ false }
        requires ended { HaveEnded (lane_in K.plan self.old.lane) self.old.lane }
        ensures told { OnOk result (end_told (history K.plan self.new.lane) ≡ true) }
        ensures grows { OnOk result (Grows self.old.lane self.new.lane) }
    {
        if self.lane.progress.told {
            return Ok(());
        }
        self.take_turns()
    }

    /// Takes the lane to its End on one thread. A state that was stopped met want of memory, and so
    /// answers that.
    pub fn complete(mut self, plan: &Plan) -> Result<LaneHistory, OutOfMemory>
        requires plan { plan.now ≡ K.plan }
        ensures whole { IfOk result (λ h. IsWhole (lane_of plan.now self.lane.number)
            h.entries.items) }
        ensures begins { IfOk result (λ h. IsPrefix self.lane.journal.items h.entries.items) }
    {
        // A law for the proof; the call does nothing.
        rests_after_the_end();
        if self.lane.stopped {
            return Err(OutOfMemory);
        }
        self.end_all(plan)?;
        self.finish()?;
        Ok(LaneHistory::of(self.lane.journal))
    }
}
