//! A lane and its journal, without a word on plans that its type keeps.

ghost use Rattle.std.specs.Prelude.{ℕ, Some, ◌≡◌, ◌<◌, ◌≤◌, ◌+◌, ◌-◌, ◌^◌, true, false, [], ◌∷◌};
ghost use Rattle.std.specs.Prelude.{vec_len, vec_capacity, is_some, length, not, ◌&&◌, IfOk, OnErr};
ghost use Rattle.jitter_model.specs.declared.Entry.TheVariants as call;
ghost use Rattle.jitter_model.specs.History.{is_pusher};
ghost use Rattle.jitter_core.specs.Words.{settings_of};
ghost use Rattle.live_bin.specs.declared.plan.Delivery.TheVariants as brought;
ghost use Rattle.live_bin.specs.declared.plan.ControlEvent.TheVariants as control;
ghost use Rattle.live_bin.specs.declared.entry.Entry.TheVariants.{Report, Clock, FlushStart};
ghost use Rattle.live_bin.specs.declared.entry.Entry.TheVariants.{FlushStop, Latency, Ends};
ghost use Rattle.live_bin.specs.Plans.{IsEvent, event, queue};
ghost use Rattle.live_bin.specs.Steps.{IsSame, Adds, CanPush, Delivers, DeliversNext, Controls};
ghost use Rattle.live_bin.specs.Steps.{ControlsNext, Notes, TakesTurn, TurnsOn, TurnDoes, given_of};
ghost use Rattle.live_bin.specs.Steps.{ended_of, next_delivery, left_for, can_end, next_by};
ghost use Rattle.live_bin.specs.Steps.{with_ended};
ghost use Rattle.jitter_model.specs.declared.Arrival.{Arrival};
ghost use Rattle.live_bin.specs.declared.plan.ControlEvent.{ControlEvent as ControlEventOf};

use crate::copying::copied;
use crate::entry::{Entry, Next};
use crate::plan::{ControlEvent, Delivery, PlanLane};
use jitter_core::{Arrival, Buffer, Turn, uncounted};
use rtp_units::OutOfMemory;
use std::alloc::Global;

/// How far each pusher is, which the journal tells too.
#[derive(Clone, Copy, Debug, Drop)]
pub struct Progress {
    /// How many deliveries of each session came.
    pub given: [u64; 8],
    /// How many events of the control list came.
    pub controls: u64,
    /// Which pushers ended.
    pub ended: [bool; 9],
    /// Whether End was told.
    pub told: bool,
}

/// A lane.
#[derive(Drop)]
pub struct Lane {
    pub number: u8,
    pub stopped: bool,
    pub progress: Progress,
    pub buffer: Buffer,
    pub journal: Vec<Entry>,
    pub alloc: Global,
}

/// Whether the plan has a delivery of this pusher left.
pub fn has_delivery(progress: &Progress, plan: &PlanLane, pusher: u8) -> bool
    requires sessions { length plan.now.queues ≤ 8 }
    ensures value { result ≡ is_some (next_delivery plan.now progress.now pusher) }
    ensures session { result ≡ true → pusher < length plan.now.queues }
    ensures place { result ≡ true → given_of progress.now pusher < length (queue plan.now pusher) }
    ensures few { result ≡ true → given_of progress.now pusher < 2 ^ 64 - 1 }
{
    usize::from(pusher) < plan.queues.len()
        && progress.given[usize::from(pusher)] < plan.queues.of(pusher).len() as u64
}

/// The next delivery of a pusher that has one left.
fn next_of<'a>(progress: &Progress, plan: &'a PlanLane, pusher: u8) -> &'a Delivery
    requires sessions { length plan.now.queues ≤ 8 }
    requires session { pusher < length plan.now.queues }
    requires place { given_of progress.now pusher < length (queue plan.now pusher) }
    ensures { next_delivery plan.now progress.now pusher ≡ Some result.now }
{
    let queue = plan.queues.of(pusher);
    queue.at(progress.given[usize::from(pusher)])
}

/// Pushes a packet.
pub fn push(lane: &mut Lane, arrival: Arrival, pusher: u8, k: u64)
    requires room { vec_len lane.old.journal < vec_capacity lane.old.journal }
    requires session { pusher < 8 }
    requires count { k ≡ given_of lane.old.progress pusher }
    requires few { k < 2 ^ 64 - 1 }
    requires can { CanPush lane.old.buffer arrival }
    ensures { Delivers lane.old lane.new pusher (brought.Packet arrival) }
{
    let stamp = arrival.stamp;
    let seq = arrival.packet.seq;
    let origin = arrival.origin;
    let pushed = uncounted::push(&mut lane.buffer, arrival);
    lane.journal.push_reserved(Entry::Push {
        pusher,
        k,
        stamp,
        seq,
        origin,
        verdict: pushed.verdict,
        number: pushed.number,
        aside_dropped: pushed.aside_dropped,
    });
    lane.progress.given[usize::from(pusher)] = k + 1;
}

/// Tells a sender report.
pub fn report(lane: &mut Lane, pusher: u8, k: u64, ntp_ns: u64, rtp: u32)
    requires room { vec_len lane.old.journal < vec_capacity lane.old.journal }
    requires session { pusher < 8 }
    requires count { k ≡ given_of lane.old.progress pusher }
    requires few { k < 2 ^ 64 - 1 }
    ensures { Delivers lane.old lane.new pusher (brought.Report pusher k ntp_ns rtp) }
{
    let local = match lane.buffer.sender_report(ntp_ns, rtp) {
        Some(sync) => Some(sync.local),
        None => None,
    };
    lane.journal.push_reserved(Entry::Report {
        pusher,
        k,
        ntp_ns,
        rtp,
        local,
    });
    lane.progress.given[usize::from(pusher)] = k + 1;
}

/// Gives the buffer this pusher's next delivery.
pub fn deliver_on(lane: &mut Lane, plan: &PlanLane, pusher: u8) -> Result<bool, OutOfMemory>
    requires sessions { length plan.now.queues ≤ 8 }
    requires right { (a : Arrival) → next_delivery plan.now lane.old.progress pusher
        ≡ Some (brought.Packet a) → CanPush lane.old.buffer a }
    requires numbered { (q k ntp_ns rtp : ℕ)
        → next_delivery plan.now lane.old.progress pusher ≡ Some (brought.Report q k ntp_ns rtp)
        → (q ≡ pusher) × (k ≡ given_of lane.old.progress pusher) }
    ensures number { lane.new.number ≡ lane.old.number }
    ensures value { IfOk result (λ b. b
        ≡ is_some (next_delivery plan.now lane.old.progress pusher)) }
    ensures does { IfOk result (λ b. b ≡ true → DeliversNext plan.now lane.old lane.new pusher) }
    ensures none { IfOk result (λ b. b ≡ false → IsSame lane.old lane.new) }
    ensures err { OnErr result (IsSame lane.old lane.new) }
{
    if !has_delivery(&lane.progress, plan, pusher) {
        return Ok(false);
    }
    lane.journal.reserve(1)?;
    let k = lane.progress.given[usize::from(pusher)];
    match next_of(&lane.progress, plan, pusher) {
        Delivery::Packet(arrival) => {
            let arrival = copied(lane.alloc, arrival)?;
            push(lane, arrival, pusher, k);
        }
        Delivery::Report { ntp_ns, rtp, .. } => report(lane, pusher, k, *ntp_ns, *rtp),
    }
    Ok(true)
}

/// Gives the buffer a control event.
pub fn control(lane: &mut Lane, event: ControlEvent)
    requires room { vec_len lane.old.journal < vec_capacity lane.old.journal }
    requires few { lane.old.progress.controls < 2 ^ 64 - 1 }
    requires event { IsEvent event }
    ensures { Controls lane.old lane.new event }
{
    match event {
        ControlEvent::Clock(t) => {
            lane.buffer.clock(t);
            lane.journal.push_reserved(Entry::Clock { by: 8, t });
        }
        ControlEvent::FlushStart => {
            let count = lane.buffer.flush_start();
            lane.journal.push_reserved(Entry::FlushStart { count });
        }
        ControlEvent::FlushStop => {
            lane.buffer.flush_stop();
            lane.journal.push_reserved(Entry::FlushStop);
        }
        ControlEvent::Latency(ns) => {
            lane.buffer.set_latency(ns);
            lane.journal.push_reserved(Entry::Latency { ns });
        }
    }
    lane.progress.controls += 1;
}

/// Gives the buffer the next event of the control list.
pub fn control_on(lane: &mut Lane, plan: &PlanLane) -> Result<bool, OutOfMemory>
    requires right { (x : ControlEventOf) → event plan.now lane.old.progress.controls ≡ Some x
        → IsEvent x }
    ensures number { lane.new.number ≡ lane.old.number }
    ensures value { IfOk result (λ b. b ≡ is_some (event plan.now lane.old.progress.controls)) }
    ensures does { IfOk result (λ b. b ≡ true → ControlsNext plan.now lane.old lane.new) }
    ensures none { IfOk result (λ b. b ≡ false → IsSame lane.old lane.new) }
    ensures err { OnErr result (IsSame lane.old lane.new) }
{
    if lane.progress.controls >= plan.events.len() as u64 {
        return Ok(false);
    }
    lane.journal.reserve(1)?;
    control(lane, plan.events.at(lane.progress.controls));
    Ok(true)
}

/// Steps the clock to a wake.
pub fn tick_on(lane: &mut Lane, t: u64) -> Result<(), OutOfMemory>
    requires { t < 2 ^ 63 + 2 ^ 50 }
    ensures number { lane.new.number ≡ lane.old.number }
    ensures does { IfOk result (λ u. Adds lane.old lane.new (Clock 9 t) (call.Clock t)
        lane.old.progress) }
    ensures err { OnErr result (IsSame lane.old lane.new) }
{
    lane.journal.reserve(1)?;
    lane.buffer.clock(t);
    lane.journal.push_reserved(Entry::Clock { by: 9, t });
    Ok(())
}

/// Whether a set of bits has this pusher.
pub fn is_in(pushers: u16, pusher: u8) -> bool
    requires { pusher < 9 }
    ensures { result ≡ is_pusher pushers pusher }
{
    (pushers >> pusher) % 2 == 1
}

/// Whether the plan has something left for this pusher.
fn has_left(progress: &Progress, plan: &PlanLane, pusher: u8) -> bool
    requires sessions { length plan.now.queues ≤ 8 }
    ensures { result ≡ left_for plan.now progress.now pusher }
{
    if pusher == 8 {
        progress.controls < plan.events.len() as u64
    } else {
        has_delivery(progress, plan, pusher)
    }
}

/// Whether this pusher may end: it is one of the lane's, goes on, and has nothing left.
pub fn may_end(progress: &Progress, plan: &PlanLane, pusher: u8) -> bool
    requires sessions { length plan.now.queues ≤ 8 }
    ensures { result ≡ can_end plan.now progress.now pusher }
{
    pusher < 9
        && is_in(plan.settings.pushers, pusher)
        && !progress.ended[usize::from(pusher)]
        && !has_left(progress, plan, pusher)
}

/// Ends a pusher.
pub fn end(lane: &mut Lane, pusher: u8)
    requires room { vec_len lane.old.journal < vec_capacity lane.old.journal }
    requires small { pusher < 9 }
    requires pusher { is_pusher (settings_of lane.old.buffer).pushers pusher ≡ true }
    ensures { Adds lane.old lane.new (Ends pusher) (call.Ends pusher) (with_ended lane.old.progress
        pusher) }
{
    lane.buffer.end(pusher);
    lane.journal.push_reserved(Entry::Ends { pusher });
    lane.progress.ended[usize::from(pusher)] = true;
}

/// Ends a pusher that may end.
pub fn ends_on(lane: &mut Lane, plan: &PlanLane, pusher: u8) -> Result<bool, OutOfMemory>
    requires sessions { length plan.now.queues ≤ 8 }
    requires settings { settings_of lane.old.buffer ≡ plan.now.settings }
    ensures number { lane.new.number ≡ lane.old.number }
    ensures value { IfOk result (λ b. b ≡ can_end plan.now lane.old.progress pusher) }
    ensures does { IfOk result (λ b. b ≡ true
        → Adds lane.old lane.new (Ends pusher) (call.Ends pusher) (with_ended lane.old.progress
        pusher)) }
    ensures none { IfOk result (λ b. b ≡ false → IsSame lane.old lane.new) }
    ensures err { OnErr result (IsSame lane.old lane.new) }
{
    if !may_end(&lane.progress, plan, pusher) {
        return Ok(false);
    }
    lane.journal.reserve(1)?;
    end(lane, pusher);
    Ok(true)
}

/// Writes down what a turn of the lane's buffer was answered.
fn note(lane: &mut Lane, turn: Turn) -> Next
    requires room { vec_len lane.old.journal < vec_capacity lane.old.journal }
    ensures value { result ≡ next_by turn }
    ensures notes { Notes lane.old lane.new turn }
{
    match turn {
        Turn::Packet {
            number,
            pts,
            packet,
        } => {
            lane.journal.push_reserved(Entry::Packet {
                number,
                pts,
                packet,
            });
            Next::Again
        }
        Turn::Lost {
            number,
            count,
            pts,
            duration,
        } => {
            lane.journal.push_reserved(Entry::Lost {
                number,
                count,
                pts,
                duration,
            });
            Next::Again
        }
        Turn::Request { number, k } => {
            lane.journal.push_reserved(Entry::Request { number, k });
            Next::Again
        }
        Turn::End => {
            lane.journal.push_reserved(Entry::End);
            lane.progress.told = true;
            Next::Ended
        }
        Turn::Idle { wake } => Next::Wait(wake),
        Turn::Flushing => Next::Flushing,
    }
}

/// Takes a turn on a lane that goes on.
fn take_turn(lane: &mut Lane) -> Next
    requires room { vec_len lane.old.journal < vec_capacity lane.old.journal }
    ensures { TurnsOn lane.old lane.new result }
{
    let turn = uncounted::turn(&mut lane.buffer);
    let next = note(lane, turn);
    if lane.progress.told {
        Next::Ended
    } else {
        next
    }
}

/// Takes a turn.
pub fn turn_on(lane: &mut Lane) -> Result<Next, OutOfMemory>
    ensures number { lane.new.number ≡ lane.old.number }
    ensures does { IfOk result (λ next. TurnDoes lane.old lane.new next) }
    ensures err { OnErr result (IsSame lane.old lane.new) }
{
    if lane.stopped {
        return Ok(Next::Stopped);
    }
    lane.journal.reserve(1)?;
    let next = take_turn(lane);
    Ok(next)
}
