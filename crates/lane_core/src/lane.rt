//! One lane along the timeline.
ghost use Rattle.std.specs.Prelude.{◌≡◌};
ghost use Rattle.jitter_core.specs.Words.{settings_of};
ghost use Rattle.lane_core.specs.Totals.{IsCounted};

use crate::actions::is_for_session;
use crate::counts::{Counts, count_push, count_turn};
use crate::replies::{note_request, reply_line, tell_dropped, tell_verdict};
use front_model::{Opening, SenderReport};
use jitter_core::uncounted::{push, turn};
use jitter_core::{Arrival, Buffer, Turn};
use jitter_model::laws::{accepted_in_window, covers_from_next};
use replay_model::laws::turns_come_to_rest;
use rtp_units::{OutOfMemory, SyncInfo};
use script_lang::{Action, Item};
use std::alloc::Global;
use timeline::{BinLine, Lines};

/// The buffer of a stream, with the number that its lines have, who may push, as bits, the time at
/// which it wants a turn, and what its replies came to. Times are nanoseconds.
#[derive(Drop)]
pub struct Lane {
    pub number: u8,
    pub session: u8,
    pub ssrc: u32,
    pub pushers: u16,
    pub buffer: Buffer,
    pub wake: Option<u64>,
    pub counts: Counts,
    ghost counted: { IsCounted buffer counts },
    ghost known: { pushers ≡ (settings_of buffer).pushers },
}

impl Lane {
    ghost use Rattle.std.specs.Prelude.{◌≡◌, ◌<◌, ◌≤◌, ◌+◌, ◌^◌, ◌∷◌, ℕ};
    ghost use Rattle.std.specs.Prelude.{length, Some, IfOk, OnOk, true, false};
    ghost use Rattle.jitter_model.specs.declared.Entry.TheVariants.{Turned};
    ghost use Rattle.jitter_model.specs.History.{History, is_pusher};
    ghost use Rattle.jitter_model.specs.Laws.{IsLater};
    ghost use Rattle.jitter_model.specs.Runs.{IsValid};
    ghost use Rattle.jitter_model.specs.Turns.{turn as reply_to_turn, is_quiet, wake_of};
    ghost use Rattle.jitter_core.specs.Words.{Stands, left_of, now_of, pushes_of, settings_of};
    ghost use Rattle.replay_model.specs.Acting.{acted_on, done_to, flush_begun};
    ghost use Rattle.replay_model.specs.Fitting.{IsAction, IsItem};
    ghost use Rattle.replay_model.specs.Turning.{all_turns};
    ghost use Rattle.lane_core.specs.Totals.{with_turn};
    ghost use Rattle.lane_core.specs.Lanes.{SameLane, PushedLane, FreshLane, Replies};
    ghost use Rattle.lane_core.specs.Lanes.{GoesOn, ComesToRest, Settles};
    ghost use Rattle.lane_core.specs.Lanes.{begun_with, pushed_at, reported_at, ticked_at};
    ghost use Rattle.lane_core.specs.Lanes.{ended_at, met_at};

    /// The lane of an opening, before any call.
    pub fn new(alloc: Global, opening: &Opening) -> Result<Lane, OutOfMemory>
        requires { IsValid opening.now.settings }
        ensures { IfOk result (FreshLane opening.now) }
    {
        let buffer = Buffer::new(alloc, &opening.settings)?;
        Ok(Lane {
            number: opening.lane,
            session: opening.session,
            ssrc: opening.ssrc,
            pushers: opening.settings.pushers,
            buffer,
            wake: None,
            counts: Counts {
                out: 0,
                lost: 0,
                refused: 0,
            },
        })
    }

    /// Whether this pusher, from 0 to 8, is one of the lane's.
    pub fn has_pusher(&self, pusher: u8) -> bool
        requires { pusher < 16 }
        ensures { result ≡ is_pusher (settings_of self.now.buffer).pushers pusher }
    {
        (self.pushers >> pusher) % 2 == 1
    }

    /// The lane begins with the latency that its session has, and in its flush.
    pub fn begin(
        &mut self,
        time: u64,
        latency: u64,
        flushing: bool,
        lines: &mut Lines,
    ) -> Result<(), OutOfMemory>
        requires { latency ≤ 600000000000 }
        ensures stays { SameLane self.old self.new }
        ensures wake { self.new.wake ≡ self.old.wake }
        ensures stands { OnOk result (GoesOn self.old self.new lines.old lines.new
            (begun_with time latency flushing)) }
    {
        self.buffer.set_latency(latency);
        if flushing {
            self.begin_flush(time, lines)
        } else {
            Ok(())
        }
    }

    // A flush begins.
    fn begin_flush(&mut self, time: u64, lines: &mut Lines) -> Result<(), OutOfMemory>
        ensures stays { SameLane self.old self.new }
        ensures wake { self.new.wake ≡ self.old.wake }
        ensures stands { OnOk result (GoesOn self.old self.new lines.old lines.new
            (λ o n. flush_begun time n)) }
    {
        let count = self.buffer.flush_start();
        lines.push(BinLine::Flush {
            time,
            lane: self.number,
            count,
        })
    }

    /// A packet comes. The lane's turns come later.
    pub fn push(
        &mut self,
        time: u64,
        arrival: Arrival,
        lines: &mut Lines,
    ) -> Result<(), OutOfMemory>
        requires pusher { is_pusher (settings_of self.old.buffer).pushers arrival.pusher ≡ true }
        requires stamp { arrival.stamp < 2 ^ 63 }
        requires few { pushes_of self.old.buffer < 2 ^ 31 }
        ensures stays { PushedLane self.old self.new }
        ensures wake { self.new.wake ≡ self.old.wake }
        ensures stands { OnOk result (GoesOn self.old self.new lines.old lines.new
            (pushed_at time arrival)) }
    {
        // Laws for the proof; the calls do nothing.
        accepted_in_window();
        covers_from_next();
        let seq = arrival.packet.seq;
        let origin = arrival.origin;
        let answer = push(&mut self.buffer, arrival);
        self.counts = count_push(self.counts, answer.verdict);
        tell_dropped(self.number, time, answer.aside_dropped, lines)?;
        tell_verdict(self.number, time, seq, origin, answer.verdict, lines)
    }

    /// A sender report comes: answers which time it has in the lane, where it has one, and tells
    /// it.
    pub fn sync(
        &mut self,
        time: u64,
        report: &SenderReport,
        lines: &mut Lines,
    ) -> Result<Option<SyncInfo>, OutOfMemory>
        ensures stays { SameLane self.old self.new }
        ensures wake { self.new.wake ≡ self.old.wake }
        ensures replies { IfOk result (Replies self.old report.now.ntp_ns report.now.rtp) }
        ensures stands { OnOk result (GoesOn self.old self.new lines.old lines.new
            (reported_at time report.now.ntp_ns report.now.rtp)) }
    {
        let reply = self.buffer.sender_report(report.ntp_ns, report.rtp);
        if let Some(info) = reply {
            lines.push(BinLine::Sync {
                time,
                lane: self.number,
                local: info.local,
            })?;
        }
        Ok(reply)
    }

    /// The lane's clock comes to a time, and the lane takes its turns. Answers the 16 bits of the
    /// numbers that it asks for, in the order made.
    pub fn tick(
        &mut self,
        alloc: Global,
        time: u64,
        lines: &mut Lines,
    ) -> Result<Vec<u16>, OutOfMemory>
        requires time { time < 2 ^ 63 + 2 ^ 50 }
        ensures stays { SameLane self.old self.new }
        ensures later { OnOk result (IsLater time self.new.wake) }
        ensures few { IfOk result (λ numbers. length numbers.items ≤ 8192) }
        ensures stands { IfOk result (λ numbers. ComesToRest self.old self.new lines.old lines.new
            (ticked_at time) numbers.items) }
    {
        self.buffer.clock(time);
        self.settle(alloc, time, lines)
    }

    // Takes turns until one is idle or a flush's, keeps its wake, and answers what is asked for.
    fn settle(
        &mut self,
        alloc: Global,
        time: u64,
        lines: &mut Lines,
    ) -> Result<Vec<u16>, OutOfMemory>
        ensures stays { SameLane self.old self.new }
        ensures later { OnOk result (IsLater (now_of self.old.buffer) self.new.wake) }
        ensures few { IfOk result (λ numbers. length numbers.items ≤ 8192) }
        ensures stands { IfOk result (λ numbers. Settles self.old self.new lines.old lines.new
            (λ o n tl. all_turns o time n tl) numbers.items) }
    {
        // Laws for the proof; the calls do nothing.
        turns_come_to_rest();
        accepted_in_window();
        let mut numbers = Vec::new(alloc);
        'turns: loop {
            match self.turn() {
                Turn::Idle { wake } => {
                    self.wake = wake;
                    return Ok(numbers);
                }
                Turn::Flushing => {
                    self.wake = None;
                    return Ok(numbers);
                }
                turn => {
                    note_request(&turn, &mut numbers)?;
                    lines.push(reply_line(self.number, time, turn))?;
                }
            }
        }
    }

    // Takes one turn, and counts it.
    fn turn(&mut self) -> Turn
        ensures stays { SameLane self.old self.new }
        ensures counts { self.new.counts ≡ with_turn self.old.counts result }
        ensures time { now_of self.new.buffer ≡ now_of self.old.buffer }
        ensures value { (h : History)
            → Stands self.old.buffer h → result ≡ reply_to_turn (settings_of self.old.buffer) h }
        ensures stands { (h : History)
            → Stands self.old.buffer h → Stands self.new.buffer (Turned result ∷ h) }
        ensures quiet { is_quiet result ≡ true → (h : History)
            → Stands self.old.buffer h → Stands self.new.buffer h }
        ensures left { is_quiet result ≡ false → left_of self.new.buffer < left_of self.old.buffer }
        ensures later { IsLater (now_of self.old.buffer) (wake_of result) }
    {
        // Laws for the proof; the calls do nothing.
        accepted_in_window();
        covers_from_next();
        let turn = turn(&mut self.buffer);
        self.counts = count_turn(self.counts, &turn);
        turn
    }

    /// An item comes. Where it is for the lane's session, the lane's clock comes to the item's
    /// time, and this is done to the lane. Its turns come later.
    pub fn control(&mut self, item: &Item, lines: &mut Lines) -> Result<(), OutOfMemory>
        requires { IsItem item.now }
        ensures stays { SameLane self.old self.new }
        ensures wake { self.new.wake ≡ self.old.wake }
        ensures stands { OnOk result (GoesOn self.old self.new lines.old lines.new
            (met_at item.now)) }
    {
        if is_for_session(item.action, self.session) {
            self.meet(item, lines)
        } else {
            Ok(())
        }
    }

    // The lane's clock comes to the time of an item that is for it, and this is done to the lane.
    fn meet(&mut self, item: &Item, lines: &mut Lines) -> Result<(), OutOfMemory>
        requires { IsItem item.now }
        ensures stays { SameLane self.old self.new }
        ensures wake { self.new.wake ≡ self.old.wake }
        ensures stands { OnOk result (GoesOn self.old self.new lines.old lines.new
            (λ o n. acted_on item.now.time n item.now.action)) }
    {
        self.buffer.clock(item.time);
        self.act(item.time, item.action, lines)
    }

    // What the script does to the lane.
    fn act(&mut self, time: u64, action: Action, lines: &mut Lines) -> Result<(), OutOfMemory>
        requires { IsAction action }
        ensures stays { SameLane self.old self.new }
        ensures wake { self.new.wake ≡ self.old.wake }
        ensures stands { OnOk result (GoesOn self.old self.new lines.old lines.new
            (λ o n. done_to time n action)) }
    {
        match action {
            Action::Clock => Ok(()),
            Action::FlushStart(_) => self.begin_flush(time, lines),
            Action::FlushStop(_) => {
                self.buffer.flush_stop();
                lines.push(BinLine::Flushed {
                    time,
                    lane: self.number,
                })
            }
            Action::Latency { ns, .. } => {
                lines.push(BinLine::Latency {
                    time,
                    lane: self.number,
                    ns,
                })?;
                self.buffer.set_latency(ns);
                Ok(())
            }
        }
    }

    /// One of the lane's pushers ends, and the lane takes its turns. Answers the 16 bits of the
    /// numbers that it asks for, in the order made.
    pub fn end(
        &mut self,
        alloc: Global,
        pusher: u8,
        time: u64,
        lines: &mut Lines,
    ) -> Result<Vec<u16>, OutOfMemory>
        requires pusher { is_pusher (settings_of self.old.buffer).pushers pusher ≡ true }
        ensures stays { SameLane self.old self.new }
        ensures few { IfOk result (λ numbers. length numbers.items ≤ 8192) }
        ensures stands { IfOk result (λ numbers. ComesToRest self.old self.new lines.old lines.new
            (ended_at time pusher) numbers.items) }
    {
        self.buffer.end(pusher);
        self.settle(alloc, time, lines)
    }
}
