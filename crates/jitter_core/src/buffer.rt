//! The buffer.

ghost use Rattle.jitter_core.specs.Stands.{IsReached};
ghost use Rattle.jitter_core.specs.Scheduling.{IsTimed};

use crate::flushing::{report_on, start_flush, stop_flush};
use crate::heights::Heights;
use crate::peaks::Peaks;
use crate::pushing::push_on;
use crate::schedule::Schedule;
use crate::served::Served;
use crate::state::{Progress, Span, State};
use crate::timing::{delay, end_pusher, pass_time};
use crate::turning::{have_all_ended, turn_on};
use jitter_model::laws::{
    numbers_lie_between, replies_tell, runs_are_bounded, searches_find_the_least, turns_run_out,
    wakes_are_later,
};
use jitter_model::{Arrival, Held, Pushed, Settings, Turn};
use jitter_timers::{Steps, TimerQueue};
use packet_store::{AsideList, Store};
use rtp_units::{OutOfMemory, SyncInfo};
use skew_estimator::Skew;
use std::alloc::Global;
use std::sync::ledger::Ledger;

/// Holds the packets of one source and gives them out in order.
///
/// A buffer stands for the list of all calls so far with their replies, and each reply is the one that the
/// list machine of `jitter_model` defines on that list. Turns that are answered `Idle` or `Flushing` may be
/// left out of it. Only `new` takes memory.
#[derive(Drop)]
pub struct Buffer {
    state: State,
    schedule: Schedule,
    ghost reached: { IsReached state },
    ghost timed: { IsTimed state schedule },
}

impl Buffer {
    ghost use Rattle.std.specs.Prelude.{◌≡◌, ◌<◌, ◌≤◌, ◌^◌, ◌+◌, ◌*◌, ℕ, max, true, false, [], ◌∷◌, IfOk};
    ghost use Rattle.std.specs.FinMap as map;
    ghost use Rattle.jitter_model.specs.declared.Entry.TheVariants.{Push, Clock, FlushStart, FlushStop, Latency, Report, Ends, Turned};
    ghost use Rattle.jitter_model.specs.History.{History, pushes, is_pusher, all_ended};
    ghost use Rattle.jitter_model.specs.Verdicts.{pushed as reply_to_push};
    ghost use Rattle.jitter_model.specs.Times.{held};
    ghost use Rattle.jitter_model.specs.Turns.{turn, is_quiet, wake_of, left, next_request};
    ghost use Rattle.jitter_model.specs.Runs.{IsValid, flush_count, report};
    ghost use Rattle.jitter_model.specs.Laws.{IsLater};
    ghost use Rattle.jitter_core.specs.Turning.{is_idle};
    ghost use Rattle.jitter_core.specs.Words.{Stands, settings_of, pushes_of, left_of, now_of, timers_of, gaps};

    /// An empty buffer, or an error where there is no memory for it.
    pub fn new(alloc: Global, settings: &Settings) -> Result<Buffer, OutOfMemory>
        requires { IsValid settings.now }
        ensures settings { IfOk result (λ b. settings_of b ≡ settings.now) }
        ensures pushes { IfOk result (λ b. pushes_of b ≡ 0) }
        ensures time { IfOk result (λ b. now_of b ≡ 0) }
        ensures stands { IfOk result (λ b. Stands b []) }
    {
        let held = Store::new(alloc)?;
        let heights = Heights::new(alloc)?;
        let peaks = Peaks::new(alloc)?;
        let served = Served::new(alloc)?;
        let schedule = Schedule::new(alloc)?;
        let skew = Skew::new(alloc, settings.rate, settings.mode)?;
        Ok(Buffer {
            state: State {
                settings: *settings,
                progress: Progress {
                    pushes: 0,
                    time: 0,
                    latency: settings.latency,
                    flushing: false,
                    ended: [false; 9],
                    end_told: false,
                },
                span: Span {
                    next: None,
                    top: None,
                    least: None,
                    first_pts: None,
                    held: 0,
                },
                skew,
                heights,
                peaks,
                served,
                held,
                aside: AsideList::new(),
            },
            schedule,
        })
    }

    /// How many packets were pushed.
    pub fn pushed(&self) -> u32
        ensures value { result ≡ pushes_of self.now }
        ensures stands { (h : History) → Stands self.now h → result ≡ pushes h }
    {
        self.state.progress.pushes
    }

    /// Takes a packet in, and says what became of it. It makes at most 42 steps; a step is one move of a timer.
    pub fn push<L: Ledger>(&mut self, a: Arrival, steps: &mut Steps<L>) -> Pushed
        requires pusher { is_pusher (settings_of self.old).pushers a.pusher ≡ true }
        requires stamp { a.stamp < 2 ^ 63 }
        requires few { pushes_of self.old < 2 ^ 31 }
        ensures settings { settings_of self.new ≡ settings_of self.old }
        ensures count { pushes_of self.new ≡ pushes_of self.old + 1 }
        ensures time { now_of self.new ≡ max a.stamp (now_of self.old) }
        ensures value { (h : History) → Stands self.old h
            → result ≡ reply_to_push (settings_of self.old) h a }
        ensures stands { (h : History) → Stands self.old h
            → Stands self.new (Push a result.verdict result.number result.aside_dropped ∷ h) }
        ensures quick { (h : History) → Stands self.old h
            → steps.new ≤ steps.old + 64 * (gaps (settings_of self.old) h + 2) }
        ensures few_steps { steps.new ≤ steps.old + 42 }
    {
        // Laws for the proof; the calls do nothing.
        runs_are_bounded();
        replies_tell();
        numbers_lie_between();
        push_on(&mut self.state, &mut self.schedule, a, steps)
    }

    /// Takes a turn: requests or gives out one packet, gives up numbers, or says what there is to wait for. It makes at
    /// most 64 steps for each number that is missing, and 128 more; a step is one move of a timer.
    pub fn turn<L: Ledger>(&mut self, steps: &mut Steps<L>) -> Turn
        ensures settings { settings_of self.new ≡ settings_of self.old }
        ensures same { pushes_of self.new ≡ pushes_of self.old }
        ensures time { now_of self.new ≡ now_of self.old }
        ensures value { (h : History) → Stands self.old h → result ≡ turn (settings_of self.old) h }
        ensures stands { (h : History) → Stands self.old h → Stands self.new (Turned result ∷ h) }
        ensures quiet { is_quiet result ≡ true → (h : History) → Stands self.old h
            → Stands self.new h }
        ensures measure { (h : History) → Stands self.old h
            → left_of self.old ≡ left (settings_of self.old) h }
        ensures left { is_quiet result ≡ false → left_of self.new < left_of self.old }
        ensures later { IsLater (now_of self.old) (wake_of result) }
        ensures timers { is_idle result ≡ true → (h : History) → Stands self.old h → (n : ℕ)
            → map.get (timers_of self.new).times n ≡ next_request (settings_of self.old) h n }
        ensures quick { (h : History) → Stands self.old h
            → steps.new ≤ steps.old + 64 * (gaps (settings_of self.old) h + 2) }
    {
        // Laws for the proof; the calls do nothing.
        turns_run_out();
        wakes_are_later();
        runs_are_bounded();
        replies_tell();
        numbers_lie_between();
        searches_find_the_least();
        turn_on(&mut self.state, &mut self.schedule, steps)
    }

    /// Lets time pass up to `t`, which is below 2^63 + 2^50.
    pub fn clock(&mut self, t: u64)
        requires { t < 2 ^ 63 + 2 ^ 50 }
        ensures settings { settings_of self.new ≡ settings_of self.old }
        ensures same { pushes_of self.new ≡ pushes_of self.old }
        ensures time { now_of self.new ≡ max t (now_of self.old) }
        ensures stands { (h : History) → Stands self.old h → Stands self.new (Clock t ∷ h) }
    {
        pass_time(&mut self.state, t);
    }

    /// Begins a flush: drops the packets that are held or put aside, and gives their count.
    pub fn flush_start(&mut self) -> u32
        ensures settings { settings_of self.new ≡ settings_of self.old }
        ensures same { pushes_of self.new ≡ pushes_of self.old }
        ensures time { now_of self.new ≡ now_of self.old }
        ensures value { (h : History) → Stands self.old h → result ≡ flush_count h }
        ensures stands { (h : History) → Stands self.old h
            → Stands self.new (FlushStart result ∷ h) }
    {
        // Laws for the proof; the calls do nothing.
        runs_are_bounded();
        replies_tell();
        numbers_lie_between();
        self.schedule.stale_from = Some(0);
        start_flush(&mut self.state)
    }

    /// Ends a flush. A new segment begins.
    pub fn flush_stop(&mut self)
        ensures settings { settings_of self.new ≡ settings_of self.old }
        ensures same { pushes_of self.new ≡ pushes_of self.old }
        ensures time { now_of self.new ≡ now_of self.old }
        ensures stands { (h : History) → Stands self.old h → Stands self.new (FlushStop ∷ h) }
    {
        stop_flush(&mut self.state);
    }

    /// Sets the latency, at most 600 seconds.
    pub fn set_latency(&mut self, ns: u64)
        requires { ns ≤ 600000000000 }
        ensures settings { settings_of self.new ≡ settings_of self.old }
        ensures same { pushes_of self.new ≡ pushes_of self.old }
        ensures time { now_of self.new ≡ now_of self.old }
        ensures stands { (h : History) → Stands self.old h → Stands self.new (Latency ns ∷ h) }
    {
        delay(&mut self.state, ns);
        self.schedule.stale_from = Some(0);
    }

    /// The presentation time of the RTP timestamp of a sender report (RFC 3550, section 6.4.1), with the
    /// report's NTP time. None while a flush runs, and where the segment has no height.
    pub fn sender_report(&self, ntp_ns: u64, rtp: u32) -> Option<SyncInfo>
        ensures value { (h : History) → Stands self.now h
            → result ≡ report (settings_of self.now) h ntp_ns rtp }
        ensures stands { (h : History) → Stands self.now h
            → Stands self.now (Report ntp_ns rtp result ∷ h) }
    {
        // Laws for the proof; the calls do nothing.
        runs_are_bounded();
        replies_tell();
        numbers_lie_between();
        report_on(&self.state, ntp_ns, rtp)
    }

    /// Ends a pusher.
    pub fn end(&mut self, pusher: u8)
        requires { is_pusher (settings_of self.old).pushers pusher ≡ true }
        ensures settings { settings_of self.new ≡ settings_of self.old }
        ensures same { pushes_of self.new ≡ pushes_of self.old }
        ensures time { now_of self.new ≡ now_of self.old }
        ensures stands { (h : History) → Stands self.old h → Stands self.new (Ends pusher ∷ h) }
    {
        // A law for the proof; the call does nothing.
        runs_are_bounded();
        end_pusher(&mut self.state, pusher);
        self.schedule.stale_from = Some(0);
    }

    /// Whether all pushers ended.
    pub fn all_ended(&self) -> bool
        ensures { (h : History) → Stands self.now h → result ≡ all_ended (settings_of self.now) h }
    {
        have_all_ended(&self.state.settings, &self.state.progress)
    }

    /// The held packets, each under its extended sequence number.
    pub fn store(&self) -> &Store<Held>
        ensures { (h : History) → Stands self.now h → (n : ℕ)
            → map.get result.now n ≡ held (settings_of self.now) h n }
    {
        &self.state.held
    }

    /// The timers of requests. After a turn that is answered `Idle` they are exactly the numbers that have a request
    /// still to come, each with the time at which its next one is due.
    pub fn timers(&self) -> &TimerQueue
        ensures { result.now ≡ timers_of self.now }
    {
        &self.schedule.timers
    }
}
