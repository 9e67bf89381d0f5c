//! The bin: records and items in order of time, and what is due between them.
ghost use Rattle.bin_core.specs.Known.{IsKnown};

use crate::agenda::Agenda;
use pcap_file::PcapRecord;
use replay_model::laws::{serves_all, serves_in_parts, timelines_keep};
use rtp_units::OutOfMemory;
use script_lang::{Item, Script};
use std::alloc::Global;
use timeline::Lines;

/// The most records of a capture.
pub const MAX_RECORDS: u64 = 100_000_000;

/// The sessions of a script, with a lane for each of their streams, at most 64 of them.
///
/// A bin stands for the list of the records and items that it has taken, each at its time, and each
/// call adds the lines that the log of `replay_model` has next. What is due between two inputs can
/// be served ahead of the second, a bit at a time, so that no call owes many lines. After want of
/// memory each call answers it again.
#[derive(Drop)]
pub struct Bin {
    agenda: Agenda,
    records: u64,
    time: u64,
    ahead: bool,
    finished: bool,
    broken: bool,
    ghost known: { ∥ IsKnown broken finished records agenda ∥₁ },
}

impl Bin {
    ghost use Rattle.std.specs.Prelude.{◌≡◌, ◌<◌, ◌≤◌, ◌+◌, ◌^◌, [], true, false};
    ghost use Rattle.std.specs.Prelude.{IfOk, OnOk, OnErr, IsErr};
    ghost use Rattle.replay_model.specs.Fitting.{IsItem};
    ghost use Rattle.replay_model.specs.Inputs.{OfCapture, OfScript};
    ghost use Rattle.bin_core.specs.Words.{records_of, time_of, due_left};
    ghost use Rattle.bin_core.specs.Words.{ahead_of, is_finished, is_broken};
    ghost use Rattle.bin_core.specs.Bins.{BinStands, Serves, HasServed, Takes, Ends, timed};

    /// A bin before any record and item.
    pub fn new(alloc: Global, script: &Script) -> Result<Bin, OutOfMemory>
        ensures records { IfOk result (λ bin. records_of bin ≡ 0) }
        ensures time { IfOk result (λ bin. time_of bin ≡ 0) }
        ensures level { IfOk result (λ bin. ahead_of bin ≡ false) }
        ensures open { IfOk result (λ bin. is_finished bin ≡ false) }
        ensures stands { IfOk result (λ bin. BinStands script.now bin [] []) }
    {
        Ok(Bin {
            agenda: Agenda::new(alloc, script)?,
            records: 0,
            time: 0,
            ahead: false,
            finished: false,
            broken: false,
        })
    }

    /// The number of records so far.
    pub fn records(&self) -> u64
        ensures { result ≡ records_of self.now }
    {
        self.records
    }

    /// The time of the last call that had one, in nanoseconds, or 0.
    pub fn time(&self) -> u64
        ensures { result ≡ time_of self.now }
    {
        self.time
    }

    /// Whether something was served since the last input.
    pub fn is_ahead(&self) -> bool
        ensures { result ≡ ahead_of self.now }
    {
        self.ahead
    }

    /// Whether the end was told.
    pub fn finished(&self) -> bool
        ensures { result ≡ is_finished self.now }
    {
        self.finished
    }

    /// Serves what is due first up to `t` nanoseconds: the reports of all sessions, or a lane. Its
    /// lines are added to `lines`. Answers whether there was something: where there was nothing,
    /// all that is due up to `t` was told.
    pub fn advance(&mut self, alloc: Global, t: u64, lines: &mut Lines) -> Result<bool, OutOfMemory>
        requires onward { time_of self.old ≤ t }
        requires small { t < 2 ^ 63 }
        requires open { is_finished self.old ≡ false }
        ensures records { records_of self.new ≡ records_of self.old }
        ensures time { time_of self.new ≡ t }
        ensures open { is_finished self.new ≡ false }
        ensures fewer { IfOk result (λ more. more ≡ true
            → due_left t self.new < due_left t self.old) }
        ensures serves { OnOk result (Serves self.old self.new lines.old lines.new) }
        ensures all { IfOk result (λ more. more ≡ false → HasServed t self.new) }
        ensures broken { OnErr result (is_broken self.new ≡ true) }
        ensures again { is_broken self.old ≡ true → IsErr result }
    {
        // Laws for the proof; the calls do nothing.
        serves_all();
        serves_in_parts();
        timelines_keep();
        self.time = t;
        if self.broken {
            return Err(OutOfMemory);
        }
        let result = self.agenda.serve_one(alloc, true, t, lines);
        match result {
            Ok(more) => self.ahead = self.ahead || more,
            Err(_) => self.broken = true,
        }
        result
    }

    /// Takes record number `n`, which comes at `time` nanoseconds. What is due up to that time and
    /// wasn't served is served before it. The lines are added to `lines`.
    pub fn take_record(
        &mut self,
        alloc: Global,
        n: u64,
        time: u64,
        link: u16,
        rec: &PcapRecord,
        lines: &mut Lines,
    ) -> Result<(), OutOfMemory>
        requires number { n ≡ records_of self.old + 1 }
        requires few { n ≤ 100000000 }
        requires onward { time_of self.old ≤ time }
        requires small { time < 2 ^ 63 }
        requires open { is_finished self.old ≡ false }
        ensures records { records_of self.new ≡ n }
        ensures time { time_of self.new ≡ time }
        ensures level { ahead_of self.new ≡ false }
        ensures open { is_finished self.new ≡ false }
        ensures takes { OnOk result (Takes (OfCapture (timed time link rec.now)) self.old self.new
            lines.old lines.new) }
        ensures broken { OnErr result (is_broken self.new ≡ true) }
        ensures again { is_broken self.old ≡ true → IsErr result }
    {
        self.records = n;
        self.time = time;
        self.ahead = false;
        if self.broken {
            return Err(OutOfMemory);
        }
        let result = self.agenda.take_record(alloc, time, link, rec, lines);
        self.broken = result.is_err();
        result
    }

    /// Takes an item of the script, after what is due up to its time and wasn't served. It comes to
    /// the lanes of its session, or to all, and then they take turns. The lines are added to
    /// `lines`.
    pub fn control(
        &mut self,
        alloc: Global,
        item: &Item,
        lines: &mut Lines,
    ) -> Result<(), OutOfMemory>
        requires item { IsItem item.now }
        requires onward { time_of self.old ≤ item.now.time }
        requires open { is_finished self.old ≡ false }
        ensures records { records_of self.new ≡ records_of self.old }
        ensures time { time_of self.new ≡ item.now.time }
        ensures level { ahead_of self.new ≡ false }
        ensures open { is_finished self.new ≡ false }
        ensures takes { OnOk result (Takes (OfScript item.now) self.old self.new
            lines.old lines.new) }
        ensures broken { OnErr result (is_broken self.new ≡ true) }
        ensures again { is_broken self.old ≡ true → IsErr result }
    {
        self.time = item.time;
        self.ahead = false;
        if self.broken {
            return Err(OutOfMemory);
        }
        let result = self.agenda.control(alloc, item, lines);
        self.broken = result.is_err();
        result
    }

    /// Serves the wakes that are left, ends the lanes and adds the last line. Nothing was served
    /// since the last input.
    pub fn finish(&mut self, alloc: Global, lines: &mut Lines) -> Result<(), OutOfMemory>
        requires level { ahead_of self.old ≡ false }
        requires open { is_finished self.old ≡ false }
        ensures records { records_of self.new ≡ records_of self.old }
        ensures finished { is_finished self.new ≡ true }
        ensures completes { OnOk result (Ends self.old lines.old lines.new) }
        ensures broken { OnErr result (is_broken self.new ≡ true) }
        ensures again { is_broken self.old ≡ true → IsErr result }
    {
        self.finished = true;
        if self.broken {
            return Err(OutOfMemory);
        }
        let result = self.agenda.finish(alloc, lines);
        self.broken = result.is_err();
        result
    }
}
