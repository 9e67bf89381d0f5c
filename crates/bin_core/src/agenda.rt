//! What is due: report times, and the times at which lanes want a turn.
ghost use Rattle.std.specs.Prelude.{◌≡◌, ◌≤◌, ◌<◌, ◌+◌, ◌^◌, All};
ghost use Rattle.bin_core.specs.Intervals.{next_by};
ghost use Rattle.replay_model.specs.Serving.{earlier as earlier_of, up_to as up_to_of};

use crate::room::Room;
use crate::stage::Stage;
use crate::touched::{list_begun, list_given};
use lane_core::laws::lanes_stand_beside;
use pcap_file::PcapRecord;
use replay_model::laws::{serves_all, timelines_keep};
use replay_model::{Due, END_OF_TIME, Wake};
use replay_sound::laws::{scripts_are_sound, steps_suit_a_bin};
use rtp_units::OutOfMemory;
use script_lang::{Item, Script};
use std::alloc::Global;
use timeline::Lines;

/// A stage, the interval of report times and the next one, and the latest time at which something
/// happened, all in nanoseconds; and the lists that each input fills.
#[derive(Drop)]
pub struct Agenda {
    pub stage: Stage,
    pub interval: u64,
    pub next_report: Option<u64>,
    pub latest: u64,
    pub room: Room,
    ghost small: { interval ≤ 600000000000 },
}

impl Agenda {
    ghost use Rattle.std.specs.Prelude.{◌≡◌, ◌<◌, ◌+◌, ◌^◌, ℕ, [], true, false, List, IfOk, OnOk};
    ghost use Rattle.pcap_file.specs.Reading.{record_view};
    ghost use Rattle.timeline.specs.declared.line.BinLine.{BinLine as LineOf};
    ghost use Rattle.front_model.specs.Events.{Came};
    ghost use Rattle.replay_model.specs.Fitting.{IsItem};
    ghost use Rattle.replay_model.specs.Taking.{taken};
    ghost use Rattle.replay_model.specs.Log.{served, with_item};
    ghost use Rattle.bin_core.specs.Agendas.{Holds, GoesTo, ServesFirst, ServesNothing};
    ghost use Rattle.bin_core.specs.Agendas.{CompletesAll, ReportsAt, all_served, left_in};
    ghost use Rattle.bin_core.specs.Intervals.{next_by};
    ghost use Rattle.bin_core.specs.Stages.{SameWakes};
    ghost use Rattle.bin_core.specs.Underway.{Owes, IsAtRest, StaysAtRest};

    /// An agenda before anything came.
    pub fn new(alloc: Global, script: &Script) -> Result<Agenda, OutOfMemory>
        ensures stands { IfOk result (λ agenda. (before : List LineOf)
            → Holds script.now (record { before = before; log = [] }) agenda before []) }
        ensures rests { IfOk result (λ agenda. Owes 0 [] agenda.stage) }
    {
        let interval = script.settings.report;
        Ok(Agenda {
            stage: Stage::new(alloc, script)?,
            interval,
            next_report: if interval == 0 { None } else { Some(interval) },
            latest: 0,
            room: Room::new(alloc),
        })
    }

    /// Serves what is due first up to a limit, of the report times if `reports`, and of the lanes.
    /// Answers whether there was something.
    pub fn serve_one(
        &mut self,
        alloc: Global,
        reports: bool,
        limit: u64,
        lines: &mut Lines,
    ) -> Result<bool, OutOfMemory>
        requires limit { limit < 2 ^ 63 + 2 ^ 50 }
        requires rests { IsAtRest self.old.stage }
        ensures fewer { IfOk result (λ more. more ≡ true
            → left_in limit self.new < left_in limit self.old) }
        ensures first { IfOk result (λ more. more ≡ true
            → ServesFirst reports limit self.old self.new lines.old lines.new) }
        ensures none { IfOk result (λ more. more ≡ false
            → ServesNothing reports limit self.old self.new lines.old lines.new) }
        ensures stays { IfOk result (λ more. more ≡ false → self.new ≡ self.old) }
        ensures rests { OnOk result (StaysAtRest self.old.stage self.new.stage) }
    {
        // Laws for the proof; the calls do nothing.
        timelines_keep();
        lanes_stand_beside();
        let report = if reports { self.next_report } else { None };
        match up_to(limit, earlier(report, self.stage.next_turn())) {
            None => Ok(false),
            Some(Due::Reports(time)) => {
                self.report(alloc, time, lines)?;
                Ok(true)
            }
            Some(Due::Turns(wake)) => {
                self.stage.tick(alloc, wake.time, wake.lane, lines)?;
                self.latest = self.latest.max(wake.time);
                Ok(true)
            }
        }
    }

    // A report time comes.
    fn report(&mut self, alloc: Global, time: u64, lines: &mut Lines) -> Result<(), OutOfMemory>
        requires time { time < 2 ^ 63 + 2 ^ 50 }
        requires rests { IsAtRest self.old.stage }
        ensures stands { OnOk result (ReportsAt time self.old self.new lines.old lines.new) }
        ensures wakes { OnOk result (SameWakes self.old.stage self.new.stage) }
        ensures next { OnOk result (self.new.next_report ≡ next_by self.old.interval time) }
        ensures rests { OnOk result (StaysAtRest self.old.stage self.new.stage) }
    {
        // A law for the proof; the call does nothing.
        timelines_keep();
        self.stage.report(alloc, time, &mut self.room.steps, lines)?;
        self.next_report = next_after(time, self.interval);
        self.latest = self.latest.max(time);
        Ok(())
    }

    // Serves all that is due up to a limit.
    fn serve(
        &mut self,
        alloc: Global,
        reports: bool,
        limit: u64,
        lines: &mut Lines,
    ) -> Result<(), OutOfMemory>
        requires limit { limit < 2 ^ 63 + 2 ^ 50 }
        requires rests { IsAtRest self.old.stage }
        ensures goes { OnOk result (GoesTo self.old self.new lines.old lines.new
            (all_served reports limit)) }
        ensures rests { OnOk result (StaysAtRest self.old.stage self.new.stage) }
    {
        // Laws for the proof; the calls do nothing.
        serves_all();
        timelines_keep();
        'due: loop {
            if !self.serve_one(alloc, reports, limit, lines)? {
                return Ok(());
            }
        }
    }

    /// Takes a record that comes at `time` nanoseconds, behind what is due up to then.
    pub fn take_record(
        &mut self,
        alloc: Global,
        time: u64,
        link: u16,
        rec: &PcapRecord,
        lines: &mut Lines,
    ) -> Result<(), OutOfMemory>
        requires small { time < 2 ^ 63 }
        requires rests { IsAtRest self.old.stage }
        requires few { self.old.stage.front.taken < 100000000 }
        ensures goes { OnOk result (GoesTo self.old self.new lines.old lines.new
            (λ c tl. taken c time (Came time (record_view link rec.now)) (served c time tl))) }
        ensures rests { OnOk result ((n : ℕ) → Owes n [] self.old.stage
            → Owes (n + 1) [] self.new.stage) }
    {
        // Laws for the proof; the calls do nothing.
        steps_suit_a_bin();
        scripts_are_sound();
        timelines_keep();
        lanes_stand_beside();
        holds_bytes(rec.bytes.bytes());
        self.serve(alloc, true, time, lines)?;
        let Room { steps, touched } = &mut self.room;
        steps.clear();
        self.stage.front.take(alloc, time, link, rec, steps)?;
        list_given(touched, steps.as_slice())?;
        let began = self.stage.lanes.len();
        self.stage.walk(alloc, time, steps, lines)?;
        list_begun(touched, began, self.stage.lanes.len())?;
        self.stage
            .tick_listed(alloc, time, touched.as_slice(), lines)?;
        self.latest = self.latest.max(time);
        Ok(())
    }

    /// Takes an item of the script, behind what is due up to its time.
    pub fn control(
        &mut self,
        alloc: Global,
        item: &Item,
        lines: &mut Lines,
    ) -> Result<(), OutOfMemory>
        requires item { IsItem item.now }
        requires rests { IsAtRest self.old.stage }
        ensures goes { OnOk result (GoesTo self.old self.new lines.old lines.new
            (λ c tl. with_item c item.now (served c item.now.time tl))) }
        ensures rests { OnOk result (StaysAtRest self.old.stage self.new.stage) }
    {
        // A law for the proof; the call does nothing.
        timelines_keep();
        self.serve(alloc, true, item.time, lines)?;
        self.stage
            .control(alloc, item, &mut self.room.touched, lines)?;
        self.latest = self.latest.max(item.time);
        Ok(())
    }

    /// Serves the wakes that are left, and completes the log.
    pub fn finish(&mut self, alloc: Global, lines: &mut Lines) -> Result<(), OutOfMemory>
        requires { IsAtRest self.old.stage }
        ensures { OnOk result (CompletesAll self.old lines.old lines.new) }
    {
        // Laws for the proof; the calls do nothing.
        timelines_keep();
        lanes_stand_beside();
        self.serve(alloc, false, END_OF_TIME, lines)?;
        self.stage.finish(alloc, self.latest, lines)
    }
}

// What each slice of bytes is, for the proof; the call does nothing.
fn holds_bytes(bytes: &[u8])
    ensures { All (λ b. b < 256) bytes.now }
{}

// The earlier one; the report time of two at one time.
fn earlier(report: Option<u64>, wake: Option<Wake>) -> Option<Due>
    ensures { result ≡ earlier_of report wake }
{
    match (report, wake) {
        (None, None) => None,
        (None, Some(wake)) => Some(Due::Turns(wake)),
        (Some(time), None) => Some(Due::Reports(time)),
        (Some(time), Some(wake)) if time <= wake.time => Some(Due::Reports(time)),
        (Some(_), Some(wake)) => Some(Due::Turns(wake)),
    }
}

// What is due, where it isn't later than a limit.
fn up_to(limit: u64, due: Option<Due>) -> Option<Due>
    ensures { result ≡ up_to_of limit due }
{
    match due {
        Some(Due::Reports(time)) if time <= limit => due,
        Some(Due::Turns(wake)) if wake.time <= limit => due,
        _ => None,
    }
}

// The report time behind one, if there are any.
fn next_after(time: u64, interval: u64) -> Option<u64>
    requires time { time < 2 ^ 63 + 2 ^ 50 }
    requires interval { interval ≤ 600000000000 }
    ensures { result ≡ next_by interval time }
{
    if interval == 0 {
        None
    } else {
        Some(time + interval)
    }
}
