//! A bin whose lines are written as they come.
ghost use Rattle.std.specs.Prelude.{◌≡◌, ◌<◌, ◌≤◌, ◌+◌, ◌-◌, ◌^◌, ◌∷◌, [], map, OnOk, IfOk, false};
ghost use Rattle.replay_model.specs.Fitting.{IsItem};
ghost use Rattle.replay_model.specs.Inputs.{OfCapture, OfScript};
ghost use Rattle.bin_core.specs.Words.{records_of, time_of, is_finished};
ghost use Rattle.bin_core.specs.Bins.{timed};
ghost use Rattle.command_core.specs.Steps.{HasWriteCause};
ghost use Rattle.command_core.specs.Taken.{AddsMore};
ghost use Rattle.replay_command.specs.Plays.{AreItems, IsFresh, IsReady, time_behind};
ghost use Rattle.replay_command.specs.Plays.{PlaysMore, PlaysLast, PlaysUpTo};
ghost use Rattle.replay_command.specs.Rendered.{Renders, style_of};

use crate::rendering::Rendering;
use bin_core::{Bin, Lines};
use command_core::Stop;
use pcap_file::PcapRecord;
use replay_model::laws::goes_on;
use rtp_io::Sink;
use rtp_units::OutOfMemory;
use script_lang::{Item, Script};
use std::alloc::Global;

/// A bin, the lines of it that are to be written next, and how they become text. Between calls no
/// lines are left. What goes out for them is written before the bin goes on to the next thing that
/// is due: so few lines are held at a time.
#[derive(Drop)]
pub struct Player {
    pub bin: Bin,
    pub lines: Lines,
    pub rendering: Rendering,
}

impl Player {
    /// A player before any record and item.
    pub fn new(alloc: Global, script: &Script, rendering: Rendering) -> Result<Player, OutOfMemory>
        ensures fresh { IfOk result (λ player. IsFresh script.now rendering player) }
    {
        match Bin::new(alloc, script) {
            Ok(bin) => Ok(Player {
                bin,
                lines: Lines::new(alloc),
                rendering,
            }),
            Err(OutOfMemory) => Err(OutOfMemory),
        }
    }

    /// Gives items in order of time, none before the bin's time, and writes their lines.
    pub fn give_items<O: Sink>(
        &mut self,
        alloc: Global,
        items: &[Item],
        out: &mut O,
    ) -> Result<(), Stop>
        requires items { AreItems (time_of self.old.bin) items.now }
        requires ready { IsReady self.old }
        requires out { O.faults out.old < 2 ^ 64 - 1 }
        ensures style { style_of self.new.rendering ≡ style_of self.old.rendering }
        ensures records { records_of self.new.bin ≡ records_of self.old.bin }
        ensures time { OnOk result
            (time_of self.new.bin ≡ time_behind (time_of self.old.bin) items.now) }
        ensures ready { OnOk result (IsReady self.new) }
        ensures plays { PlaysMore result self.old self.new (map OfScript items.now)
            (O.written out.old) (O.written out.new) }
        ensures more { AddsMore [] (O.written out.old) (O.written out.new) }
        ensures cause { HasWriteCause result (O.faults out.old) (O.faults out.new) }
    {
        // A law for the proof; the call does nothing.
        goes_on();
        for item in items {
            match self.give_item(alloc, item, out) {
                Ok(()) => {}
                Err(stop) => return Err(stop),
            }
        }
        Ok(())
    }

    fn give_item<O: Sink>(&mut self, alloc: Global, item: &Item, out: &mut O) -> Result<(), Stop>
        requires item { IsItem item.now }
        requires onward { time_of self.old.bin ≤ item.now.time }
        requires ready { IsReady self.old }
        requires out { O.faults out.old < 2 ^ 64 - 1 }
        ensures style { style_of self.new.rendering ≡ style_of self.old.rendering }
        ensures records { records_of self.new.bin ≡ records_of self.old.bin }
        ensures time { OnOk result (time_of self.new.bin ≡ item.now.time) }
        ensures ready { OnOk result (IsReady self.new) }
        ensures plays { PlaysMore result self.old self.new (OfScript item.now ∷ [])
            (O.written out.old) (O.written out.new) }
        ensures more { AddsMore [] (O.written out.old) (O.written out.new) }
        ensures cause { HasWriteCause result (O.faults out.old) (O.faults out.new) }
    {
        // A law for the proof; the call does nothing.
        goes_on();
        match self.advance(alloc, item.time, out) {
            Ok(()) => {}
            Err(stop) => return Err(stop),
        }
        match self.bin.control(alloc, item, &mut self.lines) {
            Ok(()) => self.write_lines(alloc, out),
            Err(OutOfMemory) => Err(Stop::Memory),
        }
    }

    /// Gives the next record, which comes at `time`, and writes its lines.
    pub fn give_record<O: Sink>(
        &mut self,
        alloc: Global,
        time: u64,
        link: u16,
        rec: &PcapRecord,
        out: &mut O,
    ) -> Result<(), Stop>
        requires few { records_of self.old.bin < 100000000 }
        requires onward { time_of self.old.bin ≤ time }
        requires small { time < 2 ^ 63 }
        requires ready { IsReady self.old }
        requires out { O.faults out.old < 2 ^ 64 - 1 }
        ensures style { style_of self.new.rendering ≡ style_of self.old.rendering }
        ensures records { OnOk result (records_of self.new.bin ≡ records_of self.old.bin + 1) }
        ensures time { OnOk result (time_of self.new.bin ≡ time) }
        ensures ready { OnOk result (IsReady self.new) }
        ensures plays { PlaysMore result self.old self.new
            (OfCapture (timed time link rec.now) ∷ []) (O.written out.old) (O.written out.new) }
        ensures more { AddsMore [] (O.written out.old) (O.written out.new) }
        ensures cause { HasWriteCause result (O.faults out.old) (O.faults out.new) }
    {
        // A law for the proof; the call does nothing.
        goes_on();
        match self.advance(alloc, time, out) {
            Ok(()) => {}
            Err(stop) => return Err(stop),
        }
        let n = self.bin.records() + 1;
        match self
            .bin
            .take_record(alloc, n, time, link, rec, &mut self.lines)
        {
            Ok(()) => self.write_lines(alloc, out),
            Err(OutOfMemory) => Err(Stop::Memory),
        }
    }

    /// Gives the items that are left and then the end, and writes the last lines.
    pub fn finish<O: Sink>(
        &mut self,
        alloc: Global,
        items: &[Item],
        out: &mut O,
    ) -> Result<(), Stop>
        requires items { AreItems (time_of self.old.bin) items.now }
        requires ready { IsReady self.old }
        requires out { O.faults out.old < 2 ^ 64 - 1 }
        ensures plays { PlaysLast result self.old (map OfScript items.now)
            (O.written out.old) (O.written out.new) }
        ensures more { AddsMore [] (O.written out.old) (O.written out.new) }
        ensures cause { HasWriteCause result (O.faults out.old) (O.faults out.new) }
    {
        // A law for the proof; the call does nothing.
        goes_on();
        match self.give_items(alloc, items, out) {
            Ok(()) => {}
            Err(stop) => return Err(stop),
        }
        match self.bin.finish(alloc, &mut self.lines) {
            Ok(()) => self.write_lines(alloc, out),
            Err(OutOfMemory) => Err(Stop::Memory),
        }
    }

    // Does what is due up to this time, one thing after the other, and writes the lines of each.
    fn advance<O: Sink>(&mut self, alloc: Global, time: u64, out: &mut O) -> Result<(), Stop>
        requires onward { time_of self.old.bin ≤ time }
        requires small { time < 2 ^ 63 }
        requires ready { IsReady self.old }
        requires out { O.faults out.old < 2 ^ 64 - 1 }
        ensures style { style_of self.new.rendering ≡ style_of self.old.rendering }
        ensures records { records_of self.new.bin ≡ records_of self.old.bin }
        ensures running { is_finished self.new.bin ≡ false }
        ensures time { OnOk result (time_of self.new.bin ≡ time) }
        ensures none { OnOk result (self.new.lines ≡ []) }
        ensures plays { PlaysUpTo result time self.old self.new
            (O.written out.old) (O.written out.new) }
        ensures more { AddsMore [] (O.written out.old) (O.written out.new) }
        ensures cause { HasWriteCause result (O.faults out.old) (O.faults out.new) }
    {
        // A law for the proof; the call does nothing.
        goes_on();
        'due: loop {
            let more = match self.bin.advance(alloc, time, &mut self.lines) {
                Ok(more) => more,
                Err(OutOfMemory) => return Err(Stop::Memory),
            };
            match self.write_lines(alloc, out) {
                Ok(()) => {}
                Err(stop) => return Err(stop),
            }
            if !more {
                return Ok(());
            }
        }
    }

    // Writes the lines that were told, which are none then.
    fn write_lines<O: Sink>(&mut self, alloc: Global, out: &mut O) -> Result<(), Stop>
        requires { O.faults out.old < 2 ^ 64 - 1 }
        ensures bin { self.new.bin ≡ self.old.bin }
        ensures style { style_of self.new.rendering ≡ style_of self.old.rendering }
        ensures none { OnOk result (self.new.lines ≡ []) }
        ensures renders { Renders result self.old.rendering self.new.rendering self.old.lines
            (O.written out.old) (O.written out.new) }
        ensures more { AddsMore [] (O.written out.old) (O.written out.new) }
        ensures cause { HasWriteCause result (O.faults out.old) (O.faults out.new) }
    {
        match tell(alloc, &self.lines, &mut self.rendering, out) {
            Ok(()) => {
                self.lines.clear();
                Ok(())
            }
            Err(stop) => Err(stop),
        }
    }
}

// Writes what goes out for these lines.
fn tell<O: Sink>(
    alloc: Global,
    lines: &Lines,
    rendering: &mut Rendering,
    out: &mut O,
) -> Result<(), Stop>
    requires { O.faults out.old < 2 ^ 64 - 1 }
    ensures style { style_of rendering.new ≡ style_of rendering.old }
    ensures renders { Renders result rendering.old rendering.new lines.now
        (O.written out.old) (O.written out.new) }
    ensures more { AddsMore [] (O.written out.old) (O.written out.new) }
    ensures cause { HasWriteCause result (O.faults out.old) (O.faults out.new) }
{
    for line in lines.lines() {
        match rendering.write(alloc, line, out) {
            Ok(()) => {}
            Err(stop) => return Err(stop),
        }
    }
    Ok(())
}
