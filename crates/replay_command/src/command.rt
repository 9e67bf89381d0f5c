//! Replaying a capture, record by record, with a script's items between the records.
ghost use Rattle.std.specs.Prelude.{◌≡◌, ◌<◌, ◌≤◌, ◌-◌, ◌^◌, length, IsTrue};
ghost use Rattle.rtp_io.specs.Outside.{SameDisk};
ghost use Rattle.replay_model.specs.Inputs.{items_to};
ghost use Rattle.bin_core.specs.Words.{records_of, time_of};
ghost use Rattle.command_core.specs.Steps.{Covers, HasStopCause};
ghost use Rattle.replay_command.specs.Plays.{AreItems, CanReplay, Replayed};
ghost use Rattle.replay_command.specs.Rendered.{style_of};
ghost use Rattle.replay_command.specs.Replay.{played_output, replay_output};

use crate::player::Player;
use crate::rendering::{Rendering, Style};
use command_core::{Command, Stop, run_command};
use pcap_file::PcapRecord;
use replay_model::laws::{goes_on, inputs_go_on};
use rtp_io::{Files, Sink};
use rtp_units::OutOfMemory;
use script_lang::{Item, Script};
use std::alloc::Global;

/// Replays the capture in the open file. Each record comes behind the items up to its time. Each
/// line is one piece.
pub fn replay_open<F: Files, O: Sink>(
    alloc: Global,
    script: &Script,
    hex: bool,
    files: &mut F,
    out: &mut O,
) -> Result<(), Stop>
    requires files { F.faults files.old < 2 ^ 64 - 1 }
    requires out { O.faults out.old < 2 ^ 64 - 1 }
    ensures same { SameDisk (F.disk files.old) (F.disk files.new) }
    ensures opened { IsTrue (F.disk files.old).told
        → (F.disk files.new).opened ≡ (F.disk files.old).opened }
    ensures covers { Covers (replay_output hex script.now) result
        (F.disk files.old) (F.disk files.new) (O.written out.old) (O.written out.new) }
    ensures cause { HasStopCause result (F.faults files.old) (F.faults files.new)
        (O.faults out.old) (O.faults out.new) }
{
    play_open(alloc, script, Style::Log { hex }, files, out)
}

/// Replays the capture in the open file, and writes the log in a style. Each record comes behind
/// the items up to its time.
pub fn play_open<F: Files, O: Sink>(
    alloc: Global,
    script: &Script,
    style: Style,
    files: &mut F,
    out: &mut O,
) -> Result<(), Stop>
    requires files { F.faults files.old < 2 ^ 64 - 1 }
    requires out { O.faults out.old < 2 ^ 64 - 1 }
    ensures same { SameDisk (F.disk files.old) (F.disk files.new) }
    ensures opened { IsTrue (F.disk files.old).told
        → (F.disk files.new).opened ≡ (F.disk files.old).opened }
    ensures covers { Covers (played_output style script.now) result
        (F.disk files.old) (F.disk files.new) (O.written out.old) (O.written out.new) }
    ensures cause { HasStopCause result (F.faults files.old) (F.faults files.new)
        (O.faults out.old) (O.faults out.new) }
{
    // Laws for the proof; the calls do nothing.
    goes_on();
    inputs_go_on();
    items_of(script);
    let player = match Player::new(alloc, script, Rendering::new(alloc, style)) {
        Ok(player) => player,
        Err(OutOfMemory) => return Err(Stop::Memory),
    };
    let mut command = ReplayCommand {
        script,
        player,
        given: 0,
    };
    run_command(alloc, files, &mut command, out)
}

// The player of a script, and how many of the script's items it was given.
#[derive(Drop)]
struct ReplayCommand<'a> {
    script: &'a Script,
    player: Player,
    given: usize,
}

impl Command for ReplayCommand<'_> {
    ghost output = { λ command.
        played_output (style_of command.player.rendering) command.script.now };

    ghost count = { λ command. records_of command.player.bin };

    ghost reached = { λ command. time_of command.player.bin };

    ghost ready = { λ command. CanReplay command.script.now command.player command.given };

    ghost stands = { λ command seen.
        Replayed command.script.now command.player command.given seen };

    fn take<O: Sink>(
        &mut self,
        alloc: Global,
        time: u64,
        link: u16,
        rec: &PcapRecord,
        out: &mut O,
    ) -> Result<(), Stop> {
        // Laws for the proof; the calls do nothing.
        goes_on();
        inputs_go_on();
        let items = items_of(self.script);
        let end = self.given + count_to(&items[self.given..], time);
        match self.player.give_items(alloc, &items[self.given..end], out) {
            Ok(()) => {}
            Err(stop) => return Err(stop),
        }
        self.given = end;
        self.player.give_record(alloc, time, link, rec, out)
    }

    fn finish<O: Sink>(&mut self, alloc: Global, out: &mut O) -> Result<(), Stop> {
        let items = items_of(self.script);
        self.player.finish(alloc, &items[self.given..], out)
    }
}

// The items of a script, which stand in order of time.
fn items_of(script: &Script) -> &[Item]
    ensures value { result.now ≡ script.now.items }
    ensures ordered { AreItems 0 script.now.items }
{
    script.items.as_slice()
}

// How many items, which stand in order of time, come up to this time.
fn count_to(items: &[Item], time: u64) -> usize
    ensures count { result ≡ length (items_to time items.now) }
    ensures bound { result ≤ length items.now }
{
    items
        .iter()
        .position(|item| time < item.time)
        .unwrap_or(items.len())
}
