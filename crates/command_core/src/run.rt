//! Giving a command the records of a capture.
ghost use Rattle.std.specs.Prelude.{◌≡◌, ◌<◌, ◌-◌, ◌^◌, [], IsTrue};
ghost use Rattle.rtp_io.specs.Outside.{SameDisk};
ghost use Rattle.command_core.specs.Output.{GoesOn};
ghost use Rattle.command_core.specs.Steps.{Covers, HasStopCause};

use crate::clock::{START, pass};
use crate::command::Command;
use crate::stop::Stop;
use capture_file::CaptureFile;
use rtp_io::{Files, Pull, Sink};
use std::alloc::Global;

/// Gives a command that took no record yet the records of the capture in the open file, and the
/// end. Before a fault, or a read that failed, what goes out for the records before it is written.
pub fn run_command<F: Files, O: Sink, C: Command>(
    alloc: Global,
    files: &mut F,
    command: &mut C,
    out: &mut O,
) -> Result<(), Stop>
    requires ready { C.ready command.old }
    requires count { C.count command.old ≡ 0 }
    requires reached { C.reached command.old ≡ 0 }
    requires stands { C.stands command.old [] }
    requires goes_on { GoesOn (C.output command.old) }
    requires files { F.faults files.old < 2 ^ 64 - 1 }
    requires out { O.faults out.old < 2 ^ 64 - 1 }
    ensures same { SameDisk (F.disk files.old) (F.disk files.new) }
    ensures opened { IsTrue (F.disk files.old).told
        → (F.disk files.new).opened ≡ (F.disk files.old).opened }
    ensures covers { Covers (C.output command.old) result
        (F.disk files.old) (F.disk files.new) (O.written out.old) (O.written out.new) }
    ensures cause { HasStopCause result (F.faults files.old) (F.faults files.new)
        (O.faults out.old) (O.faults out.new) }
{
    let mut pull = Pull::new(alloc)?;
    let mut file = CaptureFile::open(alloc, files, &mut pull)?;
    let mut clock = START;
    'records: while let Some(entry) = file.next(alloc, files, &mut pull)? {
        clock = pass(clock, entry.rec.stamp);
        command.take(alloc, clock.time, entry.link, &entry.rec, out)?;
    }
    command.finish(alloc, out)
}
