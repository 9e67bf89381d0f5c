//! Dumping a capture: a line for each record.
ghost use Rattle.std.specs.Prelude.{◌≡◌, ◌<◌, ◌-◌, ◌^◌, length, IsTrue};
ghost use Rattle.rtp_io.specs.Outside.{SameDisk};
ghost use Rattle.log_text.specs.Dumped.{dump_text};
ghost use Rattle.command_core.specs.Steps.{Covers, HasStopCause, Prints};
ghost use Rattle.dump_command.specs.Dump.{dump_output};

use crate::line::line_of;
use command_core::{Command, Stop, print_piece, run_command};
use log_text::LineText;
use pcap_file::PcapRecord;
use rtp_io::{Files, Sink};
use rtp_units::OutOfMemory;
use std::alloc::Global;
use timeline::DumpLine;

/// Dumps the capture in the open file. Each line is one piece.
pub fn dump_open<F: Files, O: Sink>(alloc: Global, files: &mut F, out: &mut O) -> Result<(), Stop>
    requires files { F.faults files.old < 2 ^ 64 - 1 }
    requires out { O.faults out.old < 2 ^ 64 - 1 }
    ensures same { SameDisk (F.disk files.old) (F.disk files.new) }
    ensures opened { IsTrue (F.disk files.old).told
        → (F.disk files.new).opened ≡ (F.disk files.old).opened }
    ensures covers { Covers dump_output result (F.disk files.old) (F.disk files.new)
        (O.written out.old) (O.written out.new) }
    ensures cause { HasStopCause result (F.faults files.old) (F.faults files.new)
        (O.faults out.old) (O.faults out.new) }
{
    let mut command = DumpCommand {
        records: 0,
        time: 0,
        text: LineText::new(alloc),
    };
    run_command(alloc, files, &mut command, out)
}

// How many records were dumped, the time of the last one in nanoseconds, and the memory in which
// lines become text.
#[derive(Drop)]
struct DumpCommand {
    records: u64,
    time: u64,
    text: LineText,
}

impl Command for DumpCommand {
    ghost output = { λ _. dump_output };

    ghost count = { λ command. command.records };

    ghost reached = { λ command. command.time };

    ghost ready = { λ _. Unit {0} };

    ghost stands = { λ command seen. command.records ≡ length seen };

    fn take<O: Sink>(
        &mut self,
        alloc: Global,
        time: u64,
        link: u16,
        rec: &PcapRecord,
        out: &mut O,
    ) -> Result<(), Stop> {
        self.records += 1;
        self.time = time;
        let line = match line_of(alloc, self.records, time, link, rec) {
            Ok(line) => line,
            Err(OutOfMemory) => return Err(Stop::Memory),
        };
        print(&mut self.text, &line, out)
    }

    fn finish<O: Sink>(&mut self, _alloc: Global, out: &mut O) -> Result<(), Stop> {
        let last = DumpLine::Done {
            records: self.records,
        };
        print(&mut self.text, &last, out)
    }
}

fn print<O: Sink>(text: &mut LineText, line: &DumpLine, out: &mut O) -> Result<(), Stop>
    requires { O.faults out.old < 2 ^ 64 - 1 }
    ensures { Prints (dump_text line.now) result
        (O.written out.old) (O.written out.new) (O.faults out.old) (O.faults out.new) }
{
    match text.set_dump_line(line) {
        Ok(()) => print_piece(out, text.bytes()),
        Err(OutOfMemory) => Err(Stop::Memory),
    }
}
