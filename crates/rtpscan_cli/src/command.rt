//! Scanning a capture: nothing goes out before its end.
ghost use Rattle.std.specs.Prelude.{◌≡◌, ◌<◌, ◌≤◌, ◌-◌, ◌^◌, IsTrue};
ghost use Rattle.rtp_io.specs.Outside.{SameDisk};
ghost use Rattle.command_core.specs.Steps.{Covers, HasStopCause};
ghost use Rattle.rtp_scan.specs.Sights.{sights_of};
ghost use Rattle.rtp_scan.specs.Streams.{found_in};
ghost use Rattle.rtpscan_cli.specs.Scanned.{scan_output};

use command_core::{Command, Stop, print_piece, run_command};
use pcap_file::PcapRecord;
use rtp_io::{Files, Sink};
use rtp_scan::{Scan, report_of, sight_of};
use std::alloc::Global;

/// Scans the capture in the open file. All that goes out is one piece.
pub fn scan_open<F: Files, O: Sink>(
    alloc: Global,
    script_only: bool,
    files: &mut F,
    out: &mut O,
) -> Result<(), Stop>
    requires files { F.faults files.old < 2 ^ 64 - 1 }
    requires out { O.faults out.old < 2 ^ 64 - 1 }
    ensures same { SameDisk (F.disk files.old) (F.disk files.new) }
    ensures opened { IsTrue (F.disk files.old).told
        → (F.disk files.new).opened ≡ (F.disk files.old).opened }
    ensures covers { Covers (scan_output script_only) result
        (F.disk files.old) (F.disk files.new) (O.written out.old) (O.written out.new) }
    ensures cause { HasStopCause result (F.faults files.old) (F.faults files.new)
        (O.faults out.old) (O.faults out.new) }
{
    let scan = Scan::new(alloc)?;
    let mut command = ScanCommand {
        scan,
        script_only,
        records: 0,
        time: 0,
    };
    run_command(alloc, files, &mut command, out)
}

// What was found, how many records were taken, and the time of the last one in nanoseconds.
#[derive(Drop)]
struct ScanCommand {
    scan: Scan,
    script_only: bool,
    records: u64,
    time: u64,
}

impl Command for ScanCommand {
    ghost output = { λ command. scan_output command.script_only };

    ghost count = { λ command. command.records };

    ghost reached = { λ command. command.time };

    ghost ready = { λ command. command.scan.left_out ≤ command.records };

    ghost stands = { λ command seen. command.scan ≡ found_in (sights_of seen) };

    fn take<O: Sink>(
        &mut self,
        alloc: Global,
        time: u64,
        link: u16,
        rec: &PcapRecord,
        _out: &mut O,
    ) -> Result<(), Stop> {
        let sight = sight_of(alloc, time, link, rec)?;
        self.scan.note(sight)?;
        self.records += 1;
        self.time = time;
        Ok(())
    }

    fn finish<O: Sink>(&mut self, alloc: Global, out: &mut O) -> Result<(), Stop> {
        let text = report_of(alloc, &self.scan, self.script_only)?;
        print_piece(out, text.bytes())
    }
}
