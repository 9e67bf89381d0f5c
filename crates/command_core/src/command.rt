//! What a command makes of a capture's records.
ghost use Rattle.std.specs.Prelude.{◌≡◌, ◌<◌, ◌≤◌, ◌+◌, ◌-◌, ◌*◌, ◌^◌, ℕ, List, [], OnOk};
ghost use Rattle.pcap_file.specs.Capture.{Record};
ghost use Rattle.pcap_file.specs.Reading.{record_view};
ghost use Rattle.command_core.specs.Output.{Output};
ghost use Rattle.command_core.specs.Steps.{HasWriteCause};
ghost use Rattle.command_core.specs.Taken.{AddsMore};
ghost use Rattle.command_core.specs.Takes.{Finishes, Takes};

use crate::stop::Stop;
use pcap_file::PcapRecord;
use rtp_io::Sink;
use std::alloc::Global;

/// Writes what goes out for a capture's records, which it is given one after the other.
pub trait Command {
    // What goes out for the records of a capture. It stays.
    ghost output: { Self → Output };

    // How many records it took.
    ghost count: { Self → ℕ };

    // The time that the last of them came at, and 0 before any.
    ghost reached: { Self → ℕ };

    // It can take a record or the end.
    ghost ready: { Self → Type 0 };

    // It took these records.
    ghost stands: { Self → List Record → Type 0 };

    /// Takes the next record, whose frame has this link type, and writes all that goes out up to
    /// it. It comes at `time`, in nanoseconds: the greatest stamp so far, less the first one.
    ///
    /// The error is `Write` or `Memory`, and a front of what goes out was written then.
    fn take<O: Sink>(
        &mut self,
        alloc: Global,
        time: u64,
        link: u16,
        rec: &PcapRecord,
        out: &mut O,
    ) -> Result<(), Stop>
        requires ready { ready self.old }
        requires few { count self.old < 100000000 }
        requires onward { reached self.old ≤ time }
        requires small { time < 2 ^ 32 * 1000000000 }
        requires out { O.faults out.old < 2 ^ 64 - 1 }
        ensures output { output self.new ≡ output self.old }
        ensures count { OnOk result (count self.new ≡ count self.old + 1) }
        ensures reached { OnOk result (reached self.new ≡ time) }
        ensures ready { OnOk result (ready self.new) }
        ensures takes { Takes result (output self.old).part time (record_view link rec.now)
            (stands self.old) (stands self.new) (O.written out.old) (O.written out.new) }
        ensures more { AddsMore [] (O.written out.old) (O.written out.new) }
        ensures cause { HasWriteCause result (O.faults out.old) (O.faults out.new) };

    /// Takes the end, and writes the rest of what goes out.
    ///
    /// The error is `Write` or `Memory`, and a front of what goes out was written then.
    fn finish<O: Sink>(&mut self, alloc: Global, out: &mut O) -> Result<(), Stop>
        requires ready { ready self.old }
        requires out { O.faults out.old < 2 ^ 64 - 1 }
        ensures finishes { Finishes result (output self.old) (stands self.old)
            (O.written out.old) (O.written out.new) }
        ensures more { AddsMore [] (O.written out.old) (O.written out.new) }
        ensures cause { HasWriteCause result (O.faults out.old) (O.faults out.new) };
}
