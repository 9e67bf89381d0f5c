//! The top call.
ghost use Rattle.std.specs.Prelude.{◌≡◌, ◌≢◌, ◌⊎◌, ◌<◌, ◌-◌, ◌^◌, None, IsTrue};
ghost use Rattle.rtp_io.specs.Outside.{SameDisk};
ghost use Rattle.command_core.specs.Steps.{HasStopCause};
ghost use Rattle.rtpscan_cli.specs.Words.{form_of, texts};
ghost use Rattle.rtpscan_cli.specs.Outcome.{HasErr, HasOut, HasSomeErr, HasStatusCause};
ghost use Rattle.rtpscan_cli.specs.Outcome.{IsAnswer, IsUsageOr, Knows, MayOpen};
ghost use Rattle.rtpscan_cli.specs.Outcome.{status_of, stop_of, wanted};
ghost use Rattle.rtpscan_cli.specs.Steps.{IsUsage, ReportsStop, Runs};

use crate::command::scan_open;
use crate::words::asked_by;
use command_core::{Status, Stop, report, tell};
use rtp_io::{Failed, Files, Sink};
use std::alloc::Global;

const USAGE: &[u8] = b"rtpscan: usage: [-s] CAPTURE\n";

/// Does what the words ask for, and answers how it ended: tells the streams of a capture and a
/// script for them. The text of a status other than `Done` and `Write` goes to `err`.
pub fn run_scan<F: Files, O: Sink, E: Sink>(
    alloc: Global,
    words: &[String],
    files: &mut F,
    out: &mut O,
    err: &mut E,
) -> Status
    requires may_open { MayOpen (form_of (texts words.now)) (F.disk files.old) }
    requires files { F.faults files.old < 2 ^ 64 - 1 }
    requires out { O.faults out.old < 2 ^ 64 - 1 }
    requires err { E.faults err.old < 2 ^ 64 - 1 }

    // The contents by name, what is told of them and which names may be opened stay.
    ensures same { SameDisk (F.disk files.old) (F.disk files.new) }

    // A read failed exactly at Read, a write exactly at Write; both yield to Memory.
    ensures cause { HasStatusCause result (F.faults files.old) (F.faults files.new)
        (O.faults out.old) (O.faults out.new) (E.faults err.old) (E.faults err.new) }

    // Where the status is another than Write, the output took all that it was given.
    ensures taken { result ≢ Status.Write → O.faults out.new ≡ O.faults out.old }

    // The statuses that speak of the input are those that it calls for.
    ensures answer { Knows (form_of (texts words.now)) (F.disk files.old)
        → IsAnswer result (wanted (F.disk files.old).contents (form_of (texts words.now))) }

    // What was added to the output: all that goes out for the capture, nothing, or a front.
    ensures out { Knows (form_of (texts words.now)) (F.disk files.old)
        → HasOut result (wanted (F.disk files.old).contents (form_of (texts words.now)))
        (O.written out.old) (O.written out.new) }

    // What was added to the errors.
    ensures err { Knows (form_of (texts words.now)) (F.disk files.old)
        → HasErr result (wanted (F.disk files.old).contents (form_of (texts words.now)))
        (F.faults files.old) (F.faults files.new) (O.faults out.old) (O.faults out.new)
        (E.written err.old) (E.written err.new) }

    // Of files that tell nothing too: words of no form, exactly, unless memory or the error text
    // fails.
    ensures usage { result ≡ Status.Usage → form_of (texts words.now) ≡ None }
    ensures no_form { form_of (texts words.now) ≡ None → IsUsageOr result }

    // Of such files too: the text of the status, or a front of the one that was being written.
    ensures text { HasSomeErr result (form_of (texts words.now))
        (F.faults files.old) (F.faults files.new) (O.faults out.old) (O.faults out.new)
        (E.written err.old) (E.written err.new) }

    // Where nothing failed, the answer is the one that the input calls for, unless memory runs out.
    ensures complete { Knows (form_of (texts words.now)) (F.disk files.old)
        → F.faults files.new ≡ F.faults files.old → O.faults out.new ≡ O.faults out.old
        → E.faults err.new ≡ E.faults err.old
        → (result ≡ status_of (stop_of
        (wanted (F.disk files.old).contents (form_of (texts words.now)))))
        ⊎ (result ≡ Status.Memory) }
{
    match run(alloc, words, files, out) {
        Ok(()) => Status::Done,
        Err(stop) => report_stop(alloc, stop, err),
    }
}

// Writes the text of a stop, and answers the status.
fn report_stop<E: Sink>(alloc: Global, stop: Stop, err: &mut E) -> Status
    requires { E.faults err.old < 2 ^ 64 - 1 }
    ensures { ReportsStop result stop (E.written err.old) (E.written err.new)
        (E.faults err.old) (E.faults err.new) }
{
    match stop {
        Stop::Usage => tell(Status::Usage, USAGE, err),
        stop => report(alloc, stop.status(), &stop, err),
    }
}

// What the words ask for, up to the text of the end.
fn run<F: Files, O: Sink>(
    alloc: Global,
    words: &[String],
    files: &mut F,
    out: &mut O,
) -> Result<(), Stop>
    requires may_open { MayOpen (form_of (texts words.now)) (F.disk files.old) }
    requires files { F.faults files.old < 2 ^ 64 - 1 }
    requires out { O.faults out.old < 2 ^ 64 - 1 }
    ensures same { SameDisk (F.disk files.old) (F.disk files.new) }
    ensures runs { Knows (form_of (texts words.now)) (F.disk files.old)
        → Runs result (wanted (F.disk files.old).contents (form_of (texts words.now)))
        (O.written out.old) (O.written out.new) }
    ensures usage { IsUsage result (form_of (texts words.now)) }
    ensures cause { HasStopCause result (F.faults files.old) (F.faults files.new)
        (O.faults out.old) (O.faults out.new) }
{
    match asked_by(words) {
        Some(asked) => match files.open_file(asked.capture) {
            Ok(()) => scan_open(alloc, asked.script_only, files, out),
            Err(Failed) => Err(Stop::Read),
        },
        None => Err(Stop::Usage),
    }
}
