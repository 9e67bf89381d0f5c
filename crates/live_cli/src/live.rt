//! The top call.
ghost use Rattle.std.specs.Prelude.{◌≡◌, ◌≢◌, ◌⊎◌, ◌<◌, ◌-◌, ◌^◌, None, Ok, IsTrue};
ghost use Rattle.rtp_io.specs.Outside.{SameDisk};
ghost use Rattle.capture_file.specs.Capture.{capture_of};
ghost use Rattle.live_command.specs.Stops.{HasLiveCause};
ghost use Rattle.live_cli.specs.Words.{form_of, form_view, texts};
ghost use Rattle.live_cli.specs.Outcome.{HasErr, HasOut, HasSomeErr, HasStatusCause, IsAnswer};
ghost use Rattle.live_cli.specs.Outcome.{IsSilent, IsUsageOr, Knows, MayOpen};
ghost use Rattle.live_cli.specs.Outcome.{status_of, stop_of, wanted, wanted_of, want_by};
ghost use Rattle.live_cli.specs.Steps.{IsOfForm, IsUsage, Reports, Runs, RunsSilently, Told};

use crate::words::{Asked, asked_by};
use command_core::{Status, Stop, read_script};
use live_command::{LiveStop, read_plan};
use live_output::print_live;
use live_run::{Gate, run_lanes};
use rtp_io::{Failed, Files, Sink, write_piece};
use rtp_units::OutOfMemory;
use script_lang::Script;
use std::alloc::{AllocError, Global};
use std::sync::Wait;
use std::thread::Threads;

/// Runs the lanes of a capture by a script with workers beside each other, writes their histories,
/// and answers how it ended. The text of a status other than `Done` and `Write` goes to `err`.
///
/// The whole capture is read first, and the output is written after all workers ended. It may wait
/// for ever where `gate` does.
pub fn run_live<F: Files, O: Sink, E: Sink, R: Threads + Wait + Sync, G: Gate + Sync>(
    rt: &R,
    alloc: Global,
    words: &[String],
    files: &mut F,
    out: &mut O,
    err: &mut E,
    gate: &G,
) -> Status
    requires may_open { MayOpen (form_of (texts words.now)) (F.disk files.old) }
    requires files { F.faults files.old < 2 ^ 64 - 1 }
    requires out { O.faults out.old < 2 ^ 64 - 1 }
    requires err { E.faults err.old < 2 ^ 64 - 1 }

    // The contents by name, what is told of them and which names may be opened stay.
    ensures same { SameDisk (F.disk files.old) (F.disk files.new) }

    // A read failed exactly at Read, a write exactly at Write; both yield to Memory.
    ensures cause { HasStatusCause result (F.faults files.old) (F.faults files.new)
        (O.faults out.old) (O.faults out.new) (E.faults err.old) (E.faults err.new) }

    // Where the status is another than Write, the output took all that it was given.
    ensures taken { result ≢ Status.Write → O.faults out.new ≡ O.faults out.old }

    // The statuses that speak of the input are those that it calls for.
    ensures answer { Knows (form_of (texts words.now)) (F.disk files.old)
        → IsAnswer result (wanted (F.disk files.old).contents (form_of (texts words.now))) }

    // What was added to the output. At Done it is the text of complete journals that fit the plan
    // of the script and of all records, one for each lane, whatever the order was in which the
    // workers came. At Write and Memory it is nothing or a front of such a text, else nothing.
    ensures out { Knows (form_of (texts words.now)) (F.disk files.old)
        → HasOut result (wanted (F.disk files.old).contents (form_of (texts words.now)))
        (O.written out.old) (O.written out.new) }

    // Of files that tell nothing too: nothing, where the input stopped the run.
    ensures silent { IsSilent result (O.written out.old) (O.written out.new) }

    // What was added to the errors.
    ensures err { Knows (form_of (texts words.now)) (F.disk files.old)
        → HasErr result (wanted (F.disk files.old).contents (form_of (texts words.now)))
        (F.faults files.old) (F.faults files.new) (O.faults out.old) (O.faults out.new)
        (E.written err.old) (E.written err.new) }

    // Of such files too: words of no form, exactly, unless memory or the error text fails.
    ensures usage { result ≡ Status.Usage → form_of (texts words.now) ≡ None }
    ensures no_form { form_of (texts words.now) ≡ None → IsUsageOr result }

    // And the text of the status, or a front of the one that was being written.
    ensures text { HasSomeErr result (form_of (texts words.now))
        (F.faults files.old) (F.faults files.new) (O.faults out.old) (O.faults out.new)
        (E.written err.old) (E.written err.new) }

    // Where nothing failed, the answer is the one that the input calls for, unless memory runs out.
    ensures complete { Knows (form_of (texts words.now)) (F.disk files.old)
        → F.faults files.new ≡ F.faults files.old → O.faults out.new ≡ O.faults out.old
        → E.faults err.new ≡ E.faults err.old
        → (result ≡ status_of (stop_of
        (wanted (F.disk files.old).contents (form_of (texts words.now)))))
        ⊎ (result ≡ Status.Memory) }
{
    match run(rt, alloc, words, files, out, gate) {
        Ok(()) => Status::Done,
        Err(stop) => report(alloc, stop, err),
    }
}

// Writes the text of a stop, and answers the status.
fn report<E: Sink>(alloc: Global, stop: LiveStop, err: &mut E) -> Status
    requires { E.faults err.old < 2 ^ 64 - 1 }
    ensures { Reports result stop (E.written err.old) (E.written err.new)
        (E.faults err.old) (E.faults err.new) }
{
    match stop {
        LiveStop::Common(Stop::Write) => Status::Write,
        stop => match stop.to_string(alloc) {
            Ok(text) => tell(stop.status(), text.as_bytes(), err),
            Err(AllocError) => tell(Status::Memory, b"rtpbin: out of memory\n", err),
        },
    }
}

fn tell<E: Sink>(status: Status, text: &[u8], err: &mut E) -> Status
    requires { E.faults err.old < 2 ^ 64 - 1 }
    ensures { Told result status text.now (E.written err.old) (E.written err.new)
        (E.faults err.old) (E.faults err.new) }
{
    match write_piece(err, text) {
        Ok(()) => status,
        Err(Failed) => Status::Write,
    }
}

// What the words ask for, up to the text of the end.
fn run<F: Files, O: Sink, R: Threads + Wait + Sync, G: Gate + Sync>(
    rt: &R,
    alloc: Global,
    words: &[String],
    files: &mut F,
    out: &mut O,
    gate: &G,
) -> Result<(), LiveStop>
    requires may_open { MayOpen (form_of (texts words.now)) (F.disk files.old) }
    requires files { F.faults files.old < 2 ^ 64 - 1 }
    requires out { O.faults out.old < 2 ^ 64 - 1 }
    ensures same { SameDisk (F.disk files.old) (F.disk files.new) }
    ensures runs { Knows (form_of (texts words.now)) (F.disk files.old)
        → Runs result (wanted (F.disk files.old).contents (form_of (texts words.now)))
        (O.written out.old) (O.written out.new) }
    ensures silent { RunsSilently result (O.written out.old) (O.written out.new) }
    ensures usage { IsUsage result (form_of (texts words.now)) }
    ensures cause { HasLiveCause result (F.faults files.old) (F.faults files.new)
        (O.faults out.old) (O.faults out.new) }
{
    match asked_by(words) {
        Some(asked) => follow(rt, alloc, asked, files, out, gate),
        None => Err(LiveStop::Common(Stop::Usage)),
    }
}

// Reads the script, and then runs the lanes of the capture.
fn follow<F: Files, O: Sink, R: Threads + Wait + Sync, G: Gate + Sync>(
    rt: &R,
    alloc: Global,
    asked: Asked<'_>,
    files: &mut F,
    out: &mut O,
    gate: &G,
) -> Result<(), LiveStop>
    requires script { IsTrue ((F.disk files.old).may_open asked.script.now) }
    requires capture { IsTrue ((F.disk files.old).may_open asked.capture.now) }
    requires files { F.faults files.old < 2 ^ 64 - 1 }
    requires out { O.faults out.old < 2 ^ 64 - 1 }
    ensures same { SameDisk (F.disk files.old) (F.disk files.new) }
    ensures runs { IsTrue (F.disk files.old).told
        → Runs result (wanted_of (F.disk files.old).contents (form_view asked.entry))
        (O.written out.old) (O.written out.new) }
    ensures silent { RunsSilently result (O.written out.old) (O.written out.new) }
    ensures of_form { IsOfForm result }
    ensures cause { HasLiveCause result (F.faults files.old) (F.faults files.new)
        (O.faults out.old) (O.faults out.new) }
{
    let script = match read_script(alloc, files, asked.script) {
        Ok(script) => script,
        Err(stop) => return Err(LiveStop::Common(stop)),
    };
    match files.open_file(asked.capture) {
        Ok(()) => run_open(rt, alloc, asked.hex, &script, files, out, gate),
        Err(Failed) => Err(LiveStop::Common(Stop::Read)),
    }
}

// Runs the lanes of the capture in the open file.
fn run_open<F: Files, O: Sink, R: Threads + Wait + Sync, G: Gate + Sync>(
    rt: &R,
    alloc: Global,
    hex: bool,
    script: &Script,
    files: &mut F,
    out: &mut O,
    gate: &G,
) -> Result<(), LiveStop>
    requires files { F.faults files.old < 2 ^ 64 - 1 }
    requires out { O.faults out.old < 2 ^ 64 - 1 }
    ensures same { SameDisk (F.disk files.old) (F.disk files.new) }
    ensures runs { IsTrue (F.disk files.old).told
        → Runs result (want_by hex (Ok script.now) (capture_of (F.disk files.old).left))
        (O.written out.old) (O.written out.new) }
    ensures silent { RunsSilently result (O.written out.old) (O.written out.new) }
    ensures of_form { IsOfForm result }
    ensures cause { HasLiveCause result (F.faults files.old) (F.faults files.new)
        (O.faults out.old) (O.faults out.new) }
{
    let (plan, course) = match read_plan(alloc, script, files) {
        Ok(made) => made,
        Err(stop) => return Err(stop),
    };
    let histories = match run_lanes(rt, alloc, &plan, &course, gate) {
        Ok(histories) => histories,
        Err(OutOfMemory) => return Err(LiveStop::Common(Stop::Memory)),
    };
    match print_live(alloc, hex, &plan, histories.as_slice(), out) {
        Ok(()) => Ok(()),
        Err(stop) => Err(LiveStop::Common(stop)),
    }
}
