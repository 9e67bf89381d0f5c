//! The top call.
ghost use Rattle.std.specs.Prelude.{◌≡◌, ◌≢◌, ◌⊎◌, ◌<◌, ◌-◌, ◌^◌, None, Some, IsTrue};
ghost use Rattle.rtp_io.specs.Outside.{SameDisk};
ghost use Rattle.rtpbin_cli.specs.Words.{form_of, texts, Scripted, Described, Dump};
ghost use Rattle.rtpbin_cli.specs.Commands.{scripted_output};
ghost use Rattle.rtpbin_cli.specs.Outcome.{HasErr, HasOut, HasSomeErr, HasTaken, HasStatusCause};
ghost use Rattle.rtpbin_cli.specs.Outcome.{IsAnswer, IsUsageOr, Knows, MayOpen};
ghost use Rattle.rtpbin_cli.specs.Outcome.{status_of, stop_of, wanted, wanted_of};
ghost use Rattle.command_core.specs.Steps.{Covers, HasStopCause};
ghost use Rattle.sdp_command.specs.Failures.{HasFailureCause};
ghost use Rattle.rtpbin_cli.specs.Steps.{IsOfForm, IsUsage, Reports, Runs, RunsAny, Told};

use crate::words::{Asked, Way, asked_by};
use command_core::{Status, Stop, read_script};
use dump_command::dump_open;
use gen_command::print_generated;
use replay_command::{Style, play_open};
use rtp_io::{Failed, Files, Sink, write_piece};
use rtxsend_command::rtxsend_open;
use script_lang::Script;
use script_lang::laws::begins_no_capture;
use sdp_command::{Failure, read_described, stopped};
use sdp_profile::laws::{description_begins_no_capture, times_begin_no_capture};
use std::alloc::{AllocError, Global};

/// Does what the words ask for, and answers how it ended. The text of a status other than `Done`
/// and `Write` goes to `err`.
pub fn run_tool<F: Files, O: Sink, E: Sink>(
    alloc: Global,
    words: &[String],
    files: &mut F,
    out: &mut O,
    err: &mut E,
) -> Status
    requires may_open { MayOpen (form_of (texts words.now)) (F.disk files.old) }
    requires files { F.faults files.old < 2 ^ 64 - 1 }
    requires out { O.faults out.old < 2 ^ 64 - 1 }
    requires err { E.faults err.old < 2 ^ 64 - 1 }

    // The contents by name, what is told of them and which names may be opened stay.
    ensures same { SameDisk (F.disk files.old) (F.disk files.new) }

    // A read failed exactly at Read, a write exactly at Write; both yield to Memory.
    ensures cause { HasStatusCause result (F.faults files.old) (F.faults files.new)
        (O.faults out.old) (O.faults out.new) (E.faults err.old) (E.faults err.new) }

    // Where the status is another than Write, the output took all that it was given.
    ensures taken { result ≢ Status.Write → O.faults out.new ≡ O.faults out.old }

    // The statuses that speak of the input are those that it calls for.
    ensures answer { Knows (form_of (texts words.now)) (F.disk files.old)
        → IsAnswer result (wanted (F.disk files.old).contents (form_of (texts words.now))) }

    // What was added to the output: all that goes out for the capture, the part of it before a
    // fault, or a front.
    ensures out { Knows (form_of (texts words.now)) (F.disk files.old)
        → HasOut result (wanted (F.disk files.old).contents (form_of (texts words.now)))
        (form_of (texts words.now)) (F.disk files.new) (O.written out.old) (O.written out.new) }

    // Where a write of it failed, what was taken from the capture passes the end of the first
    // record whose lines are incomplete by `PULL_BYTES` at most.
    ensures few { Knows (form_of (texts words.now)) (F.disk files.old)
        → O.faults out.old < O.faults out.new
        → HasTaken (wanted (F.disk files.old).contents (form_of (texts words.now)))
        (form_of (texts words.now)) (F.disk files.new) (O.written out.old) (O.written out.new) }

    // What was added to the errors.
    ensures err { Knows (form_of (texts words.now)) (F.disk files.old)
        → HasErr result (wanted (F.disk files.old).contents (form_of (texts words.now)))
        (F.faults files.old) (F.faults files.new) (O.faults out.old) (O.faults out.new)
        (E.written err.old) (E.written err.new) }

    // Of files that tell nothing too: words of no form, exactly, unless memory or the error text
    // fails.
    ensures usage { result ≡ Status.Usage → form_of (texts words.now) ≡ None }
    ensures no_form { form_of (texts words.now) ≡ None → IsUsageOr result }

    // Of such files too: the text of the status, or a front of the one that was being written.
    ensures text { HasSomeErr result (form_of (texts words.now))
        (F.faults files.old) (F.faults files.new) (O.faults out.old) (O.faults out.new)
        (E.written err.old) (E.written err.new) }

    // Where nothing failed, the answer is the one that the input calls for, unless memory runs out.
    ensures complete { Knows (form_of (texts words.now)) (F.disk files.old)
        → F.faults files.new ≡ F.faults files.old → O.faults out.new ≡ O.faults out.old
        → E.faults err.new ≡ E.faults err.old
        → (result ≡ status_of (stop_of
        (wanted (F.disk files.old).contents (form_of (texts words.now)))))
        ⊎ (result ≡ Status.Memory) }
{
    match run(alloc, words, files, out) {
        Ok(()) => Status::Done,
        Err(failure) => report(alloc, failure, err),
    }
}

// Writes the text of a failure, and answers the status.
fn report<E: Sink>(alloc: Global, failure: Failure, err: &mut E) -> Status
    requires { E.faults err.old < 2 ^ 64 - 1 }
    ensures { Reports result failure (E.written err.old) (E.written err.new)
        (E.faults err.old) (E.faults err.new) }
{
    match failure {
        Failure::Stopped(Stop::Write) => Status::Write,
        failure => match failure.to_string(alloc) {
            Ok(text) => tell(failure.status(), text.as_bytes(), err),
            Err(AllocError) => tell(Status::Memory, b"rtpbin: out of memory\n", err),
        },
    }
}

fn tell<E: Sink>(status: Status, text: &[u8], err: &mut E) -> Status
    requires { E.faults err.old < 2 ^ 64 - 1 }
    ensures { Told result status text.now (E.written err.old) (E.written err.new)
        (E.faults err.old) (E.faults err.new) }
{
    match write_piece(err, text) {
        Ok(()) => status,
        Err(Failed) => Status::Write,
    }
}

// What the words ask for, up to the text of the end.
fn run<F: Files, O: Sink>(
    alloc: Global,
    words: &[String],
    files: &mut F,
    out: &mut O,
) -> Result<(), Failure>
    requires may_open { MayOpen (form_of (texts words.now)) (F.disk files.old) }
    requires files { F.faults files.old < 2 ^ 64 - 1 }
    requires out { O.faults out.old < 2 ^ 64 - 1 }
    ensures same { SameDisk (F.disk files.old) (F.disk files.new) }
    ensures runs { Knows (form_of (texts words.now)) (F.disk files.old)
        → RunsAny result (wanted (F.disk files.old).contents (form_of (texts words.now)))
        (form_of (texts words.now)) (F.disk files.new) (O.written out.old) (O.written out.new) }
    ensures usage { IsUsage result (form_of (texts words.now)) }
    ensures cause { HasFailureCause result (F.faults files.old) (F.faults files.new)
        (O.faults out.old) (O.faults out.new) }
{
    match asked_by(words) {
        Some(
            Asked::Scripted {
                way,
                capture,
                script,
            },
        ) => stopped(follow(alloc, way, capture, script, files, out)),
        Some(
            Asked::Described {
                capture,
                sdp,
                times,
            },
        ) => follow_described(alloc, capture, sdp, times, files, out),
        Some(Asked::Dump { capture }) => stopped(dump_capture(alloc, capture, files, out)),
        Some(Asked::Gen { first, count }) => stopped(print_generated(alloc, first, count, out)),
        None => Err(Failure::Stopped(Stop::Usage)),
    }
}

// Opens the capture, and dumps it.
fn dump_capture<F: Files, O: Sink>(
    alloc: Global,
    capture: &str,
    files: &mut F,
    out: &mut O,
) -> Result<(), Stop>
    requires capture { IsTrue ((F.disk files.old).may_open capture.now) }
    requires files { F.faults files.old < 2 ^ 64 - 1 }
    requires out { O.faults out.old < 2 ^ 64 - 1 }
    ensures same { SameDisk (F.disk files.old) (F.disk files.new) }
    ensures runs { IsTrue (F.disk files.old).told
        → Runs result (wanted_of (F.disk files.old).contents (Dump capture.now))
        (Some (Dump capture.now)) (F.disk files.new) (O.written out.old) (O.written out.new) }
    ensures of_form { IsOfForm result }
    ensures cause { HasStopCause result (F.faults files.old) (F.faults files.new)
        (O.faults out.old) (O.faults out.new) }
{
    match files.open_file(capture) {
        Ok(()) => dump_open(alloc, files, out),
        Err(Failed) => Err(Stop::Read),
    }
}

// Reads the description and the settings and timed lines, and then replays the capture.
fn follow_described<F: Files, O: Sink>(
    alloc: Global,
    capture: &str,
    sdp: &str,
    times: &str,
    files: &mut F,
    out: &mut O,
) -> Result<(), Failure>
    requires sdp { IsTrue ((F.disk files.old).may_open sdp.now) }
    requires times { IsTrue ((F.disk files.old).may_open times.now) }
    requires capture { IsTrue ((F.disk files.old).may_open capture.now) }
    requires files { F.faults files.old < 2 ^ 64 - 1 }
    requires out { O.faults out.old < 2 ^ 64 - 1 }
    ensures same { SameDisk (F.disk files.old) (F.disk files.new) }
    ensures runs { IsTrue (F.disk files.old).told → RunsAny result
        (wanted_of (F.disk files.old).contents (Described capture.now sdp.now times.now))
        (Some (Described capture.now sdp.now times.now)) (F.disk files.new)
        (O.written out.old) (O.written out.new) }
    ensures usage { IsUsage result (Some (Described capture.now sdp.now times.now)) }
    ensures cause { HasFailureCause result (F.faults files.old) (F.faults files.new)
        (O.faults out.old) (O.faults out.new) }
{
    // Laws for the proof: neither text begins a capture. The calls do nothing.
    description_begins_no_capture();
    times_begin_no_capture();
    let script = match read_described(alloc, files, sdp, times) {
        Ok(script) => script,
        Err(failure) => return Err(failure),
    };
    match files.open_file(capture) {
        Ok(()) => stopped(play_open(alloc, &script, Style::Log { hex: false }, files, out)),
        Err(Failed) => Err(Failure::Stopped(Stop::Read)),
    }
}

// Reads the script, and then does with the capture what is asked for.
fn follow<F: Files, O: Sink>(
    alloc: Global,
    way: Way,
    capture: &str,
    script: &str,
    files: &mut F,
    out: &mut O,
) -> Result<(), Stop>
    requires script { IsTrue ((F.disk files.old).may_open script.now) }
    requires capture { IsTrue ((F.disk files.old).may_open capture.now) }
    requires files { F.faults files.old < 2 ^ 64 - 1 }
    requires out { O.faults out.old < 2 ^ 64 - 1 }
    ensures same { SameDisk (F.disk files.old) (F.disk files.new) }
    ensures runs { IsTrue (F.disk files.old).told
        → Runs result (wanted_of (F.disk files.old).contents (Scripted way capture.now script.now))
        (Some (Scripted way capture.now script.now)) (F.disk files.new)
        (O.written out.old) (O.written out.new) }
    ensures of_form { IsOfForm result }
    ensures cause { HasStopCause result (F.faults files.old) (F.faults files.new)
        (O.faults out.old) (O.faults out.new) }
{
    // A law for the proof: a script begins no capture. The call does nothing.
    begins_no_capture();
    let script = match read_script(alloc, files, script) {
        Ok(script) => script,
        Err(stop) => return Err(stop),
    };
    match files.open_file(capture) {
        Ok(()) => follow_open(alloc, &script, way, files, out),
        Err(Failed) => Err(Stop::Read),
    }
}

// Does it with the capture in the open file.
fn follow_open<F: Files, O: Sink>(
    alloc: Global,
    script: &Script,
    way: Way,
    files: &mut F,
    out: &mut O,
) -> Result<(), Stop>
    requires files { F.faults files.old < 2 ^ 64 - 1 }
    requires out { O.faults out.old < 2 ^ 64 - 1 }
    ensures same { SameDisk (F.disk files.old) (F.disk files.new) }
    ensures opened { IsTrue (F.disk files.old).told
        → (F.disk files.new).opened ≡ (F.disk files.old).opened }
    ensures covers { Covers (scripted_output way script.now) result
        (F.disk files.old) (F.disk files.new) (O.written out.old) (O.written out.new) }
    ensures cause { HasStopCause result (F.faults files.old) (F.faults files.new)
        (O.faults out.old) (O.faults out.new) }
{
    match way {
        Way::Play(style) => play_open(alloc, script, style, files, out),
        Way::Answer => rtxsend_open(alloc, script, files, out),
    }
}
