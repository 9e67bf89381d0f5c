//! Replaying the capture that is made.
ghost use Rattle.std.specs.Prelude.{◌≡◌, ◌<◌, ◌≤◌, ◌-◌, ◌^◌, [], length, IfOk, OnOk, false, List};
ghost use Rattle.log_text.specs.Text.{line_text as text_of};
ghost use Rattle.timeline.specs.declared.line.BinLine.{BinLine};
ghost use Rattle.bin_core.specs.Words.{records_of, time_of, ahead_of, is_finished};
ghost use Rattle.bin_core.specs.Bins.{BinStands};
ghost use Rattle.generated_capture.specs.Generated.{generator_script};
ghost use Rattle.command_core.specs.Steps.{Prints};
ghost use Rattle.gen_command.specs.Generated.{EndsWith, generated_done, done_line};

use bin_core::{Bin, Lines};
use command_core::{RecordClock, START, Stop, pass, print_piece};
use generated_capture::{Capture, replay_script};
use log_text::line as line_text;
use replay_model::laws::the_end_goes_on;
use rtp_io::Sink;
use rtp_units::{Blob, OutOfMemory};
use std::alloc::Global;

/// Raw IP packets, as pcap numbers link types.
const RAW_IP: u16 = 101;

/// Replays a series of `count` packets, at most 1,000,000, that begins with number `first`, and
/// writes the last line of the log as one piece. The records are made on the way, and no other line
/// is kept.
pub fn print_generated<O: Sink>(
    alloc: Global,
    first: u16,
    count: u32,
    out: &mut O,
) -> Result<(), Stop>
    requires few { count ≤ 1000000 }
    requires out { O.faults out.old < 2 ^ 64 - 1 }
    ensures { Prints (text_of false (generated_done first count)) result
        (O.written out.old) (O.written out.new) (O.faults out.old) (O.faults out.new) }
{
    let text = replay_generated(alloc, first, count)?;
    print_piece(out, text.bytes())
}

fn replay_generated(alloc: Global, first: u16, count: u32) -> Result<Blob, OutOfMemory>
    requires { count ≤ 1000000 }
    ensures { IfOk result (λ text. text ≡ text_of false (generated_done first count)) }
{
    let script = replay_script(alloc)?;
    let mut bin = Bin::new(alloc, &script)?;
    replay_with(alloc, first, count, &mut bin)
}

/// The last line, of a bin to which nothing came.
fn replay_with(alloc: Global, first: u16, count: u32, bin: &mut Bin) -> Result<Blob, OutOfMemory>
    requires few { count ≤ 1000000 }
    requires stands { BinStands generator_script bin.old [] [] }
    requires records { records_of bin.old ≡ 0 }
    requires time { time_of bin.old ≡ 0 }
    requires level { ahead_of bin.old ≡ false }
    requires open { is_finished bin.old ≡ false }
    ensures { IfOk result (λ text. text ≡ text_of false (generated_done first count)) }
{
    let mut lines = Lines::new(alloc);
    let mut capture = Capture::new(first, count);
    replay(alloc, &mut capture, bin, &mut lines)?;
    last_text(alloc, &lines)
}

/// Gives a bin to which nothing came the records that are left, and the end.
fn replay(
    alloc: Global,
    capture: &mut Capture,
    bin: &mut Bin,
    lines: &mut Lines,
) -> Result<(), OutOfMemory>
    requires few { length capture.old ≤ 100000000 }
    requires stands { BinStands generator_script bin.old [] [] }
    requires records { records_of bin.old ≡ 0 }
    requires time { time_of bin.old ≡ 0 }
    requires level { ahead_of bin.old ≡ false }
    requires open { is_finished bin.old ≡ false }
    ensures { OnOk result (EndsWith lines.new (done_line capture.old)) }
{
    // Laws for the proof; the calls do nothing.
    the_end_goes_on();
    let mut clock = START;
    'records: loop {
        lines.clear();
        match capture.next(alloc)? {
            Some(rec) => {
                clock = pass(clock, rec.stamp);
                let number = bin.records() + 1;
                bin.take_record(alloc, number, clock.time, RAW_IP, &rec, lines)?;
            }
            None => return bin.finish(alloc, lines),
        }
    }
}

/// The text of the last line.
fn last_text(alloc: Global, lines: &Lines) -> Result<Blob, OutOfMemory>
    requires { 0 < length lines.now }
    ensures { (last : BinLine) → EndsWith lines.now last
        → IfOk result (λ text. text ≡ text_of false last) }
{
    match lines.lines() {
        [.., last] => line_text(alloc, last, false),
        [] => unreachable!(),
    }
}
