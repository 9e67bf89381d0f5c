//! The lines of replies.
ghost use Rattle.std.specs.Prelude.{◌≡◌, ◌++◌, ◌∷◌, [], OnOk, false};
ghost use Rattle.jitter_model.specs.Turns.{is_quiet};
ghost use Rattle.timeline.specs.declared.line.BinLine.TheVariants.{Refuse};
ghost use Rattle.replay_model.specs.Lines.{turn_lines, dropped_lines, verdict_lines};
ghost use Rattle.replay_model.specs.Turning.{asked_by};

use jitter_core::{Origin, Turn, Verdict};
use rtp_units::OutOfMemory;
use timeline::{BinLine, Lines, Word};

/// Adds the line of packets that a push dropped, if it dropped any.
pub fn tell_dropped(lane: u8, time: u64, count: u8, lines: &mut Lines) -> Result<(), OutOfMemory>
    ensures { OnOk result (lines.new ≡ lines.old ++ dropped_lines time lane count) }
{
    if count == 0 {
        return Ok(());
    }
    lines.push(BinLine::Unaside {
        time,
        lane,
        count: u32::from(count),
    })
}

/// Adds the line of a verdict, unless the packet was simply accepted.
pub fn tell_verdict(
    lane: u8,
    time: u64,
    seq: u16,
    kind: Origin,
    verdict: Verdict,
    lines: &mut Lines,
) -> Result<(), OutOfMemory>
    ensures { OnOk result (lines.new ≡ lines.old ++ verdict_lines time lane seq kind verdict) }
{
    match verdict {
        Verdict::Accepted => Ok(()),
        Verdict::Aside => lines.push(BinLine::Aside { time, lane, seq }),
        Verdict::Restart(discarded) => lines.push(BinLine::Restart {
            time,
            lane,
            seq,
            discarded,
        }),
        Verdict::Late => lines.push(refuse_line(lane, time, seq, kind, Word::Late)),
        Verdict::Duplicate => lines.push(refuse_line(lane, time, seq, kind, Word::Duplicate)),
        Verdict::Full => lines.push(refuse_line(lane, time, seq, kind, Word::Full)),
        Verdict::Stray => lines.push(refuse_line(lane, time, seq, kind, Word::Stray)),
        Verdict::Flushing => lines.push(refuse_line(lane, time, seq, kind, Word::Flushing)),
        Verdict::Ended => lines.push(refuse_line(lane, time, seq, kind, Word::Ended)),
    }
}

fn refuse_line(lane: u8, time: u64, seq: u16, kind: Origin, word: Word) -> BinLine
    ensures { result ≡ Refuse time lane seq kind word }
{
    BinLine::Refuse {
        time,
        lane,
        seq,
        kind,
        word,
    }
}

/// The line of a reply that tells something.
pub fn reply_line(lane: u8, time: u64, turn: Turn) -> BinLine
    requires { is_quiet turn ≡ false }
    ensures { turn_lines time lane turn ≡ result ∷ [] }
{
    match turn {
        Turn::Packet {
            number,
            pts,
            packet,
        } => BinLine::Out {
            time,
            lane,
            number,
            pts,
            pt: packet.pt,
            marker: packet.marker,
            len: packet.payload,
            bytes: packet.bytes,
        },
        Turn::Lost {
            number,
            count,
            pts,
            duration,
        } => BinLine::Lost {
            time,
            lane,
            number,
            count,
            pts,
            duration,
        },
        Turn::Request { number, k } => BinLine::Request {
            time,
            lane,
            number,
            k,
        },
        Turn::End => BinLine::End { time, lane },
        Turn::Idle { .. } | Turn::Flushing => unreachable!(),
    }
}

/// Notes the 16 bits of a number that is asked for.
pub fn note_request(turn: &Turn, numbers: &mut Vec<u16>) -> Result<(), OutOfMemory>
    ensures { OnOk result (numbers.new.items ≡ numbers.old.items ++ asked_by turn.now) }
{
    match turn {
        Turn::Request { number, .. } => match numbers.push((*number % 65536) as u16) {
            Ok(()) => Ok(()),
            Err(_) => Err(OutOfMemory),
        },
        Turn::Packet { .. } | Turn::Lost { .. } | Turn::End | Turn::Idle { .. } | Turn::Flushing =>
            Ok(()),
    }
}
