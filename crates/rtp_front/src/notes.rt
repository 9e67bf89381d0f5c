//! What the sessions tell, as steps.
ghost use Rattle.std.specs.Prelude.{◌≡◌, ◌<◌, false, List, ◌∷◌, [], ◌++◌, map, OnOk};
ghost use Rattle.script_lang.specs.Contents.{Contents};
ghost use Rattle.timeline.specs.Words.{rtcp_word as word_of};
ghost use Rattle.front_model.specs.Moves.{Move};
ghost use Rattle.front_model.specs.Notes.{Holds, Releases, broken as is_broken};
ghost use Rattle.front_model.specs.Probation.{kept_at};
ghost use Rattle.front_model.specs.Steps.{notes_steps, bad_steps};
ghost use Rattle.rtp_session.specs.Answers.{out_notes, told, cause_word as word_of_cause};
ghost use Rattle.rtp_session.specs.Standing.{is_want_of_memory};
ghost use Rattle.rtp_front.specs.Chosen.{IsReadOf};
ghost use Rattle.rtp_front.specs.Notes.{TakesNotes};
ghost use Rattle.rtp_front.specs.Standing.{IsLeftBy};

use crate::choices::Choices;
use crate::streams::{Streams, tell_drop};
use front_model::Step;
use rtcp_wire::RtcpFault;
use rtp_session::{DropCause, Kept, SessionNote, SessionOut};
use rtp_units::OutOfMemory;
use rtp_wire::RtpView;
use std::alloc::Global;
use timeline::{BinLine, Word, rtcp_word};

/// What a session made of a packet goes on to the lanes, or is told.
pub(crate) fn take_heard(
    alloc: Global,
    choices: &Choices,
    streams: &mut Streams,
    time: u64,
    session: u8,
    view: &RtpView<'_>,
    heard: SessionOut,
    steps: &mut Vec<Step>,
) -> Result<(), OutOfMemory>
    requires { session < 8 }
    ensures { (c : Contents) (older : List Move) → IsReadOf c choices.now
        → IsLeftBy c older streams.old
        → OnOk result (TakesNotes c time session older (out_notes (kept_at time view.now) heard)
        steps.old.items steps.new.items streams.new) }
{
    match heard {
        SessionOut::Held { broken } => tell_held(time, session, view, broken, steps),
        SessionOut::Released { waited, packet } => {
            release_all(alloc, choices, streams, time, session, waited, steps)?;
            streams.release(alloc, choices, time, session, packet, steps)
        }
        SessionOut::Dropped(cause) => tell_drop(time, session, view, cause_word(cause), steps),
    }
}

/// Packets that waited go on, one after the other.
fn release_all(
    alloc: Global,
    choices: &Choices,
    streams: &mut Streams,
    time: u64,
    session: u8,
    waited: Vec<Kept>,
    steps: &mut Vec<Step>,
) -> Result<(), OutOfMemory>
    requires { session < 8 }
    ensures { (c : Contents) (older : List Move) → IsReadOf c choices.now
        → IsLeftBy c older streams.old
        → OnOk result (TakesNotes c time session older (map Releases waited.items)
        steps.old.items steps.new.items streams.new) }
{
    for kept in waited {
        streams.release(alloc, choices, time, session, kept, steps)?;
    }
    Ok(())
}

/// Tells of a packet that waits; those of the run that it broke were dropped.
fn tell_held(
    time: u64,
    session: u8,
    view: &RtpView<'_>,
    broken: Vec<Kept>,
    steps: &mut Vec<Step>,
) -> Result<(), OutOfMemory>
    ensures { (c : Contents) (older : List Move) → OnOk result (steps.new.items ≡ steps.old.items
        ++ notes_steps c time older session
        (map is_broken broken.items ++ Holds (kept_at time view.now) ∷ [])) }
{
    for kept in broken.as_slice() {
        tell_drop(time, session, &kept.packet(), Word::Probation, steps)?;
    }
    steps.push(Step::Tell(BinLine::Hold {
        time,
        session,
        ssrc: view.ssrc(),
        seq: view.seq(),
    }))?;
    Ok(())
}

fn cause_word(cause: DropCause) -> Word
    ensures { result ≡ word_of_cause cause }
{
    match cause {
        DropCause::Own => Word::Own,
        DropCause::Sources => Word::Sources,
        DropCause::Collision { .. } => Word::Collision,
    }
}

/// What RTCP told a session goes on to the lanes, and is told.
pub(crate) fn take_notes(
    streams: &mut Streams,
    time: u64,
    session: u8,
    notes: Vec<SessionNote>,
    steps: &mut Vec<Step>,
) -> Result<(), OutOfMemory>
    ensures { (c : Contents) (older : List Move) → IsLeftBy c older streams.old
        → OnOk result (TakesNotes c time session older (map told notes.items)
        steps.old.items steps.new.items streams.new) }
{
    for note in notes {
        take_note(streams, time, session, note, steps)?;
    }
    Ok(())
}

fn take_note(
    streams: &mut Streams,
    time: u64,
    session: u8,
    note: SessionNote,
    steps: &mut Vec<Step>,
) -> Result<(), OutOfMemory>
    ensures { (c : Contents) (older : List Move) → IsLeftBy c older streams.old
        → OnOk result (TakesNotes c time session older (told note ∷ [])
        steps.old.items steps.new.items streams.new) }
{
    match note {
        SessionNote::Cname { ssrc, text } => steps.push(Step::Tell(BinLine::Cname {
            time,
            session,
            ssrc,
            name: text,
        }))?,
        SessionNote::Sr { ssrc, ntp_ns, rtp } => {
            steps.push(Step::Tell(BinLine::Sr {
                time,
                session,
                ssrc,
                ntp: ntp_ns,
                rtp,
            }))?;
            streams.report(session, ssrc, ntp_ns, rtp, steps)?;
        }
        SessionNote::Stray(ssrc) => steps.push(Step::Tell(BinLine::RtcpStray {
            time,
            session,
            ssrc,
        }))?,
        SessionNote::Bye(ssrc) => steps.push(Step::Tell(BinLine::Bye {
            time,
            session,
            ssrc,
        }))?,
    }
    Ok(())
}

/// Tells why a datagram has no compound of RTCP.
pub(crate) fn tell_bad_compound(
    time: u64,
    session: u8,
    fault: RtcpFault,
    steps: &mut Vec<Step>,
) -> Result<(), OutOfMemory>
    ensures steps { OnOk result
        (steps.new.items ≡ steps.old.items ++ bad_steps time session (word_of fault)) }
    ensures memory { OnOk result (is_want_of_memory fault ≡ false) }
{
    let Some(bad) = rtcp_word(fault) else {
        return Err(OutOfMemory);
    };
    steps.push(Step::Tell(BinLine::RtcpBad {
        time,
        session,
        word: bad.word,
        offset: bad.offset,
    }))?;
    Ok(())
}
