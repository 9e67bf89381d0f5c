//! The reports of the sessions.
ghost use Rattle.std.specs.Prelude.{◌≡◌, ℕ, List, [], ◌∷◌, ◌++◌, ◌<◌, cond, IsSome, OnOk};
ghost use Rattle.std.specs.List.{flat_map};
ghost use Rattle.script_lang.specs.Contents.{Contents};
ghost use Rattle.script_lang.specs.Tests.{is_declared};
ghost use Rattle.front_model.specs.Events.{FrontEvent};
ghost use Rattle.front_model.specs.Given.{Report};
ghost use Rattle.front_model.specs.Moves.{Move};
ghost use Rattle.front_model.specs.Sessions.{given, sessions as sessions_by};
ghost use Rattle.front_model.specs.Steps.{notes_steps, report_time_steps};
ghost use Rattle.rtp_session.specs.Answers.{report_notes};
ghost use Rattle.rtp_front.specs.Sessions.{session_at, IsKept, IsSameBut};
ghost use Rattle.rtp_front.specs.Sessions.{KeepsNumbers, HeardAtMost};

use crate::sessions::{Sessions, report_session};
use front_model::Step;
use rtp_session::Reported;
use rtp_units::OutOfMemory;
use std::alloc::Global;
use timeline::BinLine;

/// The most sessions; their numbers are below it.
const SESSIONS: u8 = 8;

/// A report time of all sessions, which come in the order of their numbers.
pub(crate) fn report_all(
    alloc: Global,
    sessions: &mut Sessions,
    time: u64,
    timeout: u64,
    steps: &mut Vec<Step>,
) -> Result<(), OutOfMemory>
    requires { (q : ℕ) → IsSome (session_at sessions.old.entries q) → q < 8 }
    ensures steps { (c : Contents) (older : List FrontEvent)
        → ((q : ℕ) → IsKept c q (given c q older) (session_at sessions.old.entries q))
        → timeout ≡ c.settings.timeout
        → OnOk result (steps.new.items ≡ steps.old.items
        ++ flat_map (report_time_steps c time older) (sessions_by c)) }
    ensures stands { (c : Contents) (older : List FrontEvent)
        → ((q : ℕ) → IsKept c q (given c q older) (session_at sessions.old.entries q))
        → OnOk result ((q : ℕ) → IsKept c q (Report time timeout ∷ given c q older)
        (session_at sessions.new.entries q)) }
    ensures numbers { KeepsNumbers sessions.old.entries sessions.new.entries }
    ensures heard { (n : ℕ) → HeardAtMost n sessions.old.entries
        → HeardAtMost n sessions.new.entries }
{
    for number in 0..SESSIONS {
        report_at(alloc, sessions, number, time, timeout, steps)?;
    }
    Ok(())
}

/// A report time of the session of this number, where it is kept.
fn report_at(
    alloc: Global,
    sessions: &mut Sessions,
    number: u8,
    time: u64,
    timeout: u64,
    steps: &mut Vec<Step>,
) -> Result<(), OutOfMemory>
    ensures steps { (c : Contents) (older : List FrontEvent)
        → IsKept c number (given c number older) (session_at sessions.old.entries number)
        → timeout ≡ c.settings.timeout
        → OnOk result (steps.new.items ≡ steps.old.items
        ++ cond (is_declared c.sessions number) (report_time_steps c time older number) []) }
    ensures stands { (c : Contents) (older : List FrontEvent)
        → IsKept c number (given c number older) (session_at sessions.old.entries number)
        → OnOk result (IsKept c number (Report time timeout ∷ given c number older)
        (session_at sessions.new.entries number)) }
    ensures rest { IsSameBut number sessions.old.entries sessions.new.entries }
    ensures numbers { KeepsNumbers sessions.old.entries sessions.new.entries }
    ensures heard { (n : ℕ) → HeardAtMost n sessions.old.entries
        → HeardAtMost n sessions.new.entries }
{
    match report_session(alloc, sessions, number, time, timeout)? {
        Some(reported) => tell_report(time, number, reported, steps),
        None => Ok(()),
    }
}

/// Tells which sources were removed, and the report.
fn tell_report(
    time: u64,
    session: u8,
    reported: Reported,
    steps: &mut Vec<Step>,
) -> Result<(), OutOfMemory>
    ensures { (c : Contents) (older : List Move) → OnOk result (steps.new.items ≡ steps.old.items
        ++ notes_steps c time older session (report_notes reported)) }
{
    for ssrc in reported.gone.as_slice() {
        steps.push(Step::Tell(BinLine::Gone {
            time,
            session,
            ssrc: *ssrc,
        }))?;
    }
    steps.push(Step::Tell(BinLine::Report {
        time,
        session,
        bytes: reported.bytes,
    }))?;
    Ok(())
}
