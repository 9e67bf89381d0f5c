//! The control list of a lane, and whom the events of all control lists concern.
ghost use Rattle.std.specs.Prelude.{◌≡◌, ◌++◌, if◌then◌else◌, [], IfOk, OnOk, flat_map};
ghost use Rattle.live_plan.specs.Controls.{events_of, clocked};
ghost use Rattle.live_plan.specs.Courses.{concerned_by};

use live_bin::ControlEvent;
use rtp_units::OutOfMemory;
use script_lang::{Action, Item};
use std::alloc::Global;

/// What a script's items do to the lanes of a session, in order. Each event stands behind the step
/// of the clock to its time.
pub(crate) fn control_list(
    alloc: Global,
    items: &[Item],
    session: u8,
) -> Result<Vec<ControlEvent>, OutOfMemory>
    ensures { IfOk result (λ events. events.items ≡ flat_map (events_of session) items.now) }
{
    let mut events = Vec::new(alloc);
    for item in items {
        add(&mut events, session, item)?;
    }
    Ok(events)
}

fn add(events: &mut Vec<ControlEvent>, session: u8, item: &Item) -> Result<(), OutOfMemory>
    ensures { OnOk result (events.new.items ≡ events.old.items ++ events_of session item.now) }
{
    let time = item.time;
    match item.action {
        Action::Clock => {
            events.push(ControlEvent::Clock(item.time))?;
            Ok(())
        }
        Action::FlushStart(of) => add_if(of == session, events, time, ControlEvent::FlushStart),
        Action::FlushStop(of) => add_if(of == session, events, time, ControlEvent::FlushStop),
        Action::Latency { session: of, ns } => {
            add_if(of == session, events, time, ControlEvent::Latency(ns))
        }
    }
}

// Adds the step of the clock and the event, if it is the session's.
fn add_if(
    own: bool,
    events: &mut Vec<ControlEvent>,
    time: u64,
    event: ControlEvent,
) -> Result<(), OutOfMemory>
    ensures { OnOk result (events.new.items
        ≡ events.old.items ++ (if own then clocked time event else [])) }
{
    if own {
        events.push(ControlEvent::Clock(time))?;
        events.push(event)?;
    }
    Ok(())
}

/// The sessions that a script's control events concern, in order, none where it is all of them: an
/// event of a session and the step of the clock before it are two.
pub(crate) fn concerned(alloc: Global, items: &[Item]) -> Result<Vec<Option<u8>>, OutOfMemory>
    ensures { IfOk result (λ sessions. sessions.items ≡ flat_map concerned_by items.now) }
{
    let mut sessions = Vec::new(alloc);
    for item in items {
        concern(&mut sessions, item)?;
    }
    Ok(sessions)
}

fn concern(sessions: &mut Vec<Option<u8>>, item: &Item) -> Result<(), OutOfMemory>
    ensures { OnOk result (sessions.new.items ≡ sessions.old.items ++ concerned_by item.now) }
{
    match item.action {
        Action::Clock => sessions.push(None)?,
        Action::FlushStart(of) | Action::FlushStop(of) | Action::Latency { session: of, .. } => {
            sessions.push(Some(of))?;
            sessions.push(Some(of))?;
        }
    }
    Ok(())
}
