//! Which lanes tick.
ghost use Rattle.std.specs.Prelude.{◌≡◌, ◌≤◌, ◌<◌, ◌||◌, nat_le, ℕ, length, get_or, OnOk};
ghost use Rattle.std.specs.List.{list_any};
ghost use Rattle.replay_model.specs.Acting.{is_for};
ghost use Rattle.replay_model.specs.Taking.{touches};
ghost use Rattle.lane_core.specs.declared.lane.Lane.{Lane as LaneOf};
ghost use Rattle.bin_core.specs.Touching.{is_listed, lane_given_by, IsNextListed};

use front_model::Step;
use lane_core::Lane;
use rtp_units::OutOfMemory;
use script_lang::Action;

/// The first of the listed lanes from a number on, below an end, or the end where there is none.
pub fn next_listed(touched: &[usize], from: usize, end: usize) -> usize
    requires { from ≤ end }
    ensures { IsNextListed touched.now from end result }
{
    let mut next = end;
    for lane in touched {
        if from <= *lane && *lane < next {
            next = *lane;
        }
    }
    next
}

// The lane that a step of a front gives something.
fn lane_given(step: &Step) -> Option<usize>
    ensures { result ≡ lane_given_by step.now }
{
    match step {
        Step::Tell(_) | Step::Open(_) => None,
        Step::Push { lane, .. } | Step::Sync { lane, .. } => Some(usize::from(*lane)),
    }
}

/// Lists the lanes that steps of a front give something, in place of what was listed.
pub fn list_given(touched: &mut Vec<usize>, steps: &[Step]) -> Result<(), OutOfMemory>
    ensures { OnOk result ((k : ℕ)
        → is_listed touched.new.items k ≡ list_any (touches k) steps.now) }
{
    touched.clear();
    for step in steps {
        if let Some(lane) = lane_given(step) {
            touched.push(lane)?;
        }
    }
    Ok(())
}

/// Lists the lanes of these numbers too.
pub fn list_begun(touched: &mut Vec<usize>, from: usize, end: usize) -> Result<(), OutOfMemory>
    ensures { OnOk result ((k : ℕ) → k < end
        → is_listed touched.new.items k ≡ (nat_le from k || is_listed touched.old.items k)) }
{
    for lane in from..end {
        touched.push(lane)?;
    }
    Ok(())
}

fn is_for_session(action: Action, session: u8) -> bool
    ensures { result ≡ is_for action session }
{
    match action {
        Action::Clock => true,
        Action::FlushStart(of) | Action::FlushStop(of) | Action::Latency { session: of, .. } => {
            of == session
        }
    }
}

/// Lists the lanes that an action is for, in place of what was listed.
pub fn list_meant(
    touched: &mut Vec<usize>,
    action: Action,
    lanes: &[Lane],
) -> Result<(), OutOfMemory>
    ensures { OnOk result ((k : ℕ) (d : LaneOf) → k < length lanes.now
        → is_listed touched.new.items k ≡ is_for action (get_or lanes.now k d).session) }
{
    touched.clear();
    for lane in 0..lanes.len() {
        if is_for_session(action, lanes[lane].session) {
            touched.push(lane)?;
        }
    }
    Ok(())
}
