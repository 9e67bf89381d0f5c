//! The lanes of a bin, by their numbers.
ghost use Rattle.std.specs.Prelude.{◌≡◌, ◌≤◌, ◌++◌, ◌∷◌, [], ℕ, length, OnOk, OnErr};
ghost use Rattle.jitter_model.specs.Runs.{IsValid};
ghost use Rattle.replay_model.specs.Fitting.{IsItem};
ghost use Rattle.lane_core.specs.AllLanes.{ActOn, AddsLane, Open, SameLanes, done_of, wakes_in};

use crate::lane::Lane;
use front_model::Opening;
use jitter_model::laws::{accepted_in_window, covers_from_next};
use rtp_units::OutOfMemory;
use script_lang::Item;
use std::alloc::Global;
use timeline::{BinLine, Lines};

/// The most lanes of a bin.
pub const MAX_LANES: usize = 64;

/// A lane begins at a time behind the others, with the latency that its session has, and in its
/// flush.
pub fn open(
    lanes: &mut Vec<Lane>,
    alloc: Global,
    time: u64,
    opening: &Opening,
    latency: u64,
    flushing: bool,
    lines: &mut Lines,
) -> Result<(), OutOfMemory>
    requires number { opening.now.lane ≡ length lanes.old.items }
    requires settings { IsValid opening.now.settings }
    requires latency { latency ≤ 600000000000 }
    ensures adds { OnOk result (AddsLane opening.now lanes.old.items lanes.new.items) }
    ensures stays { OnErr result (lanes.new.items ≡ lanes.old.items) }
    ensures stands { OnOk result (Open time opening.now latency flushing lanes.old.items
        lanes.new.items lines.old lines.new) }
{
    let mut lane = Lane::new(alloc, opening)?;
    lane.begin(time, latency, flushing, lines)?;
    add(lanes, lane)
}

// Adds a lane behind the others.
fn add(lanes: &mut Vec<Lane>, lane: Lane) -> Result<(), OutOfMemory>
    ensures ok { OnOk result (lanes.new.items ≡ lanes.old.items ++ lane ∷ []) }
    ensures err { OnErr result (lanes.new.items ≡ lanes.old.items) }
{
    match lanes.push(lane) {
        Ok(()) => Ok(()),
        Err(_) => Err(OutOfMemory),
    }
}

/// An item comes to the lanes that it is for, in order. Their turns come later.
pub fn control(lanes: &mut Vec<Lane>, item: &Item, lines: &mut Lines) -> Result<(), OutOfMemory>
    requires { IsItem item.now }
    ensures stays { SameLanes lanes.old.items lanes.new.items }
    ensures wakes { (k : ℕ) → wakes_in lanes.new.items k ≡ wakes_in lanes.old.items k }
    ensures stands { OnOk result (ActOn item.now lanes.old.items lanes.new.items
        lines.old lines.new) }
{
    for i in 0..lanes.len() {
        lanes[i].control(item, lines)?;
    }
    Ok(())
}

/// The last line.
pub fn done_line(lanes: &[Lane], records: u64) -> BinLine
    requires { length lanes.now ≤ 64 }
    ensures { result ≡ done_of lanes.now records }
{
    // Laws for the proof; the calls do nothing.
    accepted_in_window();
    covers_from_next();
    let mut out = 0;
    let mut lost = 0;
    let mut refused = 0;
    for i in 0..lanes.len() {
        let counts = lanes[i].counts;
        out += counts.out;
        lost += counts.lost;
        refused += counts.refused;
    }
    BinLine::Done {
        records,
        lanes: lanes.len() as u64,
        out,
        lost,
        refused,
    }
}
