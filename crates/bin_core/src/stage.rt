//! What a bin keeps of sessions and lanes, and how it goes on.
ghost use Rattle.std.specs.Prelude.{OnOk};
ghost use Rattle.bin_core.specs.Stages.{AreQuiet, TellsAll};

use crate::offsets::keep;
use crate::requests::send;
use crate::standings::{Standing, after};
use crate::touched::{list_meant, next_listed};
use crate::wakes::Wakes;
use front_model::{Opening, SenderReport, Step};
use lane_core::laws::lanes_stand_beside;
use lane_core::{Lane, control, done_line, open};
use ntp_sync::LaneSync;
use replay_model::Wake;
use replay_model::laws::timelines_keep;
use replay_sound::laws::{reports_only_tell, scripts_are_sound, steps_suit_a_bin};
use rtp_front::Front;
use rtp_units::OutOfMemory;
use script_lang::{Item, Script};
use std::alloc::Global;
use timeline::Lines;

/// The pushers of a lane are numbers below this: the sessions and the script.
const PUSHER_COUNT: u8 = 9;

/// The front, the lanes by their numbers, their wakes, the reports of lanes under their sources'
/// CNAMEs, and how the sessions stand.
///
/// What the front of a script gives fits the lanes, so nothing of it is tested.
#[derive(Drop)]
pub struct Stage {
    pub front: Front,
    pub lanes: Vec<Lane>,
    pub wakes: Wakes,
    pub sync: LaneSync,
    pub standings: [Standing; 8],
}

impl Stage {
    ghost use Rattle.std.specs.Prelude.{◌≡◌, ◌<◌, ◌≤◌, ◌+◌, ◌^◌, length, true};
    ghost use Rattle.std.specs.Prelude.{IfOk, OnOk};
    ghost use Rattle.std.specs.Prelude.{ℕ, List, [], ◌∷◌};
    ghost use Rattle.jitter_model.specs.Laws.{IsLater};
    ghost use Rattle.front_model.specs.Events.{ReportsDue};
    ghost use Rattle.front_model.specs.declared.Step.{Step as StepOf};
    ghost use Rattle.front_model.specs.declared.Step.TheVariants.{Open, Sync};
    ghost use Rattle.lane_core.specs.AllLanes.{wakes_in};
    ghost use Rattle.replay_model.specs.Fitting.{IsItem};
    ghost use Rattle.replay_model.specs.Taking.{fronted};
    ghost use Rattle.replay_model.specs.Serving.{first_wake};
    ghost use Rattle.replay_model.specs.Log.{with_item};
    ghost use Rattle.bin_core.specs.Stages.{Begins, GoesOn, Does, DoesAll, TicksListed};
    ghost use Rattle.bin_core.specs.Stages.{Ticks, EndsOne, EndsLane, EndsAll, Finishes};
    ghost use Rattle.bin_core.specs.Stages.{SameButOne, SameWakes};
    ghost use Rattle.bin_core.specs.Underway.{Owes, IsAtRest, StaysAtRest};

    /// A stage before anything came.
    pub fn new(alloc: Global, script: &Script) -> Result<Stage, OutOfMemory>
        ensures stands { IfOk result (Begins script.now) }
        ensures rests { IfOk result (Owes 0 []) }
    {
        // A law for the proof; the call does nothing.
        scripts_are_sound();
        let standing = Standing {
            latency: script.settings.latency,
            flushing: false,
        };
        let front = Front::new(alloc, script)?;
        let sync = LaneSync::new(alloc)?;
        let lanes = Vec::new(alloc);
        let wakes = Wakes::new(alloc)?;
        Ok(Stage {
            front,
            lanes,
            wakes,
            sync,
            standings: [standing; 8],
        })
    }

    /// The first wake of the lanes: the least pair of a time and a lane.
    pub fn next_turn(&self) -> Option<Wake>
        requires { IsAtRest self.now }
        ensures { result
            ≡ first_wake (wakes_in self.now.lanes.items) (length self.now.lanes.items) }
    {
        self.wakes.first()
    }

    /// Tells the reports of all sessions.
    pub fn report(
        &mut self,
        alloc: Global,
        time: u64,
        steps: &mut Vec<Step>,
        lines: &mut Lines,
    ) -> Result<(), OutOfMemory>
        requires { IsAtRest self.old }
        ensures stands { OnOk result (GoesOn self.old self.new lines.old lines.new
            (λ c. fronted c time (ReportsDue time))) }
        ensures same { OnOk result (SameWakes self.old self.new) }
        ensures rests { OnOk result (StaysAtRest self.old self.new) }
    {
        // Laws for the proof; the calls do nothing.
        steps_suit_a_bin();
        scripts_are_sound();
        reports_only_tell();
        lanes_stand_beside();
        steps.clear();
        self.front.report(alloc, time, steps)?;
        tell_all(steps, lines)
    }

    /// Does the steps that are owed, in order, and leaves none of them.
    pub fn walk(
        &mut self,
        alloc: Global,
        time: u64,
        steps: &mut Vec<Step>,
        lines: &mut Lines,
    ) -> Result<(), OutOfMemory>
        requires { (n : ℕ) × Owes n steps.old.items self.old }
        ensures does { OnOk result (DoesAll time steps.old.items self.old self.new
            lines.old lines.new) }
        ensures rests { OnOk result ((n : ℕ) → Owes n steps.old.items self.old
            → Owes n [] self.new) }
    {
        // Laws for the proof; the calls do nothing.
        timelines_keep();
        lanes_stand_beside();
        for step in steps.drain(..) {
            match step {
                Step::Tell(line) => lines.push(line)?,
                Step::Open(opening) => self.open_lane(alloc, time, &opening, lines)?,
                Step::Push { lane, arrival } => {
                    self.lanes[usize::from(lane)].push(time, arrival, lines)?;
                }
                Step::Sync { lane, report } => {
                    self.synchronise(alloc, time, lane, &report, lines)?;
                }
            }
        }
        Ok(())
    }

    // A lane begins.
    fn open_lane(
        &mut self,
        alloc: Global,
        time: u64,
        opening: &Opening,
        lines: &mut Lines,
    ) -> Result<(), OutOfMemory>
        requires { (n : ℕ) × (more : List StepOf) × Owes n (Open opening.now ∷ more) self.old }
        ensures does { OnOk result (Does time (Open opening.now) self.old self.new
            lines.old lines.new) }
        ensures owes { OnOk result ((n : ℕ) (more : List StepOf)
            → Owes n (Open opening.now ∷ more) self.old → Owes n more self.new) }
    {
        // A law for the proof; the call does nothing.
        lanes_stand_beside();
        let Standing { latency, flushing } = self.standings[usize::from(opening.session)];
        open(
            &mut self.lanes,
            alloc,
            time,
            opening,
            latency,
            flushing,
            lines,
        )
    }

    // A sender report comes to a lane, and is kept under the CNAME of the lane's source.
    fn synchronise(
        &mut self,
        alloc: Global,
        time: u64,
        lane: u8,
        report: &SenderReport,
        lines: &mut Lines,
    ) -> Result<(), OutOfMemory>
        requires { (n : ℕ) × (more : List StepOf) × Owes n (Sync lane report.now ∷ more) self.old }
        ensures does { OnOk result (Does time (Sync lane report.now) self.old self.new
            lines.old lines.new) }
        ensures owes { OnOk result ((n : ℕ) (more : List StepOf)
            → Owes n (Sync lane report.now ∷ more) self.old → Owes n more self.new) }
    {
        // A law for the proof; the call does nothing.
        lanes_stand_beside();
        let to = &mut self.lanes[usize::from(lane)];
        let (session, ssrc) = (to.session, to.ssrc);
        let Some(info) = to.sync(time, report, lines)? else {
            return Ok(());
        };
        let Some(name) = self.front.cname(session, ssrc) else {
            return Ok(());
        };
        keep(&mut self.sync, alloc, time, lane, name, info, lines)
    }

    /// A lane's clock comes to a time, it takes turns, and what it asks for is sent.
    pub fn tick(
        &mut self,
        alloc: Global,
        time: u64,
        number: usize,
        lines: &mut Lines,
    ) -> Result<(), OutOfMemory>
        requires lane { number < length self.old.lanes.items }
        requires time { time < 2 ^ 63 + 2 ^ 50 }
        requires rests { IsAtRest self.old }
        ensures stands { OnOk result (Ticks time number self.old self.new lines.old lines.new) }
        ensures same { SameButOne number self.old self.new }
        ensures later { OnOk result (IsLater time (wakes_in self.new.lanes.items number)) }
        ensures rests { OnOk result (StaysAtRest self.old self.new) }
    {
        // Laws for the proof; the calls do nothing.
        timelines_keep();
        lanes_stand_beside();
        let lane = &mut self.lanes[number];
        let was = lane.wake;
        let numbers = lane.tick(alloc, time, lines)?;
        let (session, ssrc, wake) = (lane.session, lane.ssrc, lane.wake);
        self.wakes.change(number, was, wake);
        send(
            &mut self.front,
            alloc,
            time,
            session,
            ssrc,
            numbers.as_slice(),
            lines,
        )
    }

    /// The listed lanes tick, in the order of their numbers, each once.
    pub fn tick_listed(
        &mut self,
        alloc: Global,
        time: u64,
        touched: &[usize],
        lines: &mut Lines,
    ) -> Result<(), OutOfMemory>
        requires time { time < 2 ^ 63 + 2 ^ 50 }
        requires rests { IsAtRest self.old }
        ensures ticks { OnOk result (TicksListed time touched.now self.old self.new
            lines.old lines.new) }
        ensures rests { OnOk result (StaysAtRest self.old self.new) }
    {
        // Laws for the proof; the calls do nothing.
        timelines_keep();
        lanes_stand_beside();
        let end = self.lanes.len();
        let mut number = next_listed(touched, 0, end);
        while number < end {
            self.tick(alloc, time, number, lines)?;
            number = next_listed(touched, number + 1, end);
        }
        Ok(())
    }

    /// An item comes to the lanes that it is for, and then they take turns.
    pub fn control(
        &mut self,
        alloc: Global,
        item: &Item,
        touched: &mut Vec<usize>,
        lines: &mut Lines,
    ) -> Result<(), OutOfMemory>
        requires item { IsItem item.now }
        requires rests { IsAtRest self.old }
        ensures stands { OnOk result (GoesOn self.old self.new lines.old lines.new
            (λ c. with_item c item.now)) }
        ensures rests { OnOk result (StaysAtRest self.old self.new) }
    {
        // Laws for the proof; the calls do nothing.
        timelines_keep();
        lanes_stand_beside();
        self.standings = after(self.standings, item.action);
        control(&mut self.lanes, item, lines)?;
        list_meant(touched, item.action, self.lanes.as_slice())?;
        self.tick_listed(alloc, item.time, touched.as_slice(), lines)
    }

    // If a lane has this pusher, it ends, the lane takes turns, and what it asks for is sent.
    fn end_pusher(
        &mut self,
        alloc: Global,
        time: u64,
        number: usize,
        pusher: u8,
        lines: &mut Lines,
    ) -> Result<(), OutOfMemory>
        requires lane { number < length self.old.lanes.items }
        requires pusher { pusher < 16 }
        ensures stands { OnOk result (EndsOne time number pusher self.old self.new
            lines.old lines.new) }
        ensures same { length self.new.lanes.items ≡ length self.old.lanes.items }
    {
        // Laws for the proof; the calls do nothing.
        timelines_keep();
        lanes_stand_beside();
        let lane = &mut self.lanes[number];
        if !lane.has_pusher(pusher) {
            return Ok(());
        }
        let numbers = lane.end(alloc, pusher, time, lines)?;
        let (session, ssrc) = (lane.session, lane.ssrc);
        send(
            &mut self.front,
            alloc,
            time,
            session,
            ssrc,
            numbers.as_slice(),
            lines,
        )
    }

    // A lane's pushers end.
    fn end_lane(
        &mut self,
        alloc: Global,
        time: u64,
        number: usize,
        lines: &mut Lines,
    ) -> Result<(), OutOfMemory>
        requires lane { number < length self.old.lanes.items }
        ensures stands { OnOk result (EndsLane time number self.old self.new
            lines.old lines.new) }
        ensures same { length self.new.lanes.items ≡ length self.old.lanes.items }
    {
        // A law for the proof; the call does nothing.
        timelines_keep();
        for pusher in 0..PUSHER_COUNT {
            self.end_pusher(alloc, time, number, pusher, lines)?;
        }
        Ok(())
    }

    // All lanes end.
    fn end_all(&mut self, alloc: Global, time: u64, lines: &mut Lines) -> Result<(), OutOfMemory>
        ensures stands { OnOk result (EndsAll time self.old self.new lines.old lines.new) }
        ensures same { length self.new.lanes.items ≡ length self.old.lanes.items }
    {
        // A law for the proof; the call does nothing.
        timelines_keep();
        for number in 0..self.lanes.len() {
            self.end_lane(alloc, time, number, lines)?;
        }
        Ok(())
    }

    /// All lanes end, and the last line is told.
    pub fn finish(&mut self, alloc: Global, time: u64, lines: &mut Lines) -> Result<(), OutOfMemory>
        requires { IsAtRest self.old }
        ensures { OnOk result (Finishes time self.old lines.old lines.new) }
    {
        // A law for the proof; the call does nothing.
        lanes_stand_beside();
        self.end_all(alloc, time, lines)?;
        lines.push(done_line(self.lanes.as_slice(), self.front.taken()))
    }
}

// Tells the lines of steps that only tell, and leaves none of them.
fn tell_all(steps: &mut Vec<Step>, lines: &mut Lines) -> Result<(), OutOfMemory>
    requires { ∥ AreQuiet steps.old.items ∥₁ }
    ensures { OnOk result (TellsAll steps.old.items lines.old lines.new) }
{
    for step in steps.drain(..) {
        let Step::Tell(line) = step else {
            unreachable!()
        };
        lines.push(line)?;
    }
    Ok(())
}
