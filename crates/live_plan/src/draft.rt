//! The lanes of a plan under way.
ghost use Rattle.std.specs.Prelude.{◌≡◌, ◌<◌, ◌++◌, ◌∷◌, [], List, length, IfOk, OnOk};
ghost use Rattle.front_model.specs.declared.Step.{Step as FrontStep};
ghost use Rattle.live_plan.specs.Drafts.{AreDrafts, Brings, unbrought, no_queues};

use front_model::{Opening, SenderReport, Step};
use live_bin::{Delivery, Queue};
use rtp_units::OutOfMemory;
use std::alloc::Global;
use std::marker::Model;

/// How many sessions a script has at most.
const SESSION_COUNT: u8 = 8;

/// A lane of a plan under way: how it begins, and what each session brought to it so far.
#[derive(Drop)]
pub(crate) struct Draft {
    opening: Opening,
    queues: Vec<Queue>,
}

impl Model for Draft {
    ghost use Rattle.live_plan.specs.Drafts.{Drafted};

    ghost Value = { Drafted };

    ghost view = { λ x. record { opening = x.opening; queues = x.queues.items } };
}

impl Draft {
    ghost use Rattle.live_plan.specs.Drafts.{with_delivery};

    /// A lane to which nothing was brought yet.
    fn new(alloc: Global, opening: Opening) -> Result<Draft, OutOfMemory>
        ensures { IfOk result (λ draft. draft ≡ unbrought opening) }
    {
        Ok(Draft {
            opening,
            queues: empty_queues(alloc)?,
        })
    }

    /// How the lane begins.
    pub(crate) fn opening(&self) -> Opening
        ensures { result ≡ self.now.opening }
    {
        self.opening
    }

    /// What each session brought to the lane.
    pub(crate) fn into_queues(self) -> Vec<Queue>
        ensures { result.items ≡ self.queues }
    {
        self.queues
    }

    // What a session brings comes behind what it brought before.
    fn give(&mut self, pusher: u8, delivery: Delivery) -> Result<(), OutOfMemory>
        ensures given { OnOk result (self.new ≡ with_delivery pusher delivery self.old) }
        ensures within { OnOk result (pusher < length self.old.queues) }
    {
        let place = usize::from(pusher);
        if place >= self.queues.len() {
            return Err(OutOfMemory);
        }
        self.queues[place].push(delivery)
    }
}

// A queue for each session, with nothing in it.
fn empty_queues(alloc: Global) -> Result<Vec<Queue>, OutOfMemory>
    ensures { IfOk result (λ queues. queues.items ≡ no_queues) }
{
    let mut queues = Vec::new(alloc);
    for _session in 0..SESSION_COUNT {
        queues.push(Queue::new(Vec::new(alloc)))?;
    }
    Ok(queues)
}

/// Does steps of a front, in order. What a front gives fits the lanes that it began: where it
/// didn't, want of memory would be answered.
pub(crate) fn place_all(
    alloc: Global,
    drafts: &mut Vec<Draft>,
    steps: Vec<Step>,
) -> Result<(), OutOfMemory>
    ensures { (before : List FrontStep) → AreDrafts before drafts.old.items
        → OnOk result (AreDrafts (before ++ steps.items) drafts.new.items) }
{
    for step in steps {
        place(alloc, drafts, step)?;
    }
    Ok(())
}

fn place(alloc: Global, drafts: &mut Vec<Draft>, step: Step) -> Result<(), OutOfMemory>
    ensures { (before : List FrontStep) → AreDrafts before drafts.old.items
        → OnOk result (AreDrafts (before ++ step ∷ []) drafts.new.items) }
{
    match step {
        Step::Tell(_) => Ok(()),
        Step::Open(opening) => open(alloc, drafts, opening),
        Step::Push { lane, arrival } => {
            let pusher = arrival.pusher;
            bring(drafts, lane, pusher, Delivery::Packet(arrival))
        }
        Step::Sync { lane, report } => bring(drafts, lane, report.pusher, reported(report)),
    }
}

fn open(alloc: Global, drafts: &mut Vec<Draft>, opening: Opening) -> Result<(), OutOfMemory>
    ensures numbered { OnOk result (opening.lane ≡ length drafts.old.items) }
    ensures opened { OnOk result (drafts.new.items
        ≡ drafts.old.items ++ unbrought opening ∷ []) }
{
    if usize::from(opening.lane) != drafts.len() {
        return Err(OutOfMemory);
    }
    drafts.push(Draft::new(alloc, opening)?)?;
    Ok(())
}

fn reported(report: SenderReport) -> Delivery
    ensures { result ≡ Delivery.Report report.pusher report.k report.ntp_ns report.rtp }
{
    Delivery::Report {
        pusher: report.pusher,
        k: report.k,
        ntp_ns: report.ntp_ns,
        rtp: report.rtp,
    }
}

fn bring(
    drafts: &mut Vec<Draft>,
    lane: u8,
    pusher: u8,
    delivery: Delivery,
) -> Result<(), OutOfMemory>
    ensures { OnOk result (Brings drafts.old.items drafts.new.items lane pusher delivery) }
{
    let place = usize::from(lane);
    if place >= drafts.len() {
        return Err(OutOfMemory);
    }
    drafts[place].give(pusher, delivery)
}
