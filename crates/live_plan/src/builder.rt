//! The plan of a script and a capture, record by record.
ghost use Rattle.std.specs.Prelude.{◌≡◌, ◌<◌, ◌≤◌, ◌^◌, ◌++◌, ◌∷◌, [], List, All, length, map, option_map};
ghost use Rattle.std.specs.Prelude.{IfOk, OnOk};
ghost use Rattle.pcap_file.specs.Capture.{Record};
ghost use Rattle.pcap_file.specs.Reading.{record_view};
ghost use Rattle.front_model.specs.Events.{FrontEvent};
ghost use Rattle.rtp_front.specs.Standing.{StandsFor};
ghost use Rattle.live_plan.specs.Courses.{IsCourseOf, routes};
ghost use Rattle.live_plan.specs.Planned.{IsPlanOf};
ghost use Rattle.live_plan.specs.Taken.{finished};

use crate::clock::{RecordClock, START, pass};
use crate::control::{concerned, control_list};
use crate::draft::{Draft, place_all};
use front_model::Step;
use live_bin::{Course, Events, Lanes, Plan, PlanLane, Queues, Route};
use pcap_file::PcapRecord;
use replay_model::laws::times_go_on;
use rtp_front::Front;
use rtp_units::{Blob, OutOfMemory};
use script_lang::Script;
use std::alloc::Global;

/// The most lanes of a plan.
const MAX_LANES: usize = 64;

/// A plan under way. It stands for the records that it took, and holds what the front gave the
/// lanes of them. After want of memory each call answers it again.
#[derive(Drop)]
pub struct PlanBuilder {
    front: Front,
    clock: RecordClock,
    drafts: Vec<Draft>,
    routes: Vec<Route>,
    failed: bool,
}

impl PlanBuilder {
    ghost use Rattle.std.specs.Prelude.{◌+◌, true, OnErr, IsErr};
    ghost use Rattle.script_lang.specs.Contents.{Contents};
    ghost use Rattle.live_plan.specs.Taken.{HasTaken, records_of, has_failed};

    /// Before any record.
    pub fn new(alloc: Global, script: &Script) -> Result<PlanBuilder, OutOfMemory>
        ensures taken { IfOk result (HasTaken script.now []) }
        ensures records { IfOk result (λ builder. records_of builder ≡ 0) }
    {
        Ok(PlanBuilder {
            front: Front::new(alloc, script)?,
            clock: START,
            drafts: Vec::new(alloc),
            routes: Vec::new(alloc),
            failed: false,
        })
    }

    /// How many records it took.
    pub fn records(&self) -> u64
        ensures { result ≡ records_of self.now }
    {
        self.front.taken()
    }

    /// Takes the next record of the capture, whose link type is `link`.
    pub fn take(
        &mut self,
        alloc: Global,
        link: u16,
        captured: &PcapRecord,
    ) -> Result<(), OutOfMemory>
        requires few { records_of self.old < 100000000 }
        requires early { captured.now.stamp < 2 ^ 63 }
        ensures taken { (c : Contents) (before : List Record) → HasTaken c before self.old
            → OnOk result (HasTaken c (before ++ record_view link captured.now ∷ []) self.new) }
        ensures records { OnOk result (records_of self.new ≡ records_of self.old + 1) }
        // Want of memory is answered from then on.
        ensures fails { OnErr result (has_failed self.new ≡ true) }
        ensures again { has_failed self.old ≡ true → IsErr result }
    {
        if self.failed {
            return Err(OutOfMemory);
        }
        let result = self.place_record(alloc, link, captured);
        self.failed = result.is_err();
        result
    }

    fn place_record(
        &mut self,
        alloc: Global,
        link: u16,
        captured: &PcapRecord,
    ) -> Result<(), OutOfMemory>
        requires few { records_of self.old < 100000000 }
        ensures taken { (c : Contents) (before : List Record) → HasTaken c before self.old
            → OnOk result (HasTaken c (before ++ record_view link captured.now ∷ []) self.new) }
        ensures records { OnOk result (records_of self.new ≡ records_of self.old + 1) }
    {
        // A law for the proof; the call does nothing.
        times_go_on();
        self.clock = pass(self.clock, captured.stamp);
        let mut steps = Vec::new(alloc);
        self.front
            .take(alloc, self.clock.time, link, captured, &mut steps)?;
        note_routes(&mut self.routes, steps.as_slice())?;
        place_all(alloc, &mut self.drafts, steps)
    }

    /// The plan of the script that it began with and of the records that it took, and the order in
    /// which a run of it acts.
    pub fn finish(self, alloc: Global, script: &Script) -> Result<(Plan, Course), OutOfMemory>
        ensures plan { (records : List Record) → HasTaken script.now records self
            → IfOk result (λ made. IsPlanOf script.now records made.0) }
        ensures course { (records : List Record) → HasTaken script.now records self
            → IfOk result (λ made. IsCourseOf script.now records made.1) }
        ensures again { has_failed self ≡ true → IsErr result }
    {
        if self.failed {
            return Err(OutOfMemory);
        }
        let records = self.front.taken();
        let drafts = self.drafts;
        let lanes = planned_lanes(alloc, &self.front, script, drafts)?;
        let plan = plan_of(records, lanes)?;
        let events = concerned(alloc, script.items.as_slice())?;
        let routes = self.routes;
        Ok((plan, Course { routes, events }))
    }
}

// Notes the ways of what the steps bring, in order.
fn note_routes(noted: &mut Vec<Route>, steps: &[Step]) -> Result<(), OutOfMemory>
    ensures { OnOk result (noted.new.items ≡ noted.old.items ++ routes steps.now) }
{
    for step in steps {
        note_route(noted, step)?;
    }
    Ok(())
}

fn note_route(noted: &mut Vec<Route>, step: &Step) -> Result<(), OutOfMemory>
    ensures { OnOk result (noted.new.items ≡ noted.old.items ++ routes (step.now ∷ [])) }
{
    match step {
        Step::Tell(_) | Step::Open(_) => {}
        Step::Push { lane, arrival } => noted.push(Route {
            session: arrival.pusher,
            lane: *lane,
        })?,
        Step::Sync { lane, report } => noted.push(Route {
            session: report.pusher,
            lane: *lane,
        })?,
    }
    Ok(())
}

// What a front gives fits the lanes. Where it didn't, want of memory would be answered.
fn plan_of(records: u64, lanes: Vec<PlanLane>) -> Result<Plan, OutOfMemory>
    ensures records { IfOk result (λ plan. plan.records ≡ records) }
    ensures lanes { IfOk result (λ plan. plan.lanes ≡ lanes.items) }
{
    if lanes.len() > MAX_LANES {
        return Err(OutOfMemory);
    }
    match Plan::of(records, Lanes::new(lanes)) {
        Some(plan) => Ok(plan),
        None => Err(OutOfMemory),
    }
}

fn planned_lanes(
    alloc: Global,
    front: &Front,
    script: &Script,
    drafts: Vec<Draft>,
) -> Result<Vec<PlanLane>, OutOfMemory>
    ensures { (events : List FrontEvent) → StandsFor front.now script.now events
        → IfOk result (λ lanes. lanes.items ≡ map (finished script.now events) drafts.items) }
{
    let mut lanes = Vec::new(alloc);
    for draft in drafts {
        lanes.push(planned_lane(alloc, front, script, draft)?)?;
    }
    Ok(lanes)
}

fn planned_lane(
    alloc: Global,
    front: &Front,
    script: &Script,
    draft: Draft,
) -> Result<PlanLane, OutOfMemory>
    ensures { (events : List FrontEvent) → StandsFor front.now script.now events
        → IfOk result (λ lane. lane ≡ finished script.now events draft) }
{
    let opening = draft.opening();
    let events = control_list(alloc, script.items.as_slice(), opening.session)?;
    let cname = owned(alloc, front.cname(opening.session, opening.ssrc))?;
    Ok(PlanLane {
        session: opening.session,
        ssrc: opening.ssrc,
        settings: opening.settings,
        cname,
        queues: Queues::new(draft.into_queues()),
        events: Events::new(events),
    })
}

fn owned(alloc: Global, text: Option<&[u8]>) -> Result<Option<Blob>, OutOfMemory>
    ensures { IfOk result (λ copy. copy ≡ option_map (λ bytes. bytes.now) text.entry) }
{
    match text {
        Some(bytes) => Ok(Some(Blob::copy_of(alloc, bytes)?)),
        None => Ok(None),
    }
}

/// The plan of a script and of all records of a capture, whose link type is `link`, and the order
/// in which a run of it acts.
pub fn make_plan(
    alloc: Global,
    script: &Script,
    link: u16,
    records: &[PcapRecord],
) -> Result<(Plan, Course), OutOfMemory>
    requires few { length records.now ≤ 100000000 }
    requires early { All (λ r. r.stamp < 2 ^ 63) records.now }
    ensures plan { let taken = map (record_view link) records.now in
        IfOk result (λ made. IsPlanOf script.now taken made.0) }
    ensures course { let taken = map (record_view link) records.now in
        IfOk result (λ made. IsCourseOf script.now taken made.1) }
{
    let mut builder = PlanBuilder::new(alloc, script)?;
    for captured in records {
        builder.take(alloc, link, captured)?;
    }
    builder.finish(alloc, script)
}
