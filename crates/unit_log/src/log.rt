//! The log lines of a replay, as unit lines.
ghost use Rattle.std.specs.Prelude.{◌≡◌, ◌<◌, ◌+◌, ◌++◌, ◌∷◌, [], List, ℕ};
ghost use Rattle.std.specs.Prelude.{length, map, IfOk, OnOk};
ghost use Rattle.depay.specs.Fragments.{Call};
ghost use Rattle.depay.specs.Joining.{StandsFor};
ghost use Rattle.depay.specs.Outcomes.{left_open};
ghost use Rattle.unit_log.specs.Lines.{outcomes_by, line_of as line_by, lines_at};
ghost use Rattle.unit_log.specs.Lines.{unit_count, broken_count};
ghost use Rattle.unit_log.specs.Standing.{TookLines, SameSettings, WereGiven, Gave, call_seen};

use crate::given::{Given, LaneCall, given_by};
use crate::line::UnitLine;
use depay::{Cause, Depay, Format, Outcome};
use rtp_units::OutOfMemory;
use std::alloc::Global;
use timeline::BinLine;

/// Joins the payloads that leave the lanes of a replay, by the lines of its log. It keeps a joining
/// for each lane, with one open unit at most, and counts the lines that it told.
#[derive(Drop)]
pub struct UnitLog {
    format: Format,
    pt: u8,
    lanes: Vec<Depay>,
    units: u64,
    broken: u64,
}

impl UnitLog {
    /// For packets of payload type `pt`, from 0 to 127, whose payloads have this format. No log
    /// line was taken.
    pub fn new(alloc: Global, format: Format, pt: u8) -> UnitLog
        ensures { TookLines result format pt [] }
    {
        UnitLog {
            format,
            pt,
            lanes: Vec::new(alloc),
            units: 0,
            broken: 0,
        }
    }

    /// Takes the next line of the log, and gives the unit lines that it tells. After a refusal
    /// nothing is promised of what comes.
    pub fn take(&mut self, alloc: Global, line: &BinLine) -> Result<Vec<UnitLine>, OutOfMemory>
        ensures told { (format : Format) (pt : ℕ) (before : List BinLine)
            → TookLines self.old format pt before
            → IfOk result (λ lines. lines.items ≡ lines_at format pt before line.now) }
        ensures took { (format : Format) (pt : ℕ) (before : List BinLine)
            → TookLines self.old format pt before
            → OnOk result (TookLines self.new format pt (before ++ line.now ∷ [])) }
        ensures same { SameSettings self.old self.new }
    {
        if let BinLine::Done { records, .. } = line {
            return only(alloc, self.done(*records));
        }
        match given_by(line, self.pt) {
            Some(given) => self.give(alloc, &given),
            None => Ok(Vec::new(alloc)),
        }
    }

    fn done(&self, records: u64) -> UnitLine
        ensures { result ≡ UnitLine.Done records self.now.units self.now.broken }
    {
        UnitLine::Done {
            records,
            units: self.units,
            broken: self.broken,
        }
    }

    fn give(&mut self, alloc: Global, given: &Given<'_>) -> Result<Vec<UnitLine>, OutOfMemory>
        ensures told { (calls : ℕ → List Call)
            → WereGiven self.old.format calls self.old.lanes.items
            → IfOk result (λ lines. lines.items ≡ map (line_by given.now.time given.now.lane)
            (outcomes_by self.old.format (calls given.now.lane) (call_seen given.now.call))) }
        ensures took { (calls : ℕ → List Call)
            → WereGiven self.old.format calls self.old.lanes.items
            → OnOk result (Gave self.old self.new given.now.lane calls (call_seen given.now.call)) }
        ensures same { SameSettings self.old self.new }
    {
        let lane = usize::from(given.lane);
        open_lanes(alloc, self.format, &mut self.lanes, lane)?;
        let outcomes = join(alloc, &mut self.lanes[lane], given.call)?;
        self.units = more(self.units, units_in(&outcomes))?;
        self.broken = more(self.broken, broken_in(&outcomes))?;
        lines_of(alloc, given.time, given.lane, outcomes)
    }
}

// Lets the lanes up to this one have a joining.
fn open_lanes(
    alloc: Global,
    format: Format,
    lanes: &mut Vec<Depay>,
    lane: usize,
) -> Result<(), OutOfMemory>
    ensures lane { OnOk result (lane < length lanes.new.items) }
    ensures same { (calls : ℕ → List Call) → WereGiven format calls lanes.old.items
        → OnOk result (WereGiven format calls lanes.new.items) }
{
    'lanes: while lanes.len() <= lane {
        lanes.push(Depay::new(alloc, format)?)?;
    }
    Ok(())
}

// What a packet or a gap tells.
fn join(alloc: Global, depay: &mut Depay, call: LaneCall<'_>) -> Result<Vec<Outcome>, OutOfMemory>
    ensures told { (format : Format) (calls : List Call) → StandsFor depay.old format calls
        → IfOk result (λ v. v.items ≡ outcomes_by format calls (call_seen call.entry)) }
    ensures stands { (format : Format) (calls : List Call) → StandsFor depay.old format calls
        → OnOk result (StandsFor depay.new format (call_seen call.entry ∷ calls)) }
{
    match call {
        LaneCall::Packet {
            number,
            rtp,
            pts,
            payload,
        } => depay.take(alloc, number, rtp, pts, payload),
        LaneCall::Gap => incomplete(alloc, depay.gap()),
    }
}

// That an open unit is not gone on with, if one is open.
fn incomplete(alloc: Global, first: Option<u64>) -> Result<Vec<Outcome>, OutOfMemory>
    ensures { IfOk result (λ v. v.items ≡ left_open first) }
{
    let mut outcomes = Vec::new(alloc);
    if let Some(number) = first {
        outcomes.push(Outcome::Broken {
            number,
            cause: Cause::Incomplete,
        })?;
    }
    Ok(outcomes)
}

fn only(alloc: Global, line: UnitLine) -> Result<Vec<UnitLine>, OutOfMemory>
    ensures { IfOk result (λ v. v.items ≡ line ∷ []) }
{
    let mut lines = Vec::new(alloc);
    lines.push(line)?;
    Ok(lines)
}

// A count with so many more; more than 64 bits hold is want of memory.
fn more(count: u64, added: usize) -> Result<u64, OutOfMemory>
    ensures { IfOk result (λ sum. sum ≡ count + added) }
{
    count.checked_add(added as u64).ok_or(OutOfMemory)
}

fn units_in(outcomes: &[Outcome]) -> usize
    ensures { result ≡ unit_count outcomes.now }
{
    outcomes
        .iter()
        .filter(|outcome| matches!(outcome, Outcome::Unit { .. }))
        .count()
}

fn broken_in(outcomes: &[Outcome]) -> usize
    ensures { result ≡ broken_count outcomes.now }
{
    outcomes
        .iter()
        .filter(|outcome| matches!(outcome, Outcome::Broken { .. }))
        .count()
}

// The lines of these outcomes.
fn lines_of(
    alloc: Global,
    time: u64,
    lane: u8,
    outcomes: Vec<Outcome>,
) -> Result<Vec<UnitLine>, OutOfMemory>
    ensures { IfOk result (λ v. v.items ≡ map (line_by time lane) outcomes.items) }
{
    let mut lines = Vec::with_capacity(alloc, outcomes.len())?;
    for outcome in outcomes {
        lines.push(line_of(time, lane, outcome))?;
    }
    Ok(lines)
}

fn line_of(time: u64, lane: u8, outcome: Outcome) -> UnitLine
    ensures { result ≡ line_by time lane outcome }
{
    match outcome {
        Outcome::Unit {
            first,
            last,
            pts,
            bytes,
        } => UnitLine::Unit {
            time,
            lane,
            first,
            last,
            pts,
            bytes,
        },
        Outcome::Broken { number, cause } => UnitLine::Broken {
            time,
            lane,
            number,
            cause,
        },
    }
}
