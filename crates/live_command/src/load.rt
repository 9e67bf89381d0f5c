//! A capture's records on the way into a plan.
ghost use Rattle.std.specs.Prelude.{◌≡◌, ◌<◌, ◌≤◌, ◌^◌, List, [], None, IfOk};
ghost use Rattle.pcap_file.specs.Capture.{Record};

use crate::stop::LiveStop;
use capture_file::CaptureRecord;
use live_bin::{Course, Plan};
use live_plan::PlanBuilder;
use rtp_units::OutOfMemory;
use script_lang::Script;
use std::alloc::Global;

/// The most bytes that all records of a capture include.
pub const MAX_BYTES: u64 = 268_435_456;

/// A plan under way, how many bytes its records include, and the link type of the first one.
#[derive(Drop)]
pub struct Load {
    builder: PlanBuilder,
    included: u64,
    link: Option<u16>,
}

impl Load {
    ghost use Rattle.std.specs.Prelude.{◌+◌, OnOk};
    ghost use Rattle.script_lang.specs.Contents.{Contents};
    ghost use Rattle.capture_file.specs.Reading.{record_of};
    ghost use Rattle.live_plan.specs.Planned.{IsPlanOf};
    ghost use Rattle.live_command.specs.Loaded.{Admits, HasLoaded, HasNoted, Loads, count_of};

    /// Before any record.
    pub fn new(alloc: Global, script: &Script) -> Result<Load, OutOfMemory>
        ensures loaded { IfOk result (HasLoaded script.now []) }
        ensures count { IfOk result (λ load. count_of load ≡ 0) }
        ensures room { IfOk result (λ load. load.included ≤ MAX_BYTES) }
    {
        Ok(Load {
            builder: PlanBuilder::new(alloc, script)?,
            included: 0,
            link: None,
        })
    }

    /// Takes the next record, unless there is something against it.
    pub fn take(&mut self, alloc: Global, record: &CaptureRecord) -> Result<(), LiveStop>
        requires few { count_of self.old < 100000000 }
        requires early { record.now.rec.stamp < 2 ^ 63 }
        requires room { self.old.included ≤ MAX_BYTES }
        ensures loads { (c : Contents) (seen : List Record) → HasLoaded c seen self.old
            → Loads result c seen (record_of record.now) self.new }
        ensures count { OnOk result (count_of self.new ≡ count_of self.old + 1) }
        ensures room { OnOk result (self.new.included ≤ MAX_BYTES) }
    {
        self.admit(record)?;
        Ok(self.builder.take(alloc, record.link, &record.rec)?)
    }

    // Counts a record's bytes and notes the first link type, unless there is something against it.
    fn admit(&mut self, record: &CaptureRecord) -> Result<(), LiveStop>
        requires room { self.old.included ≤ MAX_BYTES }
        ensures builder { self.new.builder ≡ self.old.builder }
        ensures admits { (seen : List Record) → HasNoted seen self.old
            → Admits result seen (record_of record.now) self.new }
        ensures room { OnOk result (self.new.included ≤ MAX_BYTES) }
    {
        let offset = record.rec.offset;
        let included = self.included + record.rec.bytes.bytes().len() as u64;
        if included > MAX_BYTES {
            return Err(LiveStop::TooMany { offset });
        }
        let first = self.link.unwrap_or(record.link);
        if first != record.link {
            return Err(LiveStop::MixedLinks { offset });
        }
        self.included = included;
        self.link = Some(first);
        Ok(())
    }

    /// The plan of the script that it began with and of the records that it took, and the order in
    /// which a run of it acts. It has at most 64 lanes.
    pub fn finish(self, alloc: Global, script: &Script) -> Result<(Plan, Course), OutOfMemory>
        ensures plan { (records : List Record) → HasLoaded script.now records self
            → IfOk result (λ made. IsPlanOf script.now records made.0) }
    {
        self.builder.finish(alloc, script)
    }
}
