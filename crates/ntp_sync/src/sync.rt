//! The last report of each lane.
ghost use Rattle.std.specs.Prelude.{◌≡◌, ◌<◌, ◌^◌, ℕ, [], ◌∷◌, List, IfOk, OnErr, OnOk};
ghost use Rattle.ntp_sync.specs.Offsets.{Call, delta_of, last_report, StandsFor, AreOffsets};

use crate::offsets::{least_delta, offsets_from};
use rtp_units::{Blob, OutOfMemory, SyncInfo};
use std::alloc::Global;
use std::collections::BTreeMap;
use std::marker::Model;

/// A lane's last report: the CNAME of its source, and how far its NTP time is ahead of its local time, in
/// nanoseconds.
#[derive(Debug, Drop)]
pub struct LaneReport {
    pub(crate) cname: Blob,
    pub(crate) delta: i64,
}

/// The last report of each lane. Contracts see the reports by their lanes, in order.
#[derive(Drop)]
pub struct LaneSync {
    reports: BTreeMap<u8, LaneReport>,
}

impl Model for LaneSync {
    ghost use Rattle.std.specs.Prelude.{ℕ, List};
    ghost use Rattle.ntp_sync.specs.declared.sync.LaneReport.{LaneReport};

    ghost Value = { List (ℕ × LaneReport) };

    ghost view = { λ s. s.reports.entries };
}

impl LaneSync {
    /// No report.
    pub fn new(alloc: Global) -> Result<LaneSync, OutOfMemory>
        ensures { IfOk result (λ s. StandsFor s []) }
    {
        Ok(LaneSync {
            reports: BTreeMap::new(alloc),
        })
    }

    /// Keeps a lane's report in place of the one before: the CNAME of its source, and a sender report
    /// against the lane's clock, both times below 2^63 nanoseconds. After a refusal all is as before.
    pub fn report(
        &mut self,
        alloc: Global,
        lane: u8,
        cname: &[u8],
        info: SyncInfo,
    ) -> Result<(), OutOfMemory>
        requires ntp { info.ntp_ns < 2 ^ 63 }
        requires local { info.local < 2 ^ 63 }
        ensures stands { OnOk result ((calls : List Call) → StandsFor self.old calls
            → StandsFor self.new (record { lane = lane; cname = cname.now; info = info } ∷ calls)) }
        ensures err { OnErr result (self.new ≡ self.old) }
    {
        let report = LaneReport {
            cname: Blob::copy_of(alloc, cname)?,
            delta: delta(&info),
        };
        self.reports.insert(lane, report)?;
        Ok(())
    }

    /// The lanes whose last report has this CNAME, in order. A lane's offset, in nanoseconds, is its delta
    /// (the report's NTP time less its local time) less the least delta of these lanes.
    pub fn offsets(&self, alloc: Global, cname: &[u8]) -> Result<Vec<(u8, u64)>, OutOfMemory>
        ensures { IfOk result (λ offsets. (calls : List Call) → StandsFor self.now calls
            → AreOffsets (last_report calls) cname.now offsets.items) }
    {
        match least_delta(&self.reports, cname) {
            None => Ok(Vec::new(alloc)),
            Some(least) => offsets_from(alloc, &self.reports, cname, least),
        }
    }
}

fn delta(info: &SyncInfo) -> i64
    requires ntp { info.now.ntp_ns < 2 ^ 63 }
    requires local { info.now.local < 2 ^ 63 }
    ensures { result ≡ delta_of info.now }
{
    info.ntp_ns as i64 - info.local as i64
}
