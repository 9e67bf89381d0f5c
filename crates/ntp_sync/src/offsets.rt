//! Offsets, by the reports of lanes in order.
ghost use Rattle.std.specs.Prelude.{◌≡◌, ℤ, ◌≤ℤ◌, ◌-ℤ◌, IfOk};
ghost use Rattle.std.specs.BTreeMap.{values, IsOrdered};
ghost use Rattle.std.specs.Ordering.{nat_cmp};
ghost use Rattle.ntp_sync.specs.Found.{is_named, lesser as lesser_of, least_in, natural, offsets_in, AreAbove};

use crate::sync::LaneReport;
use rtp_units::OutOfMemory;
use std::alloc::Global;
use std::collections::BTreeMap;

/// The least delta of the reports with this CNAME, if there is one.
pub(crate) fn least_delta(reports: &BTreeMap<u8, LaneReport>, cname: &[u8]) -> Option<i64>
    ensures value { result ≡ least_in cname.now (values reports.now) }
    ensures ordered { IsOrdered nat_cmp reports.now }
{
    let mut least = None;
    for report in reports.values() {
        if has_name(report, cname) {
            least = lesser(least, report.delta);
        }
    }
    least
}

/// The lanes of the reports with this CNAME, each with how far its delta is above the least.
pub(crate) fn offsets_from(
    alloc: Global,
    reports: &BTreeMap<u8, LaneReport>,
    cname: &[u8],
    least: i64,
) -> Result<Vec<(u8, u64)>, OutOfMemory>
    requires { AreAbove cname.now least reports.now.entries }
    ensures { IfOk result (λ offsets. offsets.items
        ≡ offsets_in cname.now least reports.now.entries) }
{
    let mut offsets = Vec::new(alloc);
    for (lane, report) in reports.iter() {
        if has_name(report, cname) {
            offsets.push((*lane, above(report.delta, least)))?;
        }
    }
    Ok(offsets)
}

fn has_name(report: &LaneReport, cname: &[u8]) -> bool
    ensures { result ≡ is_named cname.now report.now }
{
    report.cname.bytes() == cname
}

fn lesser(least: Option<i64>, delta: i64) -> Option<i64>
    ensures { result ≡ lesser_of least delta }
{
    match least {
        None => Some(delta),
        Some(least) => Some(least.min(delta)),
    }
}

/// How far a delta is above the least.
fn above(delta: i64, least: i64) -> u64
    requires { least ≤ℤ delta }
    ensures { result ≡ natural (delta -ℤ least) }
{
    (i128::from(delta) - i128::from(least)) as u64
}
