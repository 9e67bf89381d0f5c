//! Packet blocks: what their numbers say of the record, and its bytes.
ghost use Rattle.std.specs.Prelude.{◌≡◌, ◌<◌, ◌≤◌, ◌*◌, ◌-◌, ◌^◌, IsTrue, IfOk, IfSome, length};
ghost use Rattle.rtp_io.specs.Outside.{SameDisk};
ghost use Rattle.pcapng_file.specs.Pieces.{AfterPart, HasStopCause};
ghost use Rattle.pcapng_file.specs.Options.{filled as filled_of};
ghost use Rattle.pcapng_file.specs.Blocks.{is_long as long_test, plan_in, simple_in, new_packet};
ghost use Rattle.pcapng_file.specs.Reading.{verdict_view, IsPacket};

use crate::content::Content;
use crate::fault::NgFault;
use crate::interface::Interface;
use crate::pieces::{Stop, filled, skip, take_filled};
use pcap_file::{MAX_LENGTH, PcapRecord};
use rtp_io::{Files, Pull};
use std::alloc::Global;

/// A packet record of a pcapng file.
#[derive(Debug, Drop)]
pub struct NgRecord {
    /// The link type of the frame: that of the packet's interface.
    pub link: u16,
    /// The record. Its offset is that of its block.
    pub rec: PcapRecord,
}

/// What the numbers of a packet block say of its record.
#[derive(Clone, Copy, Debug, PartialEq, Eq)]
pub(crate) struct Plan {
    pub link: u16,
    pub stamp: u64,
    /// How many bytes of the frame the record includes.
    pub captured: u32,
    /// How many bytes the frame had on the network.
    pub original: u32,
}

// The captured bytes are too many, or with those that fill them more than this room.
fn is_long(room: u32, captured: u32) -> bool
    ensures { result ≡ long_test room captured }
{
    captured > MAX_LENGTH || filled(captured) > room
}

/// The plan of a packet of this interface with this time, or its first fault. Its block has so much
/// room for the captured bytes.
pub(crate) fn plan_packet(
    offset: u64,
    room: u32,
    ticks: u64,
    captured: u32,
    original: u32,
    interface: Option<Interface>,
) -> Result<Plan, NgFault>
    requires { IfSome interface (λ i. 0 < i.units) }
    ensures plan { result ≡ plan_in offset room ticks captured original interface }
    ensures short { IfOk result (λ plan. plan.captured ≤ 262144) }
    ensures room { IfOk result (λ plan. filled_of plan.captured ≤ room) }
    ensures early { IfOk result (λ plan. plan.stamp < 2 ^ 32 * 1000000000) }
{
    let Some(interface) = interface else {
        return Err(NgFault::Interface(offset));
    };
    if is_long(room, captured) {
        return Err(NgFault::Length(offset));
    }
    match interface.stamp(ticks) {
        Some(stamp) => Ok(Plan {
            link: interface.link,
            stamp,
            captured,
            original,
        }),
        None => Err(NgFault::Time(offset)),
    }
}

/// The plan of a simple packet, where this was the stamp of the packet before, or its first fault.
pub(crate) fn plan_simple(
    offset: u64,
    stamp: u64,
    room: u32,
    original: u32,
    interface: Option<Interface>,
) -> Result<Plan, NgFault>
    requires { stamp < 2 ^ 32 * 1000000000 }
    ensures plan { result ≡ simple_in offset stamp room original interface }
    ensures short { IfOk result (λ plan. plan.captured ≤ 262144) }
    ensures room { IfOk result (λ plan. filled_of plan.captured ≤ room) }
    ensures early { IfOk result (λ plan. plan.stamp < 2 ^ 32 * 1000000000) }
{
    let Some(interface) = interface else {
        return Err(NgFault::Interface(offset));
    };
    let captured = if interface.snap == 0 {
        original
    } else {
        original.min(interface.snap)
    };
    if is_long(room, captured) {
        return Err(NgFault::Length(offset));
    }
    Ok(Plan {
        link: interface.link,
        stamp,
        captured,
        original,
    })
}

/// Reads the rest of a packet block up to the total length at its end: the captured bytes, and
/// options, which are passed over.
pub(crate) fn read_packet<F: Files>(
    alloc: Global,
    files: &mut F,
    pull: &mut Pull,
    offset: u64,
    room: u32,
    plan: Result<Plan, NgFault>,
) -> Result<Result<Content, NgFault>, Stop>
    requires short { IfOk plan (λ plan. plan.captured ≤ 262144) }
    requires room { IfOk plan (λ plan. filled_of plan.captured ≤ room) }
    requires early { IfOk plan (λ plan. plan.stamp < 2 ^ 32 * 1000000000) }
    requires countable { F.faults files.old < 2 ^ 64 - 1 }
    ensures same { SameDisk (F.disk files.old) (F.disk files.new) }
    ensures opened { IsTrue (F.disk files.old).told →
        (F.disk files.new).opened ≡ (F.disk files.old).opened }
    ensures bound { length pull.old ≤ 262160 → length pull.new ≤ 262160 }
    ensures after { AfterPart (λ said taken. verdict_view said ≡ new_packet offset taken plan) room
        result pull.old pull.new (F.disk files.old) (F.disk files.new) }
    ensures cause { HasStopCause (F.faults files.old) (F.faults files.new) result }
    ensures short { IfOk result (λ said. IfOk said IsPacket) }
{
    let plan = match plan {
        Ok(plan) => plan,
        Err(fault) => {
            skip(files, pull, room)?;
            return Ok(Err(fault));
        }
    };
    let bytes = take_filled(alloc, files, pull, plan.captured)?;
    skip(files, pull, room - filled(plan.captured))?;
    Ok(Ok(Content::Packet(NgRecord {
        link: plan.link,
        rec: PcapRecord {
            offset,
            stamp: plan.stamp,
            original: plan.original,
            bytes,
        },
    })))
}
