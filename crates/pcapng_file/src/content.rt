//! What a block says, read up to the total length at its end.
ghost use Rattle.std.specs.Prelude.{◌≡◌, ◌<◌, ◌≤◌, ◌+◌, ◌-◌, ◌^◌, ◌++◌, ◌⊎◌, IsTrue, IfOk, length};
ghost use Rattle.rtp_io.specs.Outside.{SameDisk};
ghost use Rattle.pcap_file.specs.Numbers.{number_at};
ghost use Rattle.pcapng_file.specs.Pieces.{AfterPart, HasStopCause};
ghost use Rattle.pcapng_file.specs.Blocks.{least_of};
ghost use Rattle.pcapng_file.specs.Reading.{SaysBlock, CanFollow, IsFrontOf};

use crate::fault::NgFault;
use crate::frame::{Frame, Kind};
use crate::interface::{Interface, make_interface};
use crate::mark::Mark;
use crate::options::read_options;
use crate::packet::{NgRecord, plan_packet, plan_simple, read_packet};
use crate::pieces::{Stop, skip, take};
use pcap_file::Order;
use rtp_io::{Files, Pull};
use std::alloc::Global;

/// What a block says.
#[derive(Debug, Drop)]
pub(crate) enum Content {
    /// A section begins.
    Section,
    /// The section has one more interface.
    Interface(Interface),
    /// A packet was captured.
    Packet(NgRecord),
    /// Nothing that is looked at.
    Other,
}

/// Reads a block behind its front up to the total length at its end, and answers what it says, or
/// its first fault. A fault comes only once the end of the block was seen, so it is a part of the
/// answer.
pub(crate) fn read_content<F: Files>(
    alloc: Global,
    files: &mut F,
    pull: &mut Pull,
    mark: &Mark,
    frame: Frame,
    front: &[u8],
) -> Result<Result<Content, NgFault>, Stop>
    requires long { 16 ≤ frame.total }
    requires least { least_of frame.kind ≤ frame.total }
    requires front { IsFrontOf frame.kind (length front.now) }
    requires countable { F.faults files.old < 2 ^ 64 - 1 }
    ensures same { SameDisk (F.disk files.old) (F.disk files.new) }
    ensures opened { IsTrue (F.disk files.old).told →
        (F.disk files.new).opened ≡ (F.disk files.old).opened }
    ensures bound { length pull.old ≤ 262160 → length pull.new ≤ 262160 }
    ensures after { AfterPart (SaysBlock mark.now frame front.now)
        (frame.total - 4 - length front.now) result pull.old pull.new
        (F.disk files.old) (F.disk files.new) }
    ensures cause { HasStopCause (F.faults files.old) (F.faults files.new) result }
    ensures sound { IfOk result (λ said. IfOk said (CanFollow mark.now)) }
{
    match frame.kind {
        Kind::Section => read_section(files, pull, mark, frame, front),
        Kind::Interface => read_interface(files, pull, mark, frame, front),
        Kind::Packet => read_enhanced(alloc, files, pull, mark, frame, front),
        Kind::Simple => read_simple(alloc, files, pull, mark, frame, front),
        Kind::Other => {
            skip(files, pull, frame.total - 16)?;
            Ok(Ok(Content::Other))
        }
    }
}

// A section header: its version is looked at, and its options are passed over.
fn read_section<F: Files>(
    files: &mut F,
    pull: &mut Pull,
    mark: &Mark,
    frame: Frame,
    front: &[u8],
) -> Result<Result<Content, NgFault>, Stop>
    requires kind { frame.kind ≡ Kind.Section }
    requires least { 28 ≤ frame.total }
    requires front { (length front.now ≡ 12) ⊎ (length front.now ≡ 24) }
    requires countable { F.faults files.old < 2 ^ 64 - 1 }
    ensures same { SameDisk (F.disk files.old) (F.disk files.new) }
    ensures opened { IsTrue (F.disk files.old).told →
        (F.disk files.new).opened ≡ (F.disk files.old).opened }
    ensures bound { length pull.old ≤ 262160 → length pull.new ≤ 262160 }
    ensures after { AfterPart (SaysBlock mark.now frame front.now)
        (frame.total - 4 - length front.now) result pull.old pull.new
        (F.disk files.old) (F.disk files.new) }
    ensures cause { HasStopCause (F.faults files.old) (F.faults files.new) result }
    ensures sound { IfOk result (λ said. IfOk said (CanFollow mark.now)) }
{
    let size = frame.total - 4 - front.len() as u32;
    let major = read_version(files, pull, frame.order, front, size)?;
    if major != 1 {
        return Ok(Err(NgFault::Version(mark.offset())));
    }
    Ok(Ok(Content::Section))
}

// Reads a section header behind its front, and answers the major version, which may stand in the
// front.
fn read_version<F: Files>(
    files: &mut F,
    pull: &mut Pull,
    order: Order,
    front: &[u8],
    size: u32,
) -> Result<u16, Stop>
    requires front { (length front.now ≡ 12) ⊎ (length front.now ≡ 24) }
    requires size { 28 ≤ size + 4 + length front.now }
    requires countable { F.faults files.old < 2 ^ 64 - 1 }
    ensures same { SameDisk (F.disk files.old) (F.disk files.new) }
    ensures opened { IsTrue (F.disk files.old).told →
        (F.disk files.new).opened ≡ (F.disk files.old).opened }
    ensures bound { length pull.old ≤ 262160 → length pull.new ≤ 262160 }
    ensures after { AfterPart (λ major taken. major ≡ number_at order 2 12 (front.now ++ taken))
        size result pull.old pull.new (F.disk files.old) (F.disk files.new) }
    ensures cause { HasStopCause (F.faults files.old) (F.faults files.new) result }
{
    if front.len() < 16 {
        let version: [u8; 4] = take(files, pull)?;
        skip(files, pull, size - 4)?;
        Ok(order.number16(&version, 0))
    } else {
        skip(files, pull, size)?;
        Ok(order.number16(front, 12))
    }
}

fn read_interface<F: Files>(
    files: &mut F,
    pull: &mut Pull,
    mark: &Mark,
    frame: Frame,
    front: &[u8],
) -> Result<Result<Content, NgFault>, Stop>
    requires kind { frame.kind ≡ Kind.Interface }
    requires least { 20 ≤ frame.total }
    requires front { length front.now ≡ 12 }
    requires countable { F.faults files.old < 2 ^ 64 - 1 }
    ensures same { SameDisk (F.disk files.old) (F.disk files.new) }
    ensures opened { IsTrue (F.disk files.old).told →
        (F.disk files.new).opened ≡ (F.disk files.old).opened }
    ensures bound { length pull.old ≤ 262160 → length pull.new ≤ 262160 }
    ensures after { AfterPart (SaysBlock mark.now frame front.now) (frame.total - 16)
        result pull.old pull.new (F.disk files.old) (F.disk files.new) }
    ensures cause { HasStopCause (F.faults files.old) (F.faults files.new) result }
    ensures sound { IfOk result (λ said. IfOk said (CanFollow mark.now)) }
{
    let order = frame.order;
    let snap: [u8; 4] = take(files, pull)?;
    let said = read_options(files, pull, order, frame.total - 20)?;
    let made = make_interface(
        mark.offset(),
        mark.count_interfaces(),
        order.number16(front, 8),
        order.number32(&snap, 0),
        said,
    );
    match made {
        Ok(interface) => Ok(Ok(Content::Interface(interface))),
        Err(fault) => Ok(Err(fault)),
    }
}

// A packet with its interface and its time.
fn read_enhanced<F: Files>(
    alloc: Global,
    files: &mut F,
    pull: &mut Pull,
    mark: &Mark,
    frame: Frame,
    front: &[u8],
) -> Result<Result<Content, NgFault>, Stop>
    requires kind { frame.kind ≡ Kind.Packet }
    requires least { 32 ≤ frame.total }
    requires front { length front.now ≡ 12 }
    requires countable { F.faults files.old < 2 ^ 64 - 1 }
    ensures same { SameDisk (F.disk files.old) (F.disk files.new) }
    ensures opened { IsTrue (F.disk files.old).told →
        (F.disk files.new).opened ≡ (F.disk files.old).opened }
    ensures bound { length pull.old ≤ 262160 → length pull.new ≤ 262160 }
    ensures after { AfterPart (SaysBlock mark.now frame front.now) (frame.total - 16)
        result pull.old pull.new (F.disk files.old) (F.disk files.new) }
    ensures cause { HasStopCause (F.faults files.old) (F.faults files.new) result }
    ensures sound { IfOk result (λ said. IfOk said (CanFollow mark.now)) }
{
    let order = frame.order;
    let fields: [u8; 16] = take(files, pull)?;
    let ticks = u64::from(order.number32(&fields, 0)) * 4_294_967_296
        + u64::from(order.number32(&fields, 4));
    let room = frame.total - 32;
    let plan = plan_packet(
        mark.offset(),
        room,
        ticks,
        order.number32(&fields, 8),
        order.number32(&fields, 12),
        mark.interface(order.number32(front, 8)),
    );
    read_packet(alloc, files, pull, mark.offset(), room, plan)
}

// A packet of the first interface, without a time.
fn read_simple<F: Files>(
    alloc: Global,
    files: &mut F,
    pull: &mut Pull,
    mark: &Mark,
    frame: Frame,
    front: &[u8],
) -> Result<Result<Content, NgFault>, Stop>
    requires kind { frame.kind ≡ Kind.Simple }
    requires least { 16 ≤ frame.total }
    requires front { length front.now ≡ 12 }
    requires countable { F.faults files.old < 2 ^ 64 - 1 }
    ensures same { SameDisk (F.disk files.old) (F.disk files.new) }
    ensures opened { IsTrue (F.disk files.old).told →
        (F.disk files.new).opened ≡ (F.disk files.old).opened }
    ensures bound { length pull.old ≤ 262160 → length pull.new ≤ 262160 }
    ensures after { AfterPart (SaysBlock mark.now frame front.now) (frame.total - 16)
        result pull.old pull.new (F.disk files.old) (F.disk files.new) }
    ensures cause { HasStopCause (F.faults files.old) (F.faults files.new) result }
    ensures sound { IfOk result (λ said. IfOk said (CanFollow mark.now)) }
{
    let room = frame.total - 16;
    let original = frame.order.number32(front, 8);
    let plan = plan_simple(
        mark.offset(),
        mark.stamp(),
        room,
        original,
        mark.interface(0),
    );
    read_packet(alloc, files, pull, mark.offset(), room, plan)
}
