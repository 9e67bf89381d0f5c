//! One block of a file.
ghost use Rattle.std.specs.Prelude.{◌≡◌, ◌<◌, ◌≤◌, ◌*◌, ◌-◌, ◌^◌, ◌==◌, ◌%◌, if◌then◌else◌, IsTrue};
ghost use Rattle.std.specs.Prelude.{IfOk, IfSome, length};
ghost use Rattle.rtp_io.specs.Outside.{SameDisk};
ghost use Rattle.pcapng_file.specs.Faults.{HasNgCause};
ghost use Rattle.pcap_file.specs.Numbers.{number_at};
ghost use Rattle.pcapng_file.specs.Faults.{stop_fault};
ghost use Rattle.pcapng_file.specs.Blocks.{least_of};
ghost use Rattle.pcapng_file.specs.Reading.{AfterStep, AfterBlock, AfterWhole, AfterFront, IsFront};
ghost use Rattle.pcapng_file.specs.Reading.{IsFrontOf, IsSmallStep, CanFollow};

use crate::content::{Content, read_content};
use crate::fault::NgFault;
use crate::frame::{Frame, read_frame};
use crate::mark::Mark;
use crate::packet::NgRecord;
use crate::pieces::{Stop, take};
use rtp_io::{Files, Pull, PullFault};
use std::alloc::Global;

/// The bytes of the front of a block, and of a block that has no others.
const FRONT: u32 = 12;

/// What reading a block led to.
pub(crate) enum Step {
    /// The end of the file.
    End,
    /// A block without a record.
    Passed,
    /// A record.
    Found(NgRecord),
}

/// Reads the block at the mark, and moves the mark behind it.
pub(crate) fn read_block<F: Files>(
    alloc: Global,
    files: &mut F,
    pull: &mut Pull,
    mark: &mut Mark,
) -> Result<Step, NgFault>
    requires countable { F.faults files.old < 2 ^ 64 - 1 }
    ensures same { SameDisk (F.disk files.old) (F.disk files.new) }
    ensures opened { IsTrue (F.disk files.old).told →
        (F.disk files.new).opened ≡ (F.disk files.old).opened }
    ensures bound { length pull.old ≤ 262160 → length pull.new ≤ 262160 }
    ensures after { AfterStep result mark.old mark.new pull.old pull.new (F.disk files.old)
        (F.disk files.new) }
    ensures cause { HasNgCause (F.faults files.old) (F.faults files.new) result }
    ensures small { IfOk result IsSmallStep }
{
    let front = match read_front(files, pull, mark.offset())? {
        Some(front) => front,
        None => return Ok(Step::End),
    };
    match read_behind(alloc, files, pull, mark, &front)? {
        Some(record) => Ok(Step::Found(record)),
        None => Ok(Step::Passed),
    }
}

// The front of the block at this offset, and `None` at the end of the file.
fn read_front<F: Files>(
    files: &mut F,
    pull: &mut Pull,
    offset: u64,
) -> Result<Option<[u8; 12]>, NgFault>
    requires countable { F.faults files.old < 2 ^ 64 - 1 }
    ensures same { SameDisk (F.disk files.old) (F.disk files.new) }
    ensures opened { IsTrue (F.disk files.old).told →
        (F.disk files.new).opened ≡ (F.disk files.old).opened }
    ensures bound { length pull.old ≤ 262160 → length pull.new ≤ 262160 }
    ensures after { AfterFront result offset pull.old pull.new (F.disk files.old)
        (F.disk files.new) }
    ensures cause { HasNgCause (F.faults files.old) (F.faults files.new) result }
{
    match pull.need(files, 12) {
        Ok(bytes) => {
            let mut front = [0; 12];
            front.copy_from_slice(bytes);
            Ok(Some(front))
        }
        Err(PullFault::End { have: 0 }) => Ok(None),
        Err(PullFault::End { .. }) => Err(NgFault::CutBlock(offset)),
        Err(PullFault::ReadFault) => Err(NgFault::ReadFault),
    }
}

/// Reads the block at the mark, of which these first bytes were taken before, and moves the mark
/// behind it. It gives the record, if the block has one.
pub(crate) fn read_behind<F: Files>(
    alloc: Global,
    files: &mut F,
    pull: &mut Pull,
    mark: &mut Mark,
    front: &[u8],
) -> Result<Option<NgRecord>, NgFault>
    requires front { IsFront front.now }
    requires countable { F.faults files.old < 2 ^ 64 - 1 }
    ensures same { SameDisk (F.disk files.old) (F.disk files.new) }
    ensures opened { IsTrue (F.disk files.old).told →
        (F.disk files.new).opened ≡ (F.disk files.old).opened }
    ensures bound { length pull.old ≤ 262160 → length pull.new ≤ 262160 }
    ensures after { AfterBlock result mark.old mark.new front.now pull.old pull.new
        (F.disk files.old) (F.disk files.new) }
    ensures cause { HasNgCause (F.faults files.old) (F.faults files.new) result }
    ensures short { IfOk result (λ found. IfSome found (λ r. length r.rec.bytes ≤ 262144)) }
    ensures early { IfOk result (λ found. IfSome found (λ r. r.rec.stamp < 2 ^ 32 * 1000000000)) }
{
    let frame = read_frame(mark.order(), mark.offset(), &front[..12])?;
    let content = read_whole(alloc, files, pull, mark, frame, front)?;
    mark.count(frame, content)
}

// Reads a block behind its front, and answers what it says.
fn read_whole<F: Files>(
    alloc: Global,
    files: &mut F,
    pull: &mut Pull,
    mark: &Mark,
    frame: Frame,
    front: &[u8],
) -> Result<Content, NgFault>
    requires least { least_of frame.kind ≤ frame.total }
    requires whole { frame.total % 4 ≡ 0 }
    requires front { IsFrontOf frame.kind (length front.now) }
    requires countable { F.faults files.old < 2 ^ 64 - 1 }
    ensures same { SameDisk (F.disk files.old) (F.disk files.new) }
    ensures opened { IsTrue (F.disk files.old).told →
        (F.disk files.new).opened ≡ (F.disk files.old).opened }
    ensures bound { length pull.old ≤ 262160 → length pull.new ≤ 262160 }
    ensures after { AfterWhole result mark.now frame front.now pull.old pull.new (F.disk files.old)
        (F.disk files.new) }
    ensures cause { HasNgCause (F.faults files.old) (F.faults files.new) result }
    ensures sound { IfOk result (CanFollow mark.now) }
{
    if frame.total == FRONT {
        return read_empty(mark.offset(), frame, front);
    }
    match read_content(alloc, files, pull, mark, frame, front) {
        Ok(verdict) => match take::<F, 4>(files, pull) {
            Ok(end) => ended(mark.offset(), frame, &end, verdict),
            Err(stop) => Err(fault_at(mark.offset(), stop)),
        },
        Err(stop) => Err(fault_at(mark.offset(), stop)),
    }
}

// A block that is its front alone, whose total length stands again in the last four bytes.
fn read_empty(offset: u64, frame: Frame, front: &[u8]) -> Result<Content, NgFault>
    requires { length front.now ≡ 12 }
    ensures { result ≡ (if number_at frame.order 4 8 front.now == frame.total then Ok Content.Other
        else Err (NgFault.Block offset)) }
{
    if frame.order.number32(front, 8) != frame.total {
        return Err(NgFault::Block(offset));
    }
    Ok(Content::Other)
}

// What a block says whose last four bytes are these.
fn ended(
    offset: u64,
    frame: Frame,
    end: &[u8],
    verdict: Result<Content, NgFault>,
) -> Result<Content, NgFault>
    requires { length end.now ≡ 4 }
    ensures { result ≡ (if number_at frame.order 4 0 end.now == frame.total then verdict
        else Err (NgFault.Block offset)) }
{
    if frame.order.number32(end, 0) != frame.total {
        return Err(NgFault::Block(offset));
    }
    verdict
}

fn fault_at(offset: u64, stop: Stop) -> NgFault
    ensures { result ≡ stop_fault offset stop }
{
    match stop {
        Stop::Cut => NgFault::CutBlock(offset),
        Stop::ReadFault => NgFault::ReadFault,
        Stop::OutOfMemory => NgFault::OutOfMemory,
    }
}
