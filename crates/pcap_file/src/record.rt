//! One record of a capture.
ghost use Rattle.std.specs.Prelude.{◌≡◌, ◌≤◌, ◌<◌, ◌-◌, ◌^◌, IsTrue, length};
ghost use Rattle.rtp_io.specs.Outside.{SameDisk};
ghost use Rattle.pcap_file.specs.Numbers.{number_at};
ghost use Rattle.pcap_file.specs.Capture.{fraction_limit as limit_of, fraction_unit as unit_of};
ghost use Rattle.pcap_file.specs.Faults.{HasCaptureCause};
ghost use Rattle.pcap_file.specs.Reading.{AfterRecord};

use crate::fault::CaptureFault;
use crate::header::Format;
use crate::order::Order;
use rtp_io::{Files, Pull, PullFault};
use rtp_units::Blob;
use std::alloc::Global;

/// The most records of a capture.
pub const MAX_RECORDS: u64 = 100_000_000;

/// The most bytes of a frame that a record includes.
pub const MAX_LENGTH: u32 = 262_144;

/// A record of a capture.
#[derive(Debug, Drop)]
pub struct PcapRecord {
    /// Where the record begins in the file.
    pub offset: u64,
    /// When the frame was captured, in nanoseconds.
    pub stamp: u64,
    /// How many bytes the frame had on the network.
    pub original: u32,
    /// The bytes of the frame that the record includes, from its front.
    pub bytes: Blob,
}

/// Reads the record at a place: so many records came before, and it begins at this offset of the file.
pub(crate) fn read_record<F: Files>(
    alloc: Global,
    files: &mut F,
    pull: &mut Pull,
    format: Format,
    count: u64,
    offset: u64,
) -> Result<Option<PcapRecord>, CaptureFault>
    requires countable { F.faults files.old < 2 ^ 64 - 1 }
    ensures same { SameDisk (F.disk files.old) (F.disk files.new) }
    ensures opened { IsTrue (F.disk files.old).told
        → (F.disk files.new).opened ≡ (F.disk files.old).opened }
    ensures bound { length pull.new ≤ 262160 }
    ensures after { AfterRecord result format count offset pull.old pull.new (F.disk files.old)
        (F.disk files.new) }
    ensures cause { HasCaptureCause (F.faults files.old) (F.faults files.new) result }
{
    let fields = match pull.need(files, 16) {
        Ok(bytes) => fields_of(format.order, bytes),
        Err(PullFault::End { have }) => {
            if have == 0 {
                return Ok(None);
            }
            if count >= MAX_RECORDS {
                return Err(CaptureFault::TooMany(offset));
            }
            return Err(CaptureFault::CutRecord(offset));
        }
        Err(PullFault::ReadFault) => return Err(CaptureFault::ReadFault),
    };
    if count >= MAX_RECORDS {
        return Err(CaptureFault::TooMany(offset));
    }
    if fields.length > MAX_LENGTH {
        return Err(CaptureFault::Length(offset));
    }
    if fields.fraction >= fraction_limit(format) {
        return Err(CaptureFault::Fraction(offset));
    }
    match pull.need(files, fields.length as usize) {
        Ok(bytes) => Ok(Some(PcapRecord {
            offset,
            stamp: u64::from(fields.seconds) * 1_000_000_000
                + u64::from(fields.fraction) * fraction_unit(format),
            original: fields.original,
            bytes: Blob::copy_of(alloc, bytes)?,
        })),
        Err(PullFault::End { .. }) => Err(CaptureFault::CutRecord(offset)),
        Err(PullFault::ReadFault) => Err(CaptureFault::ReadFault),
    }
}

// A second, in units of a stamp's fraction.
fn fraction_limit(format: Format) -> u32
    ensures { result ≡ limit_of format }
{
    if format.nanoseconds {
        1_000_000_000
    } else {
        1_000_000
    }
}

// Such a unit, in nanoseconds.
fn fraction_unit(format: Format) -> u64
    ensures unit { result ≡ unit_of format }
    ensures small { result ≤ 1000 }
{
    if format.nanoseconds { 1 } else { 1000 }
}

// The numbers in front of a record's bytes.
#[derive(Clone, Copy)]
struct Fields {
    seconds: u32,
    fraction: u32,
    length: u32,
    original: u32,
}

fn fields_of(order: Order, bytes: &[u8]) -> Fields
    requires { length bytes.now ≡ 16 }
    ensures small { result.seconds < 2 ^ 32 }
    ensures seconds { result.seconds ≡ number_at order 4 0 bytes.now }
    ensures fraction { result.fraction ≡ number_at order 4 4 bytes.now }
    ensures length { result.length ≡ number_at order 4 8 bytes.now }
    ensures original { result.original ≡ number_at order 4 12 bytes.now }
{
    Fields {
        seconds: order.number32(bytes, 0),
        fraction: order.number32(bytes, 4),
        length: order.number32(bytes, 8),
        original: order.number32(bytes, 12),
    }
}
