//! The records of the capture, one after the other.
ghost use Rattle.std.specs.Prelude.{◌≡◌, ◌≤◌, ◌<◌, ◌+◌, ◌*◌, ◌%◌, ◌^◌, ◌++◌, length};
ghost use Rattle.std.specs.Prelude.{IfOk, OnOk, true, false};
ghost use Rattle.rtp_wire.specs.Written.{spelling};
ghost use Rattle.generated_capture.specs.Generated.{generated, packet_of, payload_of, plain_packet};
ghost use Rattle.generated_capture.specs.Generated.{number_of as number_at};
ghost use Rattle.generated_capture.specs.Taking.{TakesNext};

use crate::deliveries::Deliveries;
use crate::delivery::Delivery;
use arrayvec::ArrayVec;
use loopback_frame::loopback_frame;
use pcap_file::PcapRecord;
use rtp_units::{Blob, OutOfMemory};
use rtp_wire::{RtpFields, push_u16, write};
use std::alloc::Global;
use std::marker::Model;

/// The port of the packets of RTP.
pub(crate) const PORT: u16 = 5004;

/// The bytes of a capture's header, and those in front of each frame.
const FILE_HEADER: u64 = 24;

const RECORD_HEADER: u64 = 16;

/// The bytes of a packet's payload.
const PAYLOAD: usize = 100;

/// The records that are still to come. Contracts see their list.
#[derive(Drop)]
pub struct Capture {
    first: u16,
    deliveries: Deliveries,
    offset: u64,
}

impl Model for Capture {
    ghost use Rattle.std.specs.Prelude.{◌<◌, ◌+◌, ◌*◌, ◌^◌, List, length, map};
    ghost use Rattle.pcap_file.specs.Capture.{Record};
    ghost use Rattle.pcap_file.specs.Writing.{records_at};
    ghost use Rattle.generated_capture.specs.Generated.{frame_in};

    ghost Value = { List Record };

    ghost view = { λ c. records_at 101 c.offset (map (frame_in c.first) c.deliveries) };

    ghost invariant = { λ c. c.offset + 200 * length c.deliveries < 2 ^ 63 };
}

impl Capture {
    /// All records of a series of `count` packets, at most 1,000,000, that begins with this number.
    pub fn new(first: u16, count: u32) -> Capture
        requires { count ≤ 1000000 }
        ensures all { result ≡ generated first count }
        ensures few { length result ≤ 3 * count }
    {
        Capture {
            first,
            deliveries: Deliveries::new(count),
            offset: FILE_HEADER,
        }
    }

    /// The next record, if there is one.
    pub fn next(&mut self, alloc: Global) -> Result<Option<PcapRecord>, OutOfMemory>
        ensures { IfOk result (λ found. TakesNext found self.old self.new) }
    {
        let Some(delivery) = self.deliveries.take_first() else {
            return Ok(None);
        };
        let packet = packet_bytes(alloc, self.first, &delivery)?;
        let frame = loopback_frame(alloc, PORT, packet.bytes())?;
        let rec = record_at(self.offset, delivery.time, frame);
        self.offset += RECORD_HEADER + u64::from(rec.original);
        Ok(Some(rec))
    }
}

fn record_at(offset: u64, stamp: u64, frame: Blob) -> PcapRecord
    requires { length frame ≤ 142 }
    ensures { result
        ≡ record { offset = offset; stamp = stamp; original = length frame; bytes = frame } }
{
    let original = frame.bytes().len() as u32;
    PcapRecord {
        offset,
        stamp,
        original,
        bytes: frame,
    }
}

fn packet_bytes(alloc: Global, first: u16, delivery: &Delivery) -> Result<Blob, OutOfMemory>
    ensures value { IfOk result (λ bytes.
        bytes ≡ spelling (packet_of first delivery.now.is_retransmission delivery.now.index)) }
    ensures size { IfOk result (λ bytes. length bytes ≤ 114) }
{
    if delivery.is_retransmission {
        retransmission_bytes(alloc, first, delivery.index)
    } else {
        original_bytes(alloc, first, delivery.index)
    }
}

fn original_bytes(alloc: Global, first: u16, index: u32) -> Result<Blob, OutOfMemory>
    ensures value { IfOk result (λ bytes. bytes ≡ spelling (packet_of first false index)) }
    ensures size { IfOk result (λ bytes. length bytes ≤ 114) }
{
    let mut payload = Vec::with_capacity(alloc, PAYLOAD)?;
    push_payload(&mut payload, first, index)?;
    packet(
        alloc,
        96,
        number_of(first, index),
        index,
        0x1234_5678,
        payload.as_slice(),
    )
}

fn retransmission_bytes(alloc: Global, first: u16, index: u32) -> Result<Blob, OutOfMemory>
    ensures value { IfOk result (λ bytes. bytes ≡ spelling (packet_of first true index)) }
    ensures size { IfOk result (λ bytes. length bytes ≤ 114) }
{
    let mut payload = Vec::with_capacity(alloc, 2 + PAYLOAD)?;
    push_u16(&mut payload, number_of(first, index))?;
    push_payload(&mut payload, first, index)?;
    let own = (index / 200 % 65536) as u16;
    packet(alloc, 97, own, index, 0x8765_4321, payload.as_slice())
}

/// A packet of RTP that was sent with the packet of this place in the series.
fn packet(
    alloc: Global,
    pt: u8,
    seq: u16,
    index: u32,
    ssrc: u32,
    payload: &[u8],
) -> Result<Blob, OutOfMemory>
    requires { pt < 128 }
    ensures value { IfOk result (λ bytes.
        bytes ≡ spelling (plain_packet pt seq (90 * index % 2 ^ 32) ssrc payload.now)) }
    ensures size { IfOk result (λ bytes. length bytes ≡ 12 + length payload.now) }
{
    write(
        alloc,
        &RtpFields {
            marker: false,
            pt,
            seq,
            timestamp: index.wrapping_mul(90),
            ssrc,
            csrcs: ArrayVec::new(),
            extension: None,
            payload,
        },
    )
}

fn number_of(first: u16, index: u32) -> u16
    ensures { result ≡ number_at first index }
{
    ((u64::from(first) + u64::from(index)) % 65536) as u16
}

fn push_payload(out: &mut Vec<u8>, first: u16, index: u32) -> Result<(), OutOfMemory>
    ensures { OnOk result (out.new.items ≡ out.old.items ++ payload_of first index) }
{
    let byte = ((u64::from(first) + u64::from(index)) % 256) as u8;
    out.extend_from_slice(&[byte; PAYLOAD])?;
    Ok(())
}
