//! The bodies of reports and of feedback.
ghost use Rattle.std.specs.Prelude.{◌≡◌, ◌≤◌, ◌+◌, ◌-◌, ◌*◌, ◌/◌, length, IfOk};
ghost use Rattle.rtcp_wire.specs.Bodies.{signed24, block_at, blocks_at, entries_at, sr_of, rr_of, app_of, nacks_of, feedback_of};

use crate::block::ReportBlock;
use crate::items::Items;
use crate::packet::{Nack, Rtcp};
use arrayvec::ArrayVec;
use byteorder::{BigEndian, ByteOrder};
use rtp_units::{Blob, OutOfMemory};
use rtp_wire::{u16_at, u32_at};
use std::alloc::Global;

/// Bytes of a report block.
const BLOCK_SIZE: usize = 24;

/// Bytes of a sender report before its blocks.
const SENDER_SIZE: usize = 24;

/// Bytes of a receiver report before its blocks.
const RECEIVER_SIZE: usize = 4;

/// Bytes before the rest of a feedback packet or an application's packet.
const FEEDBACK_SIZE: usize = 8;

fn read_block(bytes: &[u8], at: usize) -> ReportBlock
    requires { at + 24 ≤ length bytes.now }
    ensures { result ≡ block_at bytes.now at }
{
    ReportBlock {
        ssrc: u32_at(bytes, at),
        fraction: bytes[at + 4],
        lost: i24_at(bytes, at + 5),
        greatest: u32_at(bytes, at + 8),
        jitter: u32_at(bytes, at + 12),
        lsr: u32_at(bytes, at + 16),
        dlsr: u32_at(bytes, at + 20),
    }
}

fn i24_at(bytes: &[u8], at: usize) -> i32
    requires { at + 3 ≤ length bytes.now }
    ensures { result ≡ signed24 bytes.now at }
{
    BigEndian::read_i24(&bytes[at..at + 3])
}

fn read_blocks(bytes: &[u8], at: usize, count: u8) -> ArrayVec<ReportBlock, 31>
    requires count { count ≤ 31 }
    requires at { at ≤ 24 }
    requires whole { at + 24 * count ≤ length bytes.now }
    ensures { result.items ≡ blocks_at bytes.now at count }
{
    let mut blocks = ArrayVec::new();
    for k in 0..usize::from(count) {
        blocks.push(read_block(bytes, at + BLOCK_SIZE * k));
    }
    blocks
}

pub(crate) fn read_sr(alloc: Global, count: u8, body: &[u8]) -> Result<Option<Rtcp>, OutOfMemory>
    requires { count ≤ 31 }
    ensures { IfOk result (λ packet. packet ≡ sr_of count body.now) }
{
    let end = SENDER_SIZE + BLOCK_SIZE * usize::from(count);
    if body.len() < end {
        return Ok(None);
    }
    let rest = body.split_at(end).1;
    Ok(Some(Rtcp::Sr {
        ssrc: u32_at(body, 0),
        seconds: u32_at(body, 4),
        fraction: u32_at(body, 8),
        rtp: u32_at(body, 12),
        packets: u32_at(body, 16),
        octets: u32_at(body, 20),
        blocks: read_blocks(body, SENDER_SIZE, count),
        rest: Blob::copy_of(alloc, rest)?,
    }))
}

pub(crate) fn read_rr(alloc: Global, count: u8, body: &[u8]) -> Result<Option<Rtcp>, OutOfMemory>
    requires { count ≤ 31 }
    ensures { IfOk result (λ packet. packet ≡ rr_of count body.now) }
{
    let end = RECEIVER_SIZE + BLOCK_SIZE * usize::from(count);
    if body.len() < end {
        return Ok(None);
    }
    let rest = body.split_at(end).1;
    Ok(Some(Rtcp::Rr {
        ssrc: u32_at(body, 0),
        blocks: read_blocks(body, RECEIVER_SIZE, count),
        rest: Blob::copy_of(alloc, rest)?,
    }))
}

pub(crate) fn read_app(alloc: Global, count: u8, body: &[u8]) -> Result<Option<Rtcp>, OutOfMemory>
    ensures { IfOk result (λ packet. packet ≡ app_of count body.now) }
{
    if body.len() < FEEDBACK_SIZE {
        return Ok(None);
    }
    let rest = body.split_at(FEEDBACK_SIZE).1;
    Ok(Some(Rtcp::App {
        subtype: count,
        ssrc: u32_at(body, 0),
        name: [body[4], body[5], body[6], body[7]],
        rest: Blob::copy_of(alloc, rest)?,
    }))
}

pub(crate) fn read_nacks(alloc: Global, body: &[u8]) -> Result<Option<Rtcp>, OutOfMemory>
    ensures { IfOk result (λ packet. packet ≡ nacks_of body.now) }
{
    if body.len() < FEEDBACK_SIZE {
        return Ok(None);
    }
    Ok(Some(Rtcp::Nacks {
        sender: u32_at(body, 0),
        media: u32_at(body, 4),
        list: read_entries(alloc, body)?,
    }))
}

fn read_entries(alloc: Global, body: &[u8]) -> Result<Items<Nack>, OutOfMemory>
    requires { 8 ≤ length body.now }
    ensures { IfOk result (λ list. list ≡ entries_at body.now ((length body.now - 8) / 4)) }
{
    let mut list = Items::new(alloc);
    for k in 0..(body.len() - FEEDBACK_SIZE) / 4 {
        list.push(Nack {
            pid: u16_at(body, FEEDBACK_SIZE + 4 * k),
            blp: u16_at(body, FEEDBACK_SIZE + 2 + 4 * k),
        })?;
    }
    Ok(list)
}

pub(crate) fn read_feedback(
    alloc: Global,
    kind: u8,
    count: u8,
    body: &[u8],
) -> Result<Option<Rtcp>, OutOfMemory>
    ensures { IfOk result (λ packet. packet ≡ feedback_of kind count body.now) }
{
    if body.len() < FEEDBACK_SIZE {
        return Ok(None);
    }
    let rest = body.split_at(FEEDBACK_SIZE).1;
    Ok(Some(Rtcp::Feedback {
        kind,
        format: count,
        sender: u32_at(body, 0),
        media: u32_at(body, 4),
        rest: Blob::copy_of(alloc, rest)?,
    }))
}
