//! Reading a compound.
ghost use Rattle.std.specs.Prelude.{◌≡◌, ◌≤◌, ◌<◌, ◌+◌, length, List, IfOk, MatchResult, Ok, Some, None};
ghost use Rattle.std.specs.List.{AllByRecursion};
ghost use Rattle.rtcp_wire.specs.Bodies.{packet_of};
ghost use Rattle.rtcp_wire.specs.Compound.{packet_or_fault, headers_fault, packets_at, compound_of};
ghost use Rattle.rtcp_wire.specs.Answers.{Gives};
ghost use Rattle.rtcp_wire.specs.Grammar.{IsCompound, HasShortTexts};
ghost use Rattle.rtcp_wire.specs.Heads.{HasHeader};
ghost use Rattle.rtcp_wire.specs.declared.packet.Rtcp.{Rtcp};

use crate::bye::read_bye;
use crate::fault::RtcpFault;
use crate::header::{check_header, packet_body, packet_size};
use crate::packet::Rtcp;
use crate::reports::{read_app, read_feedback, read_nacks, read_rr, read_sr};
use crate::sdes::read_sdes;
use rtp_units::{Blob, OutOfMemory};
use std::alloc::Global;

/// The packets of a datagram, in order.
pub fn read_compound(alloc: Global, bytes: &[u8]) -> Result<Vec<Rtcp>, RtcpFault>
    // What is read is a compound of these packets.
    ensures found { IfOk result (λ packets. IsCompound bytes.now packets.items) }
    ensures texts { IfOk result (λ packets. AllByRecursion HasShortTexts packets.items) }
    // Each compound is read, unless memory runs out.
    ensures only { (packets : List Rtcp) → IsCompound bytes.now packets
        → Gives (λ found. found.items) result (Ok packets) }
    // Which fault it is: the first failing test, all headers before the bodies.
    ensures exact { Gives (λ packets. packets.items) result (compound_of bytes.now) }
{
    read(alloc, bytes)
}

#[tactic(auto, unfolding(crate::specs::Compound::compound_of))]
fn read(alloc: Global, bytes: &[u8]) -> Result<Vec<Rtcp>, RtcpFault>
    ensures { Gives (λ packets. packets.items) result (compound_of bytes.now) }
{
    check_headers(bytes)?;
    read_packets(alloc, bytes)
}

/// Tests all headers.
fn check_headers(bytes: &[u8]) -> Result<(), RtcpFault>
    ensures { MatchResult result (λ _. headers_fault (length bytes.now) 0 bytes.now ≡ None)
        (λ fault. headers_fault (length bytes.now) 0 bytes.now ≡ Some fault) }
{
    let mut offset = 0;
    let mut rest = bytes;
    let steps = bytes.len();
    // A packet has four bytes at least, so as many steps as bytes serve.
    for _ in 0..steps {
        let size = check_header(offset, rest)?;
        if size == rest.len() {
            return Ok(());
        }
        offset += size;
        rest = rest.split_at(size).1;
    }
    Err(RtcpFault::Short(offset))
}

/// Reads the bodies, behind headers that pass their tests.
fn read_packets(alloc: Global, bytes: &[u8]) -> Result<Vec<Rtcp>, RtcpFault>
    requires { headers_fault (length bytes.now) 0 bytes.now ≡ None }
    ensures { Gives (λ packets. packets.items) result (packets_at (length bytes.now) 0 bytes.now) }
{
    let mut packets = Vec::new(alloc);
    let mut offset = 0;
    let mut rest = bytes;
    let steps = bytes.len();
    for _ in 0..steps {
        let packet = read_packet(alloc, offset, rest)?;
        packets.push(packet)?;
        let size = packet_size(rest);
        if size == rest.len() {
            return Ok(packets);
        }
        offset += size;
        rest = rest.split_at(size).1;
    }
    Ok(packets)
}

fn read_packet(alloc: Global, offset: usize, bytes: &[u8]) -> Result<Rtcp, RtcpFault>
    requires { HasHeader bytes.now }
    ensures { Gives (λ packet. packet) result (packet_or_fault offset bytes.now) }
{
    let kind = bytes[1];
    match read_body(alloc, kind, bytes[0] & 0x1f, packet_body(bytes))? {
        Some(packet) => Ok(packet),
        None => Err(RtcpFault::Body { offset, kind }),
    }
}

#[tactic(auto, unfolding(crate::specs::Bodies::packet_of))]
fn read_body(alloc: Global, kind: u8, count: u8, body: &[u8]) -> Result<Option<Rtcp>, OutOfMemory>
    requires { count ≤ 31 }
    ensures { IfOk result (λ packet. packet ≡ packet_of kind count body.now) }
{
    match kind {
        200 => read_sr(alloc, count, body),
        201 => read_rr(alloc, count, body),
        202 => read_sdes(alloc, count, body),
        203 => read_bye(alloc, count, body),
        204 => read_app(alloc, count, body),
        205 if count == 1 => read_nacks(alloc, body),
        205 | 206 => read_feedback(alloc, kind, count, body),
        _ => Ok(Some(Rtcp::Unknown {
            kind,
            count,
            rest: Blob::copy_of(alloc, body)?,
        })),
    }
}
