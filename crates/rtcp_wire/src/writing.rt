//! Writing a compound.
ghost use Rattle.std.specs.Prelude.{◌≡◌, ◌≤◌, ◌++◌, Ok, IfOk, OnOk};
ghost use Rattle.std.specs.List.{AllByRecursion};
ghost use Rattle.rtcp_wire.specs.Compound.{compound_of};
ghost use Rattle.rtcp_wire.specs.Written.{body_bytes, count_bits, packet_bytes, compound_bytes, BodyFits, PacketFits, IsWritable, InRange};

use crate::packet::Rtcp;
use crate::pieces::{
    push_blocks, push_bytes, push_chunks, push_entries, push_numbers, push_reason,
};
use rtp_units::{Blob, OutOfMemory};
use rtp_wire::push_u16;
use std::alloc::Global;

/// Version 2, in the high two bits of the first byte.
const VERSION_BITS: u8 = 0x80;

/// The datagram of these packets, without padding. `read_compound` gives an equal list of it.
pub fn write_compound(alloc: Global, list: &[Rtcp]) -> Result<Blob, OutOfMemory>
    requires { IsWritable list.now }
    ensures bytes { IfOk result (λ blob. blob ≡ compound_bytes list.now) }
    ensures reads { IfOk result (λ blob. compound_of blob ≡ Ok list.now) }
{
    let bytes = write_packets(alloc, list)?;
    Ok(Blob::from_vec(bytes))
}

fn write_packets(alloc: Global, list: &[Rtcp]) -> Result<Vec<u8>, OutOfMemory>
    requires { AllByRecursion PacketFits list.now }
    ensures bytes { IfOk result (λ bytes. bytes.items ≡ compound_bytes list.now) }
    ensures range { OnOk result (AllByRecursion InRange list.now) }
{
    let mut out = Vec::new(alloc);
    let mut body = Vec::new(alloc);
    for packet in list {
        body.clear();
        push_body(&mut body, packet)?;
        push_packet(&mut out, packet, body.as_slice())?;
    }
    Ok(out)
}

/// Adds a packet, whose body is made already.
fn push_packet(out: &mut Vec<u8>, packet: &Rtcp, body: &[u8]) -> Result<(), OutOfMemory>
    requires fits { PacketFits packet.now }
    requires body { body.now ≡ body_bytes packet.now }
    ensures { OnOk result (out.new.items ≡ out.old.items ++ packet_bytes packet.now) }
{
    out.push(VERSION_BITS + count(packet))?;
    out.push(packet.kind())?;
    push_u16(out, (body.len() / 4) as u16)?;
    push_bytes(out, body)
}

/// The low five bits of the first byte.
fn count(packet: &Rtcp) -> u8
    requires { BodyFits packet.now }
    ensures value { result ≡ count_bits packet.now }
    ensures small { result ≤ 31 }
{
    match packet {
        Rtcp::Sr { blocks, .. } | Rtcp::Rr { blocks, .. } => blocks.len() as u8,
        Rtcp::Sdes { chunks } => chunks.as_slice().len() as u8,
        Rtcp::Bye { ssrcs, .. } => ssrcs.as_slice().len() as u8,
        Rtcp::App { subtype, .. } => *subtype,
        Rtcp::Nacks { .. } => 1,
        Rtcp::Feedback { format, .. } => *format,
        Rtcp::Unknown { count, .. } => *count,
    }
}

fn push_body(out: &mut Vec<u8>, packet: &Rtcp) -> Result<(), OutOfMemory>
    requires { BodyFits packet.now }
    ensures bytes { OnOk result (out.new.items ≡ out.old.items ++ body_bytes packet.now) }
    ensures range { OnOk result (InRange packet.now) }
{
    match packet {
        Rtcp::Sr {
            ssrc,
            seconds,
            fraction,
            rtp,
            packets,
            octets,
            blocks,
            rest,
        } => {
            push_numbers(out, &[*ssrc, *seconds, *fraction, *rtp, *packets, *octets])?;
            push_blocks(out, blocks.as_slice())?;
            push_bytes(out, rest.bytes())
        }
        Rtcp::Rr { ssrc, blocks, rest } => {
            push_numbers(out, &[*ssrc])?;
            push_blocks(out, blocks.as_slice())?;
            push_bytes(out, rest.bytes())
        }
        Rtcp::Sdes { chunks } => push_chunks(out, chunks.as_slice()),
        Rtcp::Bye { ssrcs, reason } => {
            push_numbers(out, ssrcs.as_slice())?;
            push_reason(out, reason)
        }
        Rtcp::App {
            ssrc,
            name,
            rest,
            ..
        } => {
            push_numbers(out, &[*ssrc])?;
            push_bytes(out, name)?;
            push_bytes(out, rest.bytes())
        }
        Rtcp::Nacks {
            sender,
            media,
            list,
        } => {
            push_numbers(out, &[*sender, *media])?;
            push_entries(out, list.as_slice())
        }
        Rtcp::Feedback {
            sender,
            media,
            rest,
            ..
        } => {
            push_numbers(out, &[*sender, *media])?;
            push_bytes(out, rest.bytes())
        }
        Rtcp::Unknown { rest, .. } => push_bytes(out, rest.bytes()),
    }
}
