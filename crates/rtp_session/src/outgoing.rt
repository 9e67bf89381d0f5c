//! The bytes that a session sends: reports (RFC 3550, section 6.4) and requests (RFC 4585, section 6.2.1).
ghost use Rattle.std.specs.Prelude.{◌≡◌, ◌≤◌, ◌∷◌, [], length, map, IfOk, OnOk};
ghost use Rattle.std.specs.List.{AllByRecursion};
ghost use Rattle.rtcp_wire.specs.Written.{LossFits, PacketFits, Begins};
ghost use Rattle.front_model.specs.Reports.{parts, receiver_report as report_of, own_description, report_bytes as reports_of, nack_bytes as nacks_of};

use arrayvec::ArrayVec;
use rtcp_wire::{Chunk, Items, ReportBlock, Rtcp, SdesItem, nacks, write_compound};
use rtp_units::{Blob, OutOfMemory};
use std::alloc::Global;

/// The most blocks of a packet.
const MAX_BLOCKS: usize = 31;

/// The type of a CNAME item (RFC 3550, section 6.5.1).
const CNAME: u8 = 1;

/// The program's own CNAME.
const OWN_NAME: &[u8; 6] = b"rtpbin";

/// Receiver reports with these blocks, and the description of the program.
pub(crate) fn report_bytes(
    alloc: Global,
    own: u32,
    blocks: &[ReportBlock],
) -> Result<Blob, OutOfMemory>
    requires { AllByRecursion LossFits blocks.now }
    ensures { IfOk result (λ bytes. bytes ≡ reports_of own blocks.now) }
{
    let mut packets = receiver_reports(alloc, own, blocks)?;
    packets.push(description(alloc, own)?)?;
    write_compound(alloc, packets.as_slice())
}

/// The blocks, 31 to a packet, and one packet at least.
fn receiver_reports(
    alloc: Global,
    own: u32,
    blocks: &[ReportBlock],
) -> Result<Vec<Rtcp>, OutOfMemory>
    requires { AllByRecursion LossFits blocks.now }
    ensures value { IfOk result (λ packets.
        packets.items ≡ map (report_of own) (parts blocks.now)) }
    ensures fits { IfOk result (λ packets. AllByRecursion PacketFits packets.items) }
{
    let mut packets = Vec::new(alloc);
    let mut rest = blocks;
    'full: while rest.len() > MAX_BLOCKS {
        let (part, behind) = rest.split_at(MAX_BLOCKS);
        packets.push(receiver_report(alloc, own, part))?;
        rest = behind;
    }
    packets.push(receiver_report(alloc, own, rest))?;
    Ok(packets)
}

fn receiver_report(alloc: Global, own: u32, blocks: &[ReportBlock]) -> Rtcp
    requires few { length blocks.now ≤ 31 }
    requires fits { AllByRecursion LossFits blocks.now }
    ensures value { result ≡ report_of own blocks.now }
    ensures fits { PacketFits result }
{
    let mut list = ArrayVec::new();
    match list.try_extend_from_slice(blocks) {
        Ok(()) => {}
        Err(_) => unreachable!(),
    }
    Rtcp::Rr {
        ssrc: own,
        blocks: list,
        rest: Blob::from_vec(Vec::new(alloc)),
    }
}

fn description(alloc: Global, own: u32) -> Result<Rtcp, OutOfMemory>
    ensures { IfOk result (λ packet. packet ≡ own_description own) }
{
    let mut items = Items::new(alloc);
    items.push(SdesItem {
        kind: CNAME,
        text: Blob::copy_of(alloc, OWN_NAME)?,
    })?;
    let mut chunks = Items::new(alloc);
    chunks.push(Chunk { ssrc: own, items })?;
    Ok(Rtcp::Sdes { chunks })
}

/// A generic NACK for these numbers of a stream.
pub(crate) fn nack_bytes(
    alloc: Global,
    own: u32,
    media: u32,
    numbers: &[u16],
) -> Result<Blob, OutOfMemory>
    requires { length numbers.now ≤ 8192 }
    ensures { IfOk result (λ bytes. bytes ≡ nacks_of own media numbers.now) }
{
    let list = Items::from_vec(nacks(alloc, numbers)?);
    let packet = Rtcp::Nacks {
        sender: own,
        media,
        list,
    };
    write_compound(alloc, &[packet])
}
