//! The line of a record.
ghost use Rattle.std.specs.Prelude.{◌≡◌, map, IfOk};
ghost use Rattle.pcap_file.specs.Reading.{record_view};
ghost use Rattle.rtcp_wire.specs.Compound.{compound_of};
ghost use Rattle.rtcp_wire.specs.Written.{kind_byte};
ghost use Rattle.rtp_wire.specs.Packet.{first_fault};
ghost use Rattle.dump_command.specs.Dump.{facts_of as facts_in};
ghost use Rattle.dump_command.specs.Dump.{is_rtcp as is_rtcp_payload, line_of as line_for};
ghost use Rattle.dump_command.specs.Dump.{payload_line as line_of_payload};
ghost use Rattle.dump_command.specs.Dump.{rtcp_line as line_of_rtcp, rtp_line as line_of_rtp};

use pcap_file::{Datagram, PcapRecord, datagram};
use rtcp_wire::{Rtcp, read_compound};
use rtp_units::{Blob, OutOfMemory};
use rtp_wire::{RtpView, read};
use std::alloc::Global;
use timeline::{DumpLine, Ports, RtpFacts, rtcp_word, rtp_word, skip_word};

// The line of record number `number`, which comes at `time`.
#[tactic(auto, unfolding(crate::specs::Dump::line_of))]
pub fn line_of(
    alloc: Global,
    number: u64,
    time: u64,
    link: u16,
    rec: &PcapRecord,
) -> Result<DumpLine, OutOfMemory>
    ensures { IfOk result (λ line. line
        ≡ line_for number (record { time = time; captured = record_view link rec.now })) }
{
    match datagram(link, rec) {
        Ok(datagram) => {
            let ports = ports_of(&datagram);
            payload_line(alloc, number, time, ports, datagram.payload)
        }
        Err(skip) => Ok(DumpLine::Skip {
            record: number,
            time,
            reason: skip_word(skip),
        }),
    }
}

// The line of a datagram's payload.
fn payload_line(
    alloc: Global,
    number: u64,
    time: u64,
    ports: Ports,
    payload: &[u8],
) -> Result<DumpLine, OutOfMemory>
    ensures { IfOk result (λ line. line ≡ line_of_payload number time ports payload.now) }
{
    if is_rtcp(payload) {
        rtcp_line(alloc, number, time, ports, payload)
    } else {
        Ok(rtp_line(number, time, ports, payload))
    }
}

fn ports_of(datagram: &Datagram<'_>) -> Ports
    ensures { result ≡ record { «from» = datagram.now.from.port; to = datagram.now.to.port } }
{
    Ports {
        from: datagram.from.port,
        to: datagram.to.port,
    }
}

fn rtp_line(number: u64, time: u64, ports: Ports, payload: &[u8]) -> DumpLine
    ensures { result ≡ line_of_rtp number time ports payload.now (first_fault payload.now) }
{
    match read(payload) {
        Ok(view) => DumpLine::Rtp {
            record: number,
            time,
            ports,
            facts: facts_of(&view),
        },
        Err(fault) => DumpLine::Bad {
            record: number,
            time,
            ports,
            word: rtp_word(fault),
        },
    }
}

fn rtcp_line(
    alloc: Global,
    number: u64,
    time: u64,
    ports: Ports,
    payload: &[u8],
) -> Result<DumpLine, OutOfMemory>
    ensures { IfOk result (λ line. line
        ≡ line_of_rtcp number time ports (compound_of payload.now)) }
{
    match read_compound(alloc, payload) {
        Ok(packets) => Ok(DumpLine::Rtcp {
            record: number,
            time,
            ports,
            types: types_of(alloc, &packets)?,
        }),
        Err(fault) => match rtcp_word(fault) {
            Some(bad) => Ok(DumpLine::BadRtcp {
                record: number,
                time,
                ports,
                bad,
            }),
            None => Err(OutOfMemory),
        },
    }
}

// The types of a compound's packets.
fn types_of(alloc: Global, packets: &[Rtcp]) -> Result<Blob, OutOfMemory>
    ensures { IfOk result (λ types. types ≡ map kind_byte packets.now) }
{
    let types: Vec<u8> = packets.iter().map(type_of).collect(alloc)?;
    Ok(Blob::from_vec(types))
}

fn type_of(packet: &Rtcp) -> u8
    ensures { result ≡ kind_byte packet.now }
{
    packet.kind()
}

// RFC 5761, section 4: the second byte of an RTCP packet is its type, from 192 to 223.
fn is_rtcp(payload: &[u8]) -> bool
    ensures { result ≡ is_rtcp_payload payload.now }
{
    match payload {
        [_, kind, ..] => (192..=223).contains(kind),
        _ => false,
    }
}

fn facts_of(view: &RtpView<'_>) -> RtpFacts
    ensures { result ≡ facts_in view.now }
{
    RtpFacts {
        pt: view.pt(),
        seq: view.seq(),
        timestamp: view.timestamp(),
        ssrc: view.ssrc(),
        marker: view.marker(),
        csrcs: view.csrcs().len() as u64,
        words: match view.extension() {
            Some((_, bytes)) => bytes.len() as u64 / 4,
            None => 0,
        },
        padding: view.padding(),
        len: view.payload().len() as u64,
    }
}
