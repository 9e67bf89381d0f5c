//! What a record brings to a scan.
ghost use Rattle.std.specs.Prelude.{◌≡◌, IfOk};
ghost use Rattle.pcap_file.specs.Reading.{record_view};
ghost use Rattle.rtcp_wire.specs.Compound.{compound_of};
ghost use Rattle.rtp_wire.specs.Packet.{first_fault};
ghost use Rattle.rtp_scan.specs.Sights.{arrival_of as arrival_from, is_rtcp as is_rtcp_payload};
ghost use Rattle.rtp_scan.specs.Sights.{payload_sight as sight_of_payload};
ghost use Rattle.rtp_scan.specs.Sights.{rtp_sight as sight_of_rtp};
ghost use Rattle.rtp_scan.specs.Sights.{rtcp_sight as sight_of_rtcp, sight_of as sight_in};

use pcap_file::{PcapRecord, datagram};
use rtcp_wire::{RtcpFault, read_compound};
use rtp_units::OutOfMemory;
use rtp_wire::{RtpView, read};
use std::alloc::Global;

/// An RTP packet that came to a port.
#[derive(Clone, Copy, Debug, PartialEq, Eq, Drop)]
pub struct Arrival {
    /// When it came, in nanoseconds since the first record.
    pub time: u64,
    /// The destination port.
    pub port: u16,
    pub ssrc: u32,
    /// The payload type, 0 to 127.
    pub pt: u8,
    pub seq: u16,
    pub timestamp: u32,
}

/// What a record brings.
#[derive(Clone, Copy, Debug, PartialEq, Eq, Drop)]
pub enum Sight {
    /// A packet of RTP.
    Rtp(Arrival),
    /// A compound of RTCP to this port.
    Compound(u16),
    /// Neither.
    Nothing,
}

/// What a record brings that comes at `time` nanoseconds and whose frame has this link type.
#[tactic(auto, unfolding(crate::specs::Sights::sight_of))]
pub fn sight_of(alloc: Global, time: u64, link: u16, rec: &PcapRecord) -> Result<Sight, OutOfMemory>
    ensures { IfOk result (λ sight. sight
        ≡ sight_in (record { time = time; captured = record_view link rec.now })) }
{
    match datagram(link, rec) {
        Ok(datagram) => payload_sight(alloc, time, datagram.to.port, datagram.payload),
        Err(_) => Ok(Sight::Nothing),
    }
}

// What the payload of a datagram brings that came to this port.
fn payload_sight(alloc: Global, time: u64, port: u16, payload: &[u8]) -> Result<Sight, OutOfMemory>
    ensures { IfOk result (λ sight. sight ≡ sight_of_payload time port payload.now) }
{
    if is_rtcp(payload) {
        rtcp_sight(alloc, port, payload)
    } else {
        Ok(rtp_sight(time, port, payload))
    }
}

// RFC 5761, section 4: the second byte of an RTCP packet is its type, from 192 to 223.
fn is_rtcp(payload: &[u8]) -> bool
    ensures { result ≡ is_rtcp_payload payload.now }
{
    match payload {
        [_, kind, ..] => (192..=223).contains(kind),
        _ => false,
    }
}

fn rtcp_sight(alloc: Global, port: u16, payload: &[u8]) -> Result<Sight, OutOfMemory>
    ensures { IfOk result (λ sight. sight ≡ sight_of_rtcp port (compound_of payload.now)) }
{
    match read_compound(alloc, payload) {
        Ok(_) => Ok(Sight::Compound(port)),
        Err(RtcpFault::OutOfMemory) => Err(OutOfMemory),
        Err(_) => Ok(Sight::Nothing),
    }
}

fn rtp_sight(time: u64, port: u16, payload: &[u8]) -> Sight
    ensures { result ≡ sight_of_rtp time port payload.now (first_fault payload.now) }
{
    match read(payload) {
        Ok(view) => Sight::Rtp(arrival_of(time, port, &view)),
        Err(_) => Sight::Nothing,
    }
}

fn arrival_of(time: u64, port: u16, view: &RtpView<'_>) -> Arrival
    ensures { result ≡ arrival_from time port view.now }
{
    Arrival {
        time,
        port,
        ssrc: view.ssrc(),
        pt: view.pt(),
        seq: view.seq(),
        timestamp: view.timestamp(),
    }
}
