//! Fragmented units (FU-A, RFC 6184, section 5.8).
ghost use Rattle.std.specs.Prelude.{◌≡◌, ◌≤◌, ◌+◌, ◌==◌, ◌∷◌, length, drop, OnOk, OnErr};
ghost use Rattle.depay.specs.Payload.{is_later_fragment as is_later, unit_header as header_of};
ghost use Rattle.depay.specs.Joining.{unit_goes_on, opened_by};
ghost use Rattle.depay.specs.Shapes.{packet_of};

use crate::payload::{FU_HEAD, Packet, fu_type, has_start, unit_header};
use rtp_units::OutOfMemory;

/// A unit whose end has not come: the numbers of its first and its latest packet, their timestamp, the
/// presentation time of the first, their first byte, and the type of the unit.
#[derive(Clone, Copy, Debug, Drop)]
pub struct OpenUnit {
    pub(crate) first: u64,
    pub(crate) last: u64,
    pub(crate) rtp: u32,
    pub(crate) pts: u64,
    pub(crate) indicator: u8,
    pub(crate) kind: u8,
}

/// The unit that this packet begins.
pub(crate) fn open_unit(packet: &Packet<'_>) -> OpenUnit
    requires { 2 ≤ length packet.now.payload.now }
    ensures { result ≡ opened_by (packet_of packet.now) }
{
    OpenUnit {
        first: packet.number,
        last: packet.number,
        rtp: packet.rtp,
        pts: packet.pts,
        indicator: packet.payload[0],
        kind: fu_type(packet.payload),
    }
}

/// Whether this packet goes on with the unit.
pub(crate) fn is_next(unit: &OpenUnit, packet: &Packet<'_>) -> bool
    ensures { result ≡ unit_goes_on unit.now (packet_of packet.now) }
{
    follows(unit.last, packet.number)
        && packet.rtp == unit.rtp
        && is_later_fragment(packet.payload, unit.indicator, unit.kind)
}

fn follows(last: u64, number: u64) -> bool
    ensures { result ≡ (number == last + 1) }
{
    number > last && number - last == 1
}

fn is_later_fragment(payload: &[u8], indicator: u8, kind: u8) -> bool
    ensures { result ≡ is_later payload.now indicator kind }
{
    payload.len() >= FU_HEAD
        && payload[0] == indicator
        && fu_type(payload) == kind
        && !has_start(payload)
}

/// Puts the beginning of a unit in the place of what the buffer holds. After a refusal the buffer holds
/// that still.
pub(crate) fn restart(bytes: &mut Vec<u8>, payload: &[u8]) -> Result<(), OutOfMemory>
    requires { 2 ≤ length payload.now }
    ensures ok { OnOk result (bytes.new.items ≡ header_of payload.now ∷ drop 2 payload.now) }
    ensures err { OnErr result (bytes.new.items ≡ bytes.old.items) }
{
    bytes.reserve(payload.len())?;
    bytes.clear();
    bytes.push(unit_header(payload))?;
    bytes.extend_from_slice(&payload[FU_HEAD..])?;
    Ok(())
}
