//! Aggregation packets (STAP-A, RFC 6184, section 5.7.1).
ghost use Rattle.std.specs.Prelude.{◌≡◌, ◌≤◌, ◌++◌, [], true, false, length, map, is_some, unwrap_or, IfOk, OnOk, MatchOption};
ghost use Rattle.depay.specs.Aggregate.{size_at as size_of_unit, begins_unit, units_in, is_filled as is_filled_by_units, IsSplit};
ghost use Rattle.depay.specs.Outcomes.{single_unit};
ghost use Rattle.depay.specs.Shapes.{packet_of};

use crate::outcome::Outcome;
use crate::payload::Packet;
use byteorder::{BigEndian, ByteOrder};
use rtp_units::{Blob, OutOfMemory};
use std::alloc::Global;

/// How many bytes a unit's size takes.
const SIZE_BYTES: usize = 2;

fn size_at(bytes: &[u8]) -> usize
    requires { 2 ≤ length bytes.now }
    ensures { result ≡ size_of_unit bytes.now }
{
    usize::from(BigEndian::read_u16(bytes))
}

/// The unit that the bytes begin with, behind its size, and what follows it.
fn split_unit(bytes: &[u8]) -> Option<(&[u8], &[u8])>
    ensures { MatchOption result (begins_unit bytes.now ≡ false)
        (λ r. IsSplit bytes.now r.0.now r.1.now) }
{
    if bytes.len() < SIZE_BYTES {
        return None;
    }
    let size = size_at(bytes);
    let rest = &bytes[SIZE_BYTES..];
    if size == 0 || size > rest.len() {
        return None;
    }
    Some((&rest[..size], &rest[size..]))
}

/// Whether there are bytes and units, each behind its size, fill them.
pub(crate) fn is_filled(bytes: &[u8]) -> bool
    ensures { result ≡ is_filled_by_units bytes.now }
{
    !bytes.is_empty() && are_units(bytes)
}

fn are_units(bytes: &[u8]) -> bool
    ensures { result ≡ is_some (units_in bytes.now) }
{
    let mut rest = bytes;
    while !rest.is_empty() {
        match split_unit(rest) {
            Some((_, after)) => rest = after,
            None => return false,
        }
    }
    true
}

/// Adds the units that fill the bytes, which are a part of this packet.
pub(crate) fn push_units(
    alloc: Global,
    outcomes: &mut Vec<Outcome>,
    packet: &Packet<'_>,
    bytes: &[u8],
) -> Result<(), OutOfMemory>
    requires { is_some (units_in bytes.now) ≡ true }
    ensures { OnOk result (outcomes.new.items ≡ outcomes.old.items
        ++ map (single_unit (packet_of packet.now)) (unwrap_or (units_in bytes.now) [])) }
{
    let mut rest = bytes;
    while let Some((unit, after)) = split_unit(rest) {
        outcomes.push(single(alloc, packet, unit)?)?;
        rest = after;
    }
    Ok(())
}

/// A unit that this packet holds by itself.
pub(crate) fn single(
    alloc: Global,
    packet: &Packet<'_>,
    bytes: &[u8],
) -> Result<Outcome, OutOfMemory>
    ensures { IfOk result (λ unit. unit ≡ single_unit (packet_of packet.now) bytes.now) }
{
    Ok(Outcome::Unit {
        first: packet.number,
        last: packet.number,
        pts: packet.pts,
        bytes: Blob::copy_of(alloc, bytes)?,
    })
}
