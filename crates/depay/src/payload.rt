//! What a packet is by itself (RFC 6184, sections 5.2 to 5.8).
ghost use Rattle.std.specs.Prelude.{◌≡◌, ◌<◌, ◌≤◌, length, drop};
ghost use Rattle.depay.specs.Payload.{nal_type as nal_type_of, has_start as is_start, has_end as is_end, fu_type as fu_type_of, unit_header as header_of, only_starts as is_start_alone, is_unit_type as is_type};
ghost use Rattle.depay.specs.Shapes.{IsShape};

use crate::aggregate::is_filled;
use crate::outcome::Cause;

/// The most bytes of a unit.
pub(crate) const MAX_UNIT: usize = 1_048_576;

/// How many bytes of a fragment stand before its part of the unit: the first byte and the FU header.
pub(crate) const FU_HEAD: usize = 2;

const STAP_A: u8 = 24;

const FU_A: u8 = 28;

/// A packet that left a lane.
#[derive(Drop)]
pub(crate) struct Packet<'a> {
    pub(crate) number: u64,
    pub(crate) rtp: u32,
    pub(crate) pts: u64,
    pub(crate) payload: &'a [u8],
}

/// What an H.264 payload is that goes on with no open unit.
#[derive(Clone, Copy, Debug, Drop)]
pub(crate) enum Shape {
    /// A NAL unit.
    Single,
    /// A STAP-A that its units fill.
    Aggregate,
    /// The first of several fragments.
    Start,
}

/// The NAL unit type.
pub(crate) fn nal_type(payload: &[u8]) -> u8
    requires { 1 ≤ length payload.now }
    ensures { result ≡ nal_type_of payload.now }
{
    payload[0] & 0x1f
}

/// The start bit of a fragment.
pub(crate) fn has_start(payload: &[u8]) -> bool
    requires { 2 ≤ length payload.now }
    ensures { result ≡ is_start payload.now }
{
    payload[1] >> 7 == 1
}

/// The end bit of a fragment.
pub(crate) fn has_end(payload: &[u8]) -> bool
    requires { 2 ≤ length payload.now }
    ensures { result ≡ is_end payload.now }
{
    payload[1] >> 6 & 1 == 1
}

/// The type of the unit that a fragment is a part of.
pub(crate) fn fu_type(payload: &[u8]) -> u8
    requires { 2 ≤ length payload.now }
    ensures value { result ≡ fu_type_of payload.now }
    ensures small { result < 32 }
{
    payload[1] & 0x1f
}

/// The first byte of the unit that a fragment is a part of.
pub(crate) fn unit_header(payload: &[u8]) -> u8
    requires { 2 ≤ length payload.now }
    ensures { result ≡ header_of payload.now }
{
    (payload[0] >> 5) * 32 + fu_type(payload)
}

/// Whether a fragment has the start bit without the end bit.
fn only_starts(payload: &[u8]) -> bool
    requires { 2 ≤ length payload.now }
    ensures { result ≡ is_start_alone payload.now }
{
    has_start(payload) && !has_end(payload)
}

/// What follows the first byte.
pub(crate) fn behind_first(payload: &[u8]) -> &[u8]
    requires { 1 ≤ length payload.now }
    ensures { result.now ≡ drop 1 payload.now }
{
    &payload[1..]
}

/// Whether the type is one of NAL units, and of no packet of RFC 6184.
fn is_unit_type(kind: u8) -> bool
    ensures { result ≡ is_type kind }
{
    kind > 0 && kind < STAP_A
}

/// What a payload is that goes on with no open unit, or the first test that it fails.
pub(crate) fn shape_of(payload: &[u8]) -> Result<Shape, Cause>
    ensures { IsShape payload.now result }
{
    if payload.is_empty() {
        return Err(Cause::Empty);
    }
    let kind = nal_type(payload);
    if kind == FU_A {
        return fragment_shape(payload);
    }
    if kind == STAP_A {
        return aggregate_shape(payload);
    }
    if !is_unit_type(kind) {
        return Err(Cause::Kind);
    }
    if payload.len() > MAX_UNIT {
        return Err(Cause::Large);
    }
    Ok(Shape::Single)
}

fn fragment_shape(payload: &[u8]) -> Result<Shape, Cause>
    requires filled { 1 ≤ length payload.now }
    requires kind { nal_type_of payload.now ≡ 28 }
    ensures { IsShape payload.now result }
{
    if payload.len() < FU_HEAD {
        return Err(Cause::Fragment);
    }
    if !is_unit_type(fu_type(payload)) {
        return Err(Cause::Kind);
    }
    if !only_starts(payload) {
        return Err(Cause::Fragment);
    }
    let part = payload.len() - 1;
    if part > MAX_UNIT {
        return Err(Cause::Large);
    }
    Ok(Shape::Start)
}

fn aggregate_shape(payload: &[u8]) -> Result<Shape, Cause>
    requires filled { 1 ≤ length payload.now }
    requires kind { nal_type_of payload.now ≡ 24 }
    ensures { IsShape payload.now result }
{
    let units = behind_first(payload);
    if !is_filled(units) {
        return Err(Cause::Size);
    }
    Ok(Shape::Aggregate)
}
