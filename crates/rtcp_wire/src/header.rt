//! The header of a packet, and its tests in their order.
ghost use Rattle.std.specs.Prelude.{◌≡◌, ◌≤◌, ◌<◌, ◌+◌, length, MatchResult, Some, None};
ghost use Rattle.rtcp_wire.specs.Compound.{version_of, has_padding as padding_bit, count_of, kind_of, size_of, body_of, is_bad_padding as padding_is_bad, is_bad_first as first_is_bad, header_fault};
ghost use Rattle.rtcp_wire.specs.Heads.{HasHeader};

use crate::fault::RtcpFault;
use rtp_wire::u16_at;

/// The version of RFC 3550.
const VERSION: u8 = 2;

/// Bytes of a header.
pub(crate) const HEADER_SIZE: usize = 4;

/// The types with which a compound may begin.
const FIRST_KINDS: (u8, u8) = (200, 206);

/// Bytes of the packet that these bytes begin with, at least 4.
pub(crate) fn packet_size(bytes: &[u8]) -> usize
    requires { 4 ≤ length bytes.now }
    ensures value { result ≡ size_of bytes.now }
    ensures some { 4 ≤ result }
    ensures small { result ≤ 262144 }
{
    4 * (usize::from(u16_at(bytes, 2)) + 1)
}

fn has_padding(bytes: &[u8]) -> bool
    requires { 4 ≤ length bytes.now }
    ensures { result ≡ padding_bit bytes.now }
{
    bytes[0] >> 5 & 1 == 1
}

/// The body without padding.
pub(crate) fn packet_body(bytes: &[u8]) -> &[u8]
    requires { HasHeader bytes.now }
    ensures { result.now ≡ body_of bytes.now }
{
    let size = packet_size(bytes);
    let padding = if has_padding(bytes) {
        usize::from(bytes[size - 1])
    } else {
        0
    };
    &bytes[HEADER_SIZE..size - padding]
}

/// Tests the header at this offset, and gives the size of its packet.
pub(crate) fn check_header(offset: usize, bytes: &[u8]) -> Result<usize, RtcpFault>
    ensures { MatchResult result
        (λ size. (header_fault offset bytes.now ≡ None) × (size ≡ size_of bytes.now) × (4 ≤ size)
        × (size ≤ length bytes.now))
        (λ fault. header_fault offset bytes.now ≡ Some fault) }
{
    if bytes.len() < HEADER_SIZE {
        return Err(RtcpFault::Short(offset));
    }
    if bytes[0] >> 6 != VERSION {
        return Err(RtcpFault::Version(offset));
    }
    let size = packet_size(bytes);
    if bytes.len() < size {
        return Err(RtcpFault::Length(offset));
    }
    if is_bad_padding(bytes, size) {
        return Err(RtcpFault::Padding(offset));
    }
    if is_bad_first(offset, bytes[1]) {
        return Err(RtcpFault::First(offset));
    }
    Ok(size)
}

/// Padding on a packet that is not the last, or a count of it that the body cannot have.
fn is_bad_padding(bytes: &[u8], size: usize) -> bool
    requires some { 4 ≤ size }
    requires whole { size ≤ length bytes.now }
    requires size { size ≡ size_of bytes.now }
    ensures { result ≡ padding_is_bad bytes.now }
{
    if !has_padding(bytes) {
        return false;
    }
    let count = bytes[size - 1];
    bytes.len() != size || count == 0 || count % 4 != 0 || size - HEADER_SIZE < usize::from(count)
}

/// A type with which no compound begins, at the beginning.
fn is_bad_first(offset: usize, kind: u8) -> bool
    ensures { result ≡ first_is_bad offset kind }
{
    offset == 0 && (kind < FIRST_KINDS.0 || kind > FIRST_KINDS.1)
}
