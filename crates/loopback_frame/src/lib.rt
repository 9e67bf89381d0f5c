//! Frames that carry a UDP datagram from the own host to itself.
#![tactic(auto)]

pub mod laws;

ghost use Rattle.std.specs.Prelude.{◌≡◌, ◌≤◌, length, IfOk};
ghost use Rattle.loopback_frame.specs.Frames.{frame_of};

use rtp_units::{Blob, OutOfMemory};
use rtp_wire::push_u16;
use std::alloc::Global;

/// Version 4 with a header of five words, and no type of service.
const VERSION_AND_SERVICE: [u8; 2] = [0x45, 0];

/// Identification 0, no flags and no offset, 64 hops to live, UDP, checksum 0.
const IDENTIFICATION_TO_CHECKSUM: [u8; 8] = [0, 0, 0, 0, 64, 17, 0, 0];

const LOOPBACK: [u8; 4] = [127, 0, 0, 1];

/// The bytes of both headers, IPv4 (RFC 791) and UDP (RFC 768).
const HEADERS: u16 = 28;

const UDP_HEADER: u16 = 8;

/// The IPv4 packet, without options and checksums, of a datagram from a port of 127.0.0.1 to the
/// same one, with a payload of at most 65,507 bytes.
pub fn loopback_frame(alloc: Global, port: u16, payload: &[u8]) -> Result<Blob, OutOfMemory>
    requires { length payload.now ≤ 65507 }
    ensures { IfOk result (λ frame. frame ≡ frame_of port payload.now) }
{
    let size = payload.len() as u16;
    let mut bytes = Vec::with_capacity(alloc, usize::from(HEADERS) + payload.len())?;
    bytes.extend_from_slice(&VERSION_AND_SERVICE)?;
    push_u16(&mut bytes, HEADERS + size)?;
    bytes.extend_from_slice(&IDENTIFICATION_TO_CHECKSUM)?;
    bytes.extend_from_slice(&LOOPBACK)?;
    bytes.extend_from_slice(&LOOPBACK)?;
    push_u16(&mut bytes, port)?;
    push_u16(&mut bytes, port)?;
    push_u16(&mut bytes, UDP_HEADER + size)?;
    push_u16(&mut bytes, 0)?;
    bytes.extend_from_slice(payload)?;
    Ok(Blob::from_vec(bytes))
}
