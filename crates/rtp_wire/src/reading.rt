//! Reading a packet.
ghost use Rattle.std.specs.Prelude.{◌≡◌, IfOk, IsOkAnd, MatchResult};
ghost use Rattle.rtp_wire.specs.Packet.{Packet, IsPacket, first_fault};
ghost use Rattle.rtp_wire.specs.View.{IsHeaderEnd, IsRead};

use crate::fault::RtpFault;
use crate::header::{
    EXTENSION_HEAD, FIXED_SIZE, csrcs_end, extension_end, has_extension, has_padding,
};
use crate::view::RtpView;

/// The version of RFC 3550.
const VERSION: u8 = 2;

/// Reads the bytes of one packet. It takes no memory, and the view borrows the bytes.
pub fn read(bytes: &[u8]) -> Result<RtpView<'_>, RtpFault>
    // What is read is a packet of these bytes.
    ensures found { IfOk result (λ view. IsPacket view × (view.bytes ≡ bytes.now)) }
    // Each packet of these bytes is read, with its own fields.
    ensures only { (p : Packet) → IsPacket p → p.bytes ≡ bytes.now
        → IsOkAnd result (λ view. view ≡ p) }
    // Which fault it is.
    ensures fault { MatchResult result (λ _. first_fault bytes.now ≡ None)
        (λ fault. first_fault bytes.now ≡ Some fault) }
{
    let header_end = read_header(bytes)?;
    let padding = read_padding(bytes, header_end)?;
    Ok(RtpView {
        bytes,
        header_end,
        padding,
    })
}

/// The place behind the header.
fn read_header(bytes: &[u8]) -> Result<usize, RtpFault>
    ensures { MatchResult result (IsHeaderEnd bytes.now)
        (λ fault. first_fault bytes.now ≡ Some fault) }
{
    if bytes.len() < FIXED_SIZE {
        return Err(RtpFault::Short);
    }
    if bytes[0] >> 6 != VERSION {
        return Err(RtpFault::Version);
    }
    let at = csrcs_end(bytes);
    if bytes.len() < at {
        return Err(RtpFault::Csrc);
    }
    if !has_extension(bytes) {
        return Ok(at);
    }
    if bytes.len() < at + EXTENSION_HEAD || bytes.len() < extension_end(bytes) {
        return Err(RtpFault::Extension);
    }
    Ok(extension_end(bytes))
}

/// How many bytes of padding end the packet.
fn read_padding(bytes: &[u8], header_end: usize) -> Result<u8, RtpFault>
    requires { IsHeaderEnd bytes.now header_end }
    ensures { MatchResult result (IsRead bytes.now header_end)
        (λ fault. first_fault bytes.now ≡ Some fault) }
{
    if !has_padding(bytes) {
        return Ok(0);
    }
    let padding = bytes[bytes.len() - 1];
    let left = bytes.len() - header_end;
    if left == 0 || padding == 0 || left < usize::from(padding) {
        return Err(RtpFault::Padding);
    }
    Ok(padding)
}
