//! Writing a packet.
ghost use Rattle.std.specs.Prelude.{◌≡◌, ◌<◌, ◌^◌, ◌%◌, ◌≤◌, ◌++◌, [], ℕ, length, slice_index, option_map, IfOk, OnOk, IfSome};
ghost use Rattle.rtp_wire.specs.Packet.{AreWords, IsPacket};
ghost use Rattle.rtp_wire.specs.Written.{IsWritable, IsInRange, packet_with, version_byte, type_byte};
ghost use Rattle.rtp_wire.specs.Written.{fixed_bytes, csrc_bytes, extension_bytes, spelling};

use crate::fields::RtpFields;
use crate::header::{EXTENSION_HEAD, FIXED_SIZE};
use crate::network::{push_u16, push_u32};
use rtp_units::{Blob, OutOfMemory};
use std::alloc::Global;

/// Version 2, in the high two bits of the first byte.
const VERSION_BITS: u8 = 0x80;

/// The bit X of the first byte.
const EXTENSION_BIT: u8 = 0x10;

/// The marker bit of the second byte.
const MARKER_BIT: u8 = 0x80;

/// The bytes of a packet with these fields and without padding, which are a function of the fields. `read`
/// gives the same fields of them.
pub fn write(alloc: Global, fields: &RtpFields<'_>) -> Result<Blob, OutOfMemory>
    requires { IsWritable fields.now }
    ensures bytes { IfOk result (λ blob. blob ≡ spelling (packet_with fields.now [])) }
    ensures packet { IfOk result (λ blob. IsPacket (packet_with fields.now blob)) }
{
    let mut bytes = Vec::with_capacity(alloc, size_of(fields))?;
    push_fixed(&mut bytes, fields)?;
    push_csrcs(&mut bytes, fields.csrcs.as_slice())?;
    push_extension(&mut bytes, fields.extension)?;
    bytes.extend_from_slice(fields.payload)?;
    Ok(Blob::from_vec(bytes))
}

/// How many bytes the packet has. Memory is reserved once.
fn size_of(fields: &RtpFields<'_>) -> usize
    requires { IfSome fields.now.extension (λ x. AreWords x.1.now) }
{
    let extension = match fields.extension {
        Some((_, words)) => EXTENSION_HEAD + words.len(),
        None => 0,
    };
    let header = FIXED_SIZE + 4 * fields.csrcs.len() + extension;
    header.saturating_add(fields.payload.len())
}

/// The twelve bytes that each header has.
fn push_fixed(out: &mut Vec<u8>, fields: &RtpFields<'_>) -> Result<(), OutOfMemory>
    requires { fields.now.pt ≤ 127 }
    ensures bytes { OnOk result (out.new.items
        ≡ out.old.items ++ fixed_bytes (packet_with fields.now [])) }
    ensures ranges { OnOk result (IsInRange fields.now) }
{
    out.push(first_byte(fields))?;
    out.push(second_byte(fields))?;
    push_u16(out, fields.seq)?;
    push_u32(out, fields.timestamp)?;
    push_u32(out, fields.ssrc)?;
    Ok(())
}

fn first_byte(fields: &RtpFields<'_>) -> u8
    ensures value { result ≡ version_byte (packet_with fields.now []) }
    ensures csrcs { length fields.now.csrcs.items ≤ 15 }
{
    let count = fields.csrcs.len() as u8;
    match fields.extension {
        Some(_) => VERSION_BITS + EXTENSION_BIT + count,
        None => VERSION_BITS + count,
    }
}

fn second_byte(fields: &RtpFields<'_>) -> u8
    requires { fields.now.pt ≤ 127 }
    ensures { result ≡ type_byte (packet_with fields.now []) }
{
    if fields.marker {
        MARKER_BIT + fields.pt
    } else {
        fields.pt
    }
}

fn push_csrcs(out: &mut Vec<u8>, csrcs: &[u32]) -> Result<(), OutOfMemory>
    ensures bytes { OnOk result (out.new.items ≡ out.old.items ++ csrc_bytes csrcs.now) }
    ensures ranges { OnOk result ((k : ℕ) → slice_index csrcs.now k < 2 ^ 32) }
{
    for csrc in csrcs {
        push_u32(out, *csrc)?;
    }
    Ok(())
}

fn push_extension(out: &mut Vec<u8>, extension: Option<(u16, &[u8])>) -> Result<(), OutOfMemory>
    requires { IfSome extension (λ x. AreWords x.1.now) }
    ensures bytes { OnOk result (out.new.items
        ≡ out.old.items ++ extension_bytes (option_map (λ x. (x.0, x.1.now)) extension.entry)) }
    ensures range { OnOk result (IfSome extension.entry (λ x. x.0 < 2 ^ 16)) }
{
    if let Some((profile, words)) = extension {
        push_u16(out, profile)?;
        push_u16(out, (words.len() / 4) as u16)?;
        out.extend_from_slice(words)?;
    }
    Ok(())
}
