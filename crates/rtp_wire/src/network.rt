//! Numbers in network order, at their places in a packet.
ghost use Rattle.std.specs.Prelude.{◌≡◌, ◌+◌, ◌≤◌, ◌++◌, length, OnErr, OnOk};
ghost use Rattle.byteorder.specs.Endian.{big_bytes};
ghost use Rattle.rtp_wire.specs.Network.{number16, number32};

use byteorder::{BigEndian, ByteOrder};
use rtp_units::OutOfMemory;

/// The 16-bit number whose first byte stands at `at`.
pub fn u16_at(bytes: &[u8], at: usize) -> u16
    requires { at + 2 ≤ length bytes.now }
    ensures { result ≡ number16 bytes.now at }
{
    BigEndian::read_u16(&bytes[at..at + 2])
}

/// The 32-bit number whose first byte stands at `at`.
pub fn u32_at(bytes: &[u8], at: usize) -> u32
    requires { at + 4 ≤ length bytes.now }
    ensures { result ≡ number32 bytes.now at }
{
    BigEndian::read_u32(&bytes[at..at + 4])
}

/// Adds a 16-bit number at the end. After a refusal the bytes are as before.
pub fn push_u16(out: &mut Vec<u8>, number: u16) -> Result<(), OutOfMemory>
    ensures ok { OnOk result (out.new.items ≡ out.old.items ++ big_bytes 2 number) }
    ensures err { OnErr result (out.new.items ≡ out.old.items) }
{
    let mut bytes = [0; 2];
    BigEndian::write_u16(&mut bytes, number);
    out.extend_from_slice(&bytes)?;
    Ok(())
}

/// Adds a 32-bit number at the end. After a refusal the bytes are as before.
pub fn push_u32(out: &mut Vec<u8>, number: u32) -> Result<(), OutOfMemory>
    ensures ok { OnOk result (out.new.items ≡ out.old.items ++ big_bytes 4 number) }
    ensures err { OnErr result (out.new.items ≡ out.old.items) }
{
    let mut bytes = [0; 4];
    BigEndian::write_u32(&mut bytes, number);
    out.extend_from_slice(&bytes)?;
    Ok(())
}
