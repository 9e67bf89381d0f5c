//! Captures as bytes: little-endian numbers, stamps in nanoseconds.
ghost use Rattle.std.specs.Prelude.{◌≡◌, ◌<◌, ◌≤◌, ◌*◌, ◌^◌, ◌%◌, ◌++◌, ℕ, List, IfOk, Ok, true, length, IsTrue};
ghost use Rattle.pcap_file.specs.Capture.{format_of, is_link};
ghost use Rattle.pcap_file.specs.Writing.{written_header, written_format, written_fields, written_record, ReadsBack};

use crate::record::MAX_LENGTH;
use byteorder::{ByteOrder, LittleEndian};
use rtp_units::{Blob, OutOfMemory};
use std::alloc::Global;

/// The file header of a capture with stamps in nanoseconds and frames of this link type.
pub fn header_bytes(link: u32) -> [u8; 24]
    ensures bytes { result ≡ written_header link }
    ensures reads_back { IsTrue (is_link (link % 65536))
        → format_of result ≡ Ok (written_format link) }
{
    let mut bytes = [0; 24];
    LittleEndian::write_u32(&mut bytes, 0xa1b2_3c4d);
    LittleEndian::write_u16(&mut bytes[4..], 2);
    LittleEndian::write_u16(&mut bytes[6..], 4);
    LittleEndian::write_u32(&mut bytes[16..], MAX_LENGTH);
    LittleEndian::write_u32(&mut bytes[20..], link);
    bytes
}

/// A record of a whole frame, stamped with a time in nanoseconds.
pub fn record_bytes(alloc: Global, time: u64, frame: &[u8]) -> Result<Blob, OutOfMemory>
    requires time { time < 2 ^ 32 * 1000000000 }
    requires frame { length frame.now ≤ 262144 }
    ensures bytes { IfOk result (λ blob. blob ≡ written_record time frame.now) }
    ensures reads_back { IfOk result (λ blob. ReadsBack time frame.now blob) }
{
    let mut bytes = Vec::with_capacity(alloc, 16 + frame.len())?;
    bytes.extend_from_slice(&record_header(time, frame.len() as u32))?;
    bytes.extend_from_slice(frame)?;
    Ok(Blob::from_vec(bytes))
}

fn record_header(time: u64, size: u32) -> [u8; 16]
    requires time { time < 2 ^ 32 * 1000000000 }
    ensures { result ≡ written_fields time size }
{
    let mut bytes = [0; 16];
    LittleEndian::write_u32(&mut bytes, (time / 1_000_000_000) as u32);
    LittleEndian::write_u32(&mut bytes[4..], (time % 1_000_000_000) as u32);
    LittleEndian::write_u32(&mut bytes[8..], size);
    LittleEndian::write_u32(&mut bytes[12..], size);
    bytes
}
