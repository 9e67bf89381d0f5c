//! Worked cases over files and sinks in memory: what is written, and how the run ends.
ghost use Rattle.std.specs.Prelude.{◌<◌};

use crate::tool::run_scan;
use command_core::Status;
use rtp_io::{MemoryFiles, MemorySink};
use rtp_units::OutOfMemory;
use std::alloc::Global;
use std::test::Fail;

const CAPTURE_HEADER: [u8; 24] = [
    0xd4, 0xc3, 0xb2, 0xa1, 2, 0, 4, 0, 0, 0, 0, 0, 0, 0, 0, 0, 0, 0, 4, 0, 1, 0, 0, 0,
];

// Ethernet, IPv4 from 10.0.0.1 to 10.0.0.2, UDP from port 40000 to port 5004, for a payload of 16
// bytes.
const FRAME_HEADER: [u8; 42] = [
    2, 0, 0, 0, 0, 2, 2, 0, 0, 0, 0, 1, 8, 0, 0x45, 0, 0, 44, 0, 0, 0, 0, 64, 17, 0, 0, 10, 0, 0,
    1, 10, 0, 0, 2, 0x9c, 0x40, 0x13, 0x8c, 0, 24, 0, 0,
];

// A packet of source 11223344: its sequence number, when it comes in milliseconds, and its
// timestamp.
type Sent = (u16, u32, u32);

fn add_record(bytes: &mut Vec<u8>, (seq, ms, timestamp): Sent) -> Result<(), OutOfMemory> {
    bytes.extend_from_slice(&(ms / 1000).to_le_bytes())?;
    bytes.extend_from_slice(&(ms % 1000 * 1000).to_le_bytes())?;
    bytes.extend_from_slice(&58u32.to_le_bytes())?;
    bytes.extend_from_slice(&58u32.to_le_bytes())?;
    bytes.extend_from_slice(&FRAME_HEADER)?;
    bytes.extend_from_slice(&[0x80, 96])?;
    bytes.extend_from_slice(&seq.to_be_bytes())?;
    bytes.extend_from_slice(&timestamp.to_be_bytes())?;
    bytes.extend_from_slice(&[0x11, 0x22, 0x33, 0x44, 1, 2, 3, 4])?;
    Ok(())
}

fn capture_of(alloc: Global, sent: &[Sent]) -> Result<Vec<u8>, OutOfMemory> {
    let mut bytes = Vec::from_slice(alloc, &CAPTURE_HEADER)?;
    for packet in sent {
        add_record(&mut bytes, *packet)?;
    }
    Ok(bytes)
}

// Frames of 20 ms with a clock of 48 kHz.
const OPUS: [Sent; 3] = [(1, 0, 0), (2, 20, 960), (3, 40, 1920)];

const LINE: &[u8] = b"stream 5004 11223344 96 3 0 40000000 48000 guessed\n";

const SCRIPT: &[u8] = b"session 0 5004 5005\n\
                      pt 0 96 48000\n\
                      set latency 200\n\
                      set mode slave\n\
                      set rtx off\n\
                      set rtx-delay 20\n\
                      set rtx-retry 40\n\
                      set rtx-max 3\n\
                      set reorder 3\n\
                      set dropout 3000\n\
                      set misorder 100\n\
                      set probation 2\n\
                      set faststart 0\n\
                      set report 0\n\
                      set timeout 25000\n\
                      set history 256\n\
                      set ssrc 00000001\n";

// From which of the words `-s c` on they are given, how many bytes of the capture are there, the
// call on the files and the write that fail (0 for none), and what comes: the status, the line and
// the script that are written, and the error text.
const ENDS: [(usize, usize, u64, u64, Status, &[u8], &[u8], &[u8]); 7] = [
    (1, 246, 0, 0, Status::Done, LINE, SCRIPT, b""),
    (0, 246, 0, 0, Status::Done, b"", SCRIPT, b""),
    (
        2,
        246,
        0,
        0,
        Status::Usage,
        b"",
        b"",
        b"rtpscan: usage: [-s] CAPTURE\n",
    ),
    (
        0,
        246,
        1,
        0,
        Status::Read,
        b"",
        b"",
        b"rtpbin: read failed\n",
    ),
    (
        0,
        246,
        3,
        0,
        Status::Read,
        b"",
        b"",
        b"rtpbin: read failed\n",
    ),
    (
        0,
        245,
        0,
        0,
        Status::Capture,
        b"",
        b"",
        b"rtpbin: capture at 172: cut-record\n",
    ),
    (0, 246, 0, 1, Status::Write, b"", b"", b""),
];

#[test]
fn ends(rt: HostRuntime) -> Result<(), Fail> {
    let alloc = rt.alloc();
    let words = vec![in alloc;
        String::from_str(alloc, "-s")?,
        String::from_str(alloc, "c")?,
    ]?;
    let capture = capture_of(alloc, &OPUS)?;
    for (i, (from, cut, call, write, status, line, script, text)) in ENDS.into_iter().enumerate() {
        assert!(rt; from <= 2 && words.len() == 2 && cut <= capture.len());
        let mut files = MemoryFiles::new(alloc)?;
        files.add(alloc, "c", &capture[..cut])?;
        files.fail_at(call)?;
        let mut out = MemorySink::with_room(alloc, 1000)?;
        out.fail_at(write)?;
        let mut err = MemorySink::with_room(alloc, 1000)?;
        let mut wanted = Vec::from_slice(alloc, line)?;
        wanted.extend_from_slice(script)?;
        let answer = run_scan(alloc, &words[from..], &mut files, &mut out, &mut err);
        assert_eq!(rt; answer, status, "status at {i}");
        assert_eq!(rt; out.bytes(), wanted.as_slice(), "output at {i}");
        assert_eq!(rt; err.bytes(), text, "errors at {i}");
    }
    Ok(())
}
