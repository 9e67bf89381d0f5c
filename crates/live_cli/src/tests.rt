//! Runs over files and sinks in memory: what is written, and how the run ends.
ghost use Rattle.std.specs.Prelude.{◌≤◌};

use crate::live::run_live;
use command_core::Status;
use live_run::{Gate, Open, Place};
use rtp_io::{MemoryFiles, MemorySink};
use rtp_units::OutOfMemory;
use std::alloc::Global;
use std::sync::atomic::{AtomicU64, Ordering};
use std::test::Fail;
use std::thread;

const SCRIPT: &[u8] =
    b"session 0 5004 5005\npt 0 96 90000\nset latency 100\nset probation 0\nset mode none\n";

const CAPTURE_HEADER: [u8; 24] = [
    0xd4, 0xc3, 0xb2, 0xa1, 2, 0, 4, 0, 0, 0, 0, 0, 0, 0, 0, 0, 0, 0, 4, 0, 1, 0, 0, 0,
];

// Ethernet, IPv4 from 10.0.0.1 to 10.0.0.2, UDP from port 40000, up to the low byte of the port
// that it goes to, for a payload of 16 bytes.
const FRAME_HEADER: [u8; 37] = [
    2, 0, 0, 0, 0, 2, 2, 0, 0, 0, 0, 1, 8, 0, 0x45, 0, 0, 44, 0, 0, 0, 0, 64, 17, 0, 0, 10, 0, 0,
    1, 10, 0, 0, 2, 0x9c, 0x40, 0x13,
];

// A packet of source 11223344: the low byte of its port, its sequence number, when it comes in
// milliseconds, and its timestamp.
type Sent = (u8, u16, u32, u32);

fn add_record(bytes: &mut Vec<u8>, (port, seq, ms, timestamp): Sent) -> Result<(), OutOfMemory> {
    bytes.extend_from_slice(&(ms / 1000).to_le_bytes())?;
    bytes.extend_from_slice(&(ms % 1000 * 1000).to_le_bytes())?;
    bytes.extend_from_slice(&58u32.to_le_bytes())?;
    bytes.extend_from_slice(&58u32.to_le_bytes())?;
    bytes.extend_from_slice(&FRAME_HEADER)?;
    bytes.extend_from_slice(&[port, 0, 24, 0, 0, 0x80, 96])?;
    bytes.extend_from_slice(&seq.to_be_bytes())?;
    bytes.extend_from_slice(&timestamp.to_be_bytes())?;
    bytes.extend_from_slice(&[0x11, 0x22, 0x33, 0x44, 1, 2, 3, 4])?;
    Ok(())
}

fn capture_of(alloc: Global, sent: &[Sent]) -> Result<Vec<u8>, OutOfMemory> {
    let mut bytes = Vec::from_slice(alloc, &CAPTURE_HEADER)?;
    for packet in sent {
        add_record(&mut bytes, *packet)?;
    }
    Ok(bytes)
}

fn live_words(alloc: Global) -> Result<Vec<String>, OutOfMemory> {
    let mut words = Vec::new(alloc);
    words.push(String::from_str(alloc, "live")?)?;
    words.push(String::from_str(alloc, "c")?)?;
    words.push(String::from_str(alloc, "s")?)?;
    Ok(words)
}

const WITH_A_LOSS: [Sent; 3] = [(0x8c, 1, 0, 0), (0x8c, 2, 20, 1800), (0x8c, 4, 60, 5400)];

// The journal of these packets, whose control ends before, between or behind them.
const JOURNALS: [&str; 5] = [
    "0 ends 8\n\
     1 push 0 0 0 1 o accepted 65537 0 0\n\
     2 push 0 1 20000000 2 o accepted 65538 0 0\n\
     3 push 0 2 60000000 4 o accepted 65540 0 0\n\
     4 ends 0\n",
    "0 push 0 0 0 1 o accepted 65537 0 0\n\
     1 ends 8\n\
     2 push 0 1 20000000 2 o accepted 65538 0 0\n\
     3 push 0 2 60000000 4 o accepted 65540 0 0\n\
     4 ends 0\n",
    "0 push 0 0 0 1 o accepted 65537 0 0\n\
     1 push 0 1 20000000 2 o accepted 65538 0 0\n\
     2 ends 8\n\
     3 push 0 2 60000000 4 o accepted 65540 0 0\n\
     4 ends 0\n",
    "0 push 0 0 0 1 o accepted 65537 0 0\n\
     1 push 0 1 20000000 2 o accepted 65538 0 0\n\
     2 push 0 2 60000000 4 o accepted 65540 0 0\n\
     3 ends 8\n\
     4 ends 0\n",
    "0 push 0 0 0 1 o accepted 65537 0 0\n\
     1 push 0 1 20000000 2 o accepted 65538 0 0\n\
     2 push 0 2 60000000 4 o accepted 65540 0 0\n\
     3 ends 0\n\
     4 ends 8\n",
];

const TURNS: &str = "5 out 65537 0 96 0 4\n\
     6 out 65538 20000000 96 0 4\n\
     7 clock 9 140000000\n\
     8 lost 65539 1 40000000 20000000\n\
     9 out 65540 60000000 96 0 4\n\
     10 end\n\
     done 3 1 3 1 0\n";

fn is_text(alloc: Global, bytes: &[u8]) -> Result<bool, OutOfMemory> {
    for journal in JOURNALS {
        let text = format!(in alloc; "history 0 0 11223344\n{journal}{TURNS}")?;
        if text.as_bytes() == bytes {
            return Ok(true);
        }
    }
    Ok(false)
}

#[test]
fn histories(rt: HostRuntime) -> Result<(), Fail> {
    let alloc = rt.alloc();
    let mut files = MemoryFiles::new(alloc)?;
    files.add(alloc, "c", &capture_of(alloc, &WITH_A_LOSS)?)?;
    files.add(alloc, "s", SCRIPT)?;
    let mut out = MemorySink::with_room(alloc, 1000)?;
    let mut err = MemorySink::with_room(alloc, 1000)?;
    let words = live_words(alloc)?;
    let status = run_live(&rt, alloc, &words, &mut files, &mut out, &mut err, &Open);
    assert_eq!(rt; status, Status::Done);
    assert!(rt; is_text(alloc, out.bytes())?);
    assert_eq!(rt; err.bytes().len(), 0);
    Ok(())
}

// How many words, bytes of the capture and of the script there are; the call on the files and the
// write that fail, none being 0; the status, how many bytes are written, and the text.
type Case = (usize, usize, usize, u64, u64, Status, usize, &'static [u8]);

const ENDS: [Case; 8] = [
    (3, 24, 80, 0, 0, Status::Done, 15, b""),
    (
        2,
        24,
        80,
        0,
        0,
        Status::Usage,
        0,
        b"rtpbin: usage: replay [-x] CAPTURE SCRIPT | dump CAPTURE | \
          rtxsend CAPTURE SCRIPT | gen NUMBER COUNT | live [-x] CAPTURE SCRIPT | \
          sdp CAPTURE SDP TIMES | depay FORMAT PT CAPTURE SCRIPT\n",
    ),
    (
        3,
        24,
        78,
        0,
        0,
        Status::Script,
        0,
        b"rtpbin: script line 5: word\n",
    ),
    (3, 98, 80, 1, 0, Status::Read, 0, b"rtpbin: read failed\n"),
    (3, 98, 80, 6, 0, Status::Read, 0, b"rtpbin: read failed\n"),
    (
        3,
        97,
        80,
        0,
        0,
        Status::Capture,
        0,
        b"rtpbin: capture at 24: cut-record\n",
    ),
    (3, 98, 80, 0, 1, Status::Write, 0, b""),
    (3, 98, 80, 0, 2, Status::Write, 21, b""),
];

#[test]
fn ends(rt: HostRuntime) -> Result<(), Fail> {
    let alloc = rt.alloc();
    let words = live_words(alloc)?;
    let capture = capture_of(alloc, &[(0x8c, 1, 0, 0)])?;
    for (i, (count, cut, script, call, write, status, size, text)) in ENDS.into_iter().enumerate() {
        assert!(rt;
            count <= 3 && words.len() == 3 && cut <= capture.len() && script <= SCRIPT.len()
        );
        let mut files = MemoryFiles::new(alloc)?;
        files.add(alloc, "c", &capture[..cut])?;
        files.add(alloc, "s", &SCRIPT[..script])?;
        files.fail_at(call)?;
        let mut out = MemorySink::with_room(alloc, 1000)?;
        out.fail_at(write)?;
        let mut err = MemorySink::with_room(alloc, 1000)?;
        let answer = run_live(
            &rt,
            alloc,
            &words[..count],
            &mut files,
            &mut out,
            &mut err,
            &Open,
        );
        assert_eq!(rt; answer, status, "status at {i}");
        assert_eq!(rt; out.bytes().len(), size, "output at {i}");
        assert_eq!(rt; err.bytes(), text, "errors at {i}");
    }
    Ok(())
}

const TWO_SESSIONS: &[u8] = b"session 0 5004 5005\n\
      session 1 5006 5007\n\
      session 2 5008 5009\n\
      pt 0 96 90000\n\
      pt 1 96 90000\n\
      rtx 2 97 0 96\n\
      set latency 100\n\
      set probation 0\n\
      set mode none\n";

// Waits until the count isn't 0, for a while at most, and counts where it stayed 0.
fn hold(count: &AtomicU64, missed: &AtomicU64) {
    for _ in 0..10_000_000u32 {
        if count.load(Ordering::SeqCst) != 0 {
            return;
        }
        thread::yield_now();
    }
    missed.fetch_add(1, Ordering::SeqCst);
}

// Holds the first push of session 1 until lane 0 has given a packet out, that packet's place until
// the push has come to the gate, and the last push of session 0 until a packet was given out.
#[derive(Drop)]
struct Meeting {
    second: AtomicU64,
    outputs: AtomicU64,
    missed: AtomicU64,
}

impl Gate for Meeting {
    fn pass(&self, place: Place) {
        match place {
            Place::Push { session: 0, k: 15 } => hold(&self.outputs, &self.missed),
            Place::Push { session: 1, k: 0 } => {
                self.second.fetch_add(1, Ordering::SeqCst);
                hold(&self.outputs, &self.missed);
            }
            Place::Output { lane: 0 } => {
                self.outputs.fetch_add(1, Ordering::SeqCst);
                hold(&self.second, &self.missed);
            }
            _ => {}
        }
    }
}

// Sixteen packets of session 0, 20 ms apart, and as many of session 1, each 10 ms later.
fn capture_of_two(alloc: Global) -> Result<Vec<u8>, OutOfMemory> {
    let mut bytes = Vec::from_slice(alloc, &CAPTURE_HEADER)?;
    for k in 0..16u32 {
        add_record(&mut bytes, (0x8c, 1 + k as u16, 20 * k, 1800 * k))?;
        add_record(&mut bytes, (0x8e, 1 + k as u16, 20 * k + 10, 1800 * k))?;
    }
    Ok(bytes)
}

// Where a text stands in another.
fn place_of(text: &[u8], part: &[u8]) -> Option<usize> {
    for at in 0..text.len() {
        if text[at..].starts_with(part) {
            return Some(at);
        }
    }
    None
}

#[test]
fn workers_beside_each_other(rt: HostRuntime) -> Result<(), Fail> {
    let alloc = rt.alloc();
    let gate = Meeting {
        second: AtomicU64::new(0),
        outputs: AtomicU64::new(0),
        missed: AtomicU64::new(0),
    };
    let mut files = MemoryFiles::new(alloc)?;
    files.add(alloc, "c", &capture_of_two(alloc)?)?;
    files.add(alloc, "s", TWO_SESSIONS)?;
    let mut out = MemorySink::with_room(alloc, 10_000)?;
    let mut err = MemorySink::with_room(alloc, 1000)?;
    let words = live_words(alloc)?;
    let status = run_live(&rt, alloc, &words, &mut files, &mut out, &mut err, &gate);
    assert_eq!(rt; status, Status::Done);
    assert_eq!(rt; gate.missed.load(Ordering::SeqCst), 0);
    let text = out.bytes();
    assert!(rt; text.ends_with(b"done 32 2 32 0 0\n"));
    // In lane 0 a packet left before the last one came.
    let first = place_of(text, b" out 65537 0 ");
    let last = place_of(text, b" push 0 15 ");
    assert!(rt; first.is_some() && first < last);
    Ok(())
}
