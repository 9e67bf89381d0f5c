//! Worked cases over files and sinks in memory: what is written, and how the run ends.
ghost use Rattle.std.specs.Prelude.{◌<◌};

use crate::tool::run_tool;
use command_core::Status;
use rtp_io::{MemoryFiles, MemorySink, PULL_BYTES};
use rtp_units::OutOfMemory;
use std::alloc::Global;
use std::test::Fail;

const SCRIPT: &[u8] =
    b"session 0 5004 5005\npt 0 96 90000\nset latency 100\nset probation 0\nset mode none\n";

const CAPTURE_HEADER: [u8; 24] = [
    0xd4, 0xc3, 0xb2, 0xa1, 2, 0, 4, 0, 0, 0, 0, 0, 0, 0, 0, 0, 0, 0, 4, 0, 1, 0, 0, 0,
];

// Ethernet, IPv4 from 10.0.0.1 to 10.0.0.2, UDP from port 40000 to port 5004, for a payload of 16
// bytes.
const FRAME_HEADER: [u8; 42] = [
    2, 0, 0, 0, 0, 2, 2, 0, 0, 0, 0, 1, 8, 0, 0x45, 0, 0, 44, 0, 0, 0, 0, 64, 17, 0, 0, 10, 0, 0,
    1, 10, 0, 0, 2, 0x9c, 0x40, 0x13, 0x8c, 0, 24, 0, 0,
];

// A packet of source 11223344: its sequence number, when it comes in milliseconds, and its
// timestamp.
type Sent = (u16, u32, u32);

fn add_record(bytes: &mut Vec<u8>, (seq, ms, timestamp): Sent) -> Result<(), OutOfMemory> {
    bytes.extend_from_slice(&(ms / 1000).to_le_bytes())?;
    bytes.extend_from_slice(&(ms % 1000 * 1000).to_le_bytes())?;
    bytes.extend_from_slice(&58u32.to_le_bytes())?;
    bytes.extend_from_slice(&58u32.to_le_bytes())?;
    bytes.extend_from_slice(&FRAME_HEADER)?;
    bytes.extend_from_slice(&[0x80, 96])?;
    bytes.extend_from_slice(&seq.to_be_bytes())?;
    bytes.extend_from_slice(&timestamp.to_be_bytes())?;
    bytes.extend_from_slice(&[0x11, 0x22, 0x33, 0x44, 1, 2, 3, 4])?;
    Ok(())
}

fn capture_of(alloc: Global, sent: &[Sent]) -> Result<Vec<u8>, OutOfMemory> {
    let mut bytes = Vec::from_slice(alloc, &CAPTURE_HEADER)?;
    for packet in sent {
        add_record(&mut bytes, *packet)?;
    }
    Ok(bytes)
}

// The packets, and what is written for them.
const CASES: [(&[Sent], &str); 7] = [
    (
        &[(1, 0, 0), (2, 20, 1800), (3, 40, 3600)],
        "100000000 out 0 65537 0 96 0 4\n\
         100000000 out 0 65538 20000000 96 0 4\n\
         100000000 out 0 65539 40000000 96 0 4\n\
         100000000 end 0\n\
         done 3 1 3 0 0\n",
    ),
    (
        &[(1, 0, 0), (2, 20, 1800), (4, 60, 5400)],
        "100000000 out 0 65537 0 96 0 4\n\
         100000000 out 0 65538 20000000 96 0 4\n\
         140000000 lost 0 65539 1 40000000 20000000\n\
         140000000 out 0 65540 60000000 96 0 4\n\
         140000000 end 0\n\
         done 3 1 3 1 0\n",
    ),
    (
        &[(1, 0, 0), (2, 20, 1800), (4, 60, 5400), (3, 140, 3600)],
        "100000000 out 0 65537 0 96 0 4\n\
         100000000 out 0 65538 20000000 96 0 4\n\
         140000000 lost 0 65539 1 40000000 20000000\n\
         140000000 out 0 65540 60000000 96 0 4\n\
         140000000 refuse 0 3 o late\n\
         140000000 end 0\n\
         done 4 1 3 1 1\n",
    ),
    (
        &[
            (65534, 0, 0),
            (65535, 20, 1800),
            (0, 40, 3600),
            (1, 60, 5400),
        ],
        "100000000 out 0 131070 0 96 0 4\n\
         100000000 out 0 131071 20000000 96 0 4\n\
         100000000 out 0 131072 40000000 96 0 4\n\
         100000000 out 0 131073 60000000 96 0 4\n\
         100000000 end 0\n\
         done 4 1 4 0 0\n",
    ),
    (
        &[(2, 0, 1800), (1, 10, 0)],
        "100000000 out 0 65537 0 96 0 4\n\
         100000000 out 0 65538 0 96 0 4\n\
         100000000 end 0\n\
         done 2 1 2 0 0\n",
    ),
    (
        &[(5, 0, 0), (5, 5, 0)],
        "5000000 refuse 0 5 o duplicate\n\
         100000000 out 0 65541 0 96 0 4\n\
         100000000 end 0\n\
         done 2 1 1 0 1\n",
    ),
    (&[], "done 0 0 0 0 0\n"),
];

const HEAD: &str = "0 pt 0 96 90000\n0 lane 0 0 11223344\n";

#[test]
fn replays(rt: HostRuntime) -> Result<(), Fail> {
    let alloc = rt.alloc();
    let words = vec![in alloc;
        String::from_str(alloc, "replay")?,
        String::from_str(alloc, "c")?,
        String::from_str(alloc, "s")?,
    ]?;
    for (i, (sent, log)) in CASES.into_iter().enumerate() {
        let mut files = MemoryFiles::new(alloc)?;
        files.add(alloc, "c", &capture_of(alloc, sent)?)?;
        files.add(alloc, "s", SCRIPT)?;
        let mut out = MemorySink::with_room(alloc, 1000)?;
        let mut err = MemorySink::with_room(alloc, 1000)?;
        let status = run_tool(alloc, &words, &mut files, &mut out, &mut err);
        let head = if sent.is_empty() { "" } else { HEAD };
        let wanted = format!(in alloc; "{head}{log}")?;
        assert_eq!(rt; status, Status::Done, "status at {i}");
        assert_eq!(rt; out.bytes(), wanted.as_bytes(), "output at {i}");
        assert_eq!(rt; err.bytes().len(), 0, "errors at {i}");
    }
    Ok(())
}

const TWO_SESSIONS: &[u8] = b"session 0 5004 5005\n\
      session 1 5006 5007\n\
      pt 0 96 90000\n\
      pt 1 96 8000\n\
      set latency 100\n\
      set probation 0\n\
      set mode none\n\
      at 30 flush-start 1\n\
      at 50 flush-stop 1\n";

const TWO_SESSIONS_LOG: &[u8] = b"0 pt 0 96 90000\n\
      0 lane 0 0 11223344\n\
      10000000 pt 1 96 8000\n\
      10000000 lane 1 1 11223344\n\
      30000000 flush 1 1\n\
      50000000 flushed 1\n\
      100000000 out 0 65537 0 96 0 4\n\
      100000000 out 0 65538 20000000 96 0 4\n\
      100000000 end 0\n\
      100000000 end 1\n\
      done 3 2 2 0 0\n";

// The last byte of the second packet's port.
const SECOND_PORT: usize = 24 + 74 + 16 + 37;

// One source in two sessions has two lanes, and an item comes to the lanes of its session alone.
#[test]
fn two_sessions(rt: HostRuntime) -> Result<(), Fail> {
    let alloc = rt.alloc();
    let words = vec![in alloc;
        String::from_str(alloc, "replay")?,
        String::from_str(alloc, "c")?,
        String::from_str(alloc, "s")?,
    ]?;
    let mut capture = capture_of(alloc, &[(1, 0, 0), (7, 10, 0), (2, 20, 1800)])?;
    if let Some(port) = capture.get_mut(SECOND_PORT) {
        *port = 0x8e;
    }
    let mut files = MemoryFiles::new(alloc)?;
    files.add(alloc, "c", &capture)?;
    files.add(alloc, "s", TWO_SESSIONS)?;
    let mut out = MemorySink::with_room(alloc, 1000)?;
    let mut err = MemorySink::with_room(alloc, 1000)?;
    let status = run_tool(alloc, &words, &mut files, &mut out, &mut err);
    assert_eq!(rt; status, Status::Done);
    assert_eq!(rt; out.bytes(), TWO_SESSIONS_LOG);
    assert_eq!(rt; err.bytes().len(), 0);
    Ok(())
}

// Each payload that leaves is a media unit.
#[test]
fn units(rt: HostRuntime) -> Result<(), Fail> {
    let alloc = rt.alloc();
    let words = vec![in alloc;
        String::from_str(alloc, "depay")?,
        String::from_str(alloc, "pcmu")?,
        String::from_str(alloc, "096")?,
        String::from_str(alloc, "c")?,
        String::from_str(alloc, "s")?,
    ]?;
    let mut files = MemoryFiles::new(alloc)?;
    files.add(alloc, "c", &capture_of(alloc, &[(1, 0, 0)])?)?;
    files.add(alloc, "s", SCRIPT)?;
    let mut out = MemorySink::with_room(alloc, 1000)?;
    let mut err = MemorySink::with_room(alloc, 1000)?;
    let status = run_tool(alloc, &words, &mut files, &mut out, &mut err);
    assert_eq!(rt; status, Status::Done);
    assert_eq!(rt;
        out.bytes(),
        b"100000000 unit 0 65537 65537 0 01020304\ndone 1 1 0\n".as_slice()
    );
    Ok(())
}

const SDP: &[u8] = b"v=0\r\no=- 1 1 IN IP4 127.0.0.1\r\nm=video 5004 RTP/AVP 96\r\n\
      a=rtpmap:96 H264/90000\r\n";

const TIMES: &[u8] = b"set latency 100\nset probation 0\nset mode none\n";

const DESCRIBED_LOG: &[u8] = b"0 pt 0 96 90000\n\
      0 lane 0 0 11223344\n\
      100000000 out 0 65537 0 96 0 4\n\
      100000000 end 0\n\
      done 1 1 1 0 0\n";

const CUT_SDP: &[u8] = b"v=0\r\no=- 1 1 IN IP4 127.0.0.1\r\nm=video 5004 RTP/AV";

const CUT_TIMES: &[u8] = b"set latency 100\nset probation 0\nset mode";

// The description and the other text, the call on the files that fails (0 for none), and what comes:
// the status, the log, and the error text. Three calls open and read each of the texts.
const DESCRIBED: [(&[u8], &[u8], u64, Status, &[u8], &[u8]); 6] = [
    (SDP, TIMES, 0, Status::Done, DESCRIBED_LOG, b""),
    (
        CUT_SDP,
        CUT_TIMES,
        0,
        Status::Script,
        b"",
        b"rtpbin: sdp line 3: media\n",
    ),
    (
        SDP,
        CUT_TIMES,
        0,
        Status::Script,
        b"",
        b"rtpbin: script line 3: word\n",
    ),
    (
        CUT_SDP,
        CUT_TIMES,
        1,
        Status::Read,
        b"",
        b"rtpbin: read failed\n",
    ),
    (
        CUT_SDP,
        CUT_TIMES,
        5,
        Status::Read,
        b"",
        b"rtpbin: read failed\n",
    ),
    (SDP, TIMES, 8, Status::Read, b"", b"rtpbin: read failed\n"),
];

#[test]
fn described(rt: HostRuntime) -> Result<(), Fail> {
    let alloc = rt.alloc();
    let words = vec![in alloc;
        String::from_str(alloc, "sdp")?,
        String::from_str(alloc, "-x")?,
        String::from_str(alloc, "d")?,
        String::from_str(alloc, "t")?,
    ]?;
    let capture = capture_of(alloc, &[(1, 0, 0)])?;
    for (i, (sdp, times, call, status, log, text)) in DESCRIBED.into_iter().enumerate() {
        let mut files = MemoryFiles::new(alloc)?;
        files.add(alloc, "-x", &capture)?;
        files.add(alloc, "d", sdp)?;
        files.add(alloc, "t", times)?;
        files.fail_at(call)?;
        let mut out = MemorySink::with_room(alloc, 1000)?;
        let mut err = MemorySink::with_room(alloc, 1000)?;
        let answer = run_tool(alloc, &words, &mut files, &mut out, &mut err);
        assert_eq!(rt; answer, status, "status at {i}");
        assert_eq!(rt; out.bytes(), log, "output at {i}");
        assert_eq!(rt; err.bytes(), text, "errors at {i}");
    }
    Ok(())
}

const USAGE: &[u8] = b"rtpbin: usage: replay [-x] CAPTURE SCRIPT | dump CAPTURE | \
      rtxsend CAPTURE SCRIPT | gen NUMBER COUNT | live [-x] CAPTURE SCRIPT | \
      sdp CAPTURE SDP TIMES | depay FORMAT PT CAPTURE SCRIPT\n";

// How many words of `replay c s` are given, how many bytes of the capture and the script are there,
// the call on the files and the write that fail (0 for none), and what comes: the status, how many
// bytes are written, and the error text. With 50 bytes the script keeps its probation of 2.
const ENDS: [(usize, usize, usize, u64, u64, Status, usize, &[u8]); 10] = [
    (3, 98, 80, 0, 0, Status::Done, 98, b""),
    (2, 98, 80, 0, 0, Status::Usage, 0, USAGE),
    (
        3,
        98,
        78,
        0,
        0,
        Status::Script,
        0,
        b"rtpbin: script line 5: word\n",
    ),
    (3, 98, 50, 0, 0, Status::Done, 35, b""),
    (3, 98, 80, 1, 0, Status::Read, 0, b"rtpbin: read failed\n"),
    (3, 98, 80, 6, 0, Status::Read, 36, b"rtpbin: read failed\n"),
    (
        3,
        23,
        80,
        0,
        0,
        Status::Capture,
        0,
        b"rtpbin: capture at 0: cut-header\n",
    ),
    (
        3,
        97,
        80,
        0,
        0,
        Status::Capture,
        0,
        b"rtpbin: capture at 24: cut-record\n",
    ),
    (3, 98, 80, 0, 2, Status::Write, 16, b""),
    (3, 98, 80, 0, 6, Status::Done, 98, b""),
];

#[test]
fn ends(rt: HostRuntime) -> Result<(), Fail> {
    let alloc = rt.alloc();
    let words = vec![in alloc;
        String::from_str(alloc, "replay")?,
        String::from_str(alloc, "c")?,
        String::from_str(alloc, "s")?,
    ]?;
    let capture = capture_of(alloc, &[(1, 0, 0)])?;
    for (i, (count, cut, script, call, write, status, size, text)) in ENDS.into_iter().enumerate() {
        assert!(rt;
            count <= 3 && words.len() == 3 && cut <= capture.len() && script <= SCRIPT.len()
        );
        let mut files = MemoryFiles::new(alloc)?;
        files.add(alloc, "c", &capture[..cut])?;
        files.add(alloc, "s", &SCRIPT[..script])?;
        files.fail_at(call)?;
        let mut out = MemorySink::with_room(alloc, 1000)?;
        out.fail_at(write)?;
        let mut err = MemorySink::with_room(alloc, 1000)?;
        let answer = run_tool(alloc, &words[..count], &mut files, &mut out, &mut err);
        assert_eq!(rt; answer, status, "status at {i}");
        assert_eq!(rt; out.bytes().len(), size, "output at {i}");
        assert_eq!(rt; err.bytes(), text, "errors at {i}");
    }
    Ok(())
}

const STEADY: [Sent; 3] = [(1, 0, 0), (2, 20, 1800), (3, 40, 3600)];

const STEADY_LOG: &[u8] = b"0 pt 0 96 90000\n\
      0 lane 0 0 11223344\n\
      100000000 out 0 65537 0 96 0 4\n\
      100000000 out 0 65538 20000000 96 0 4\n\
      100000000 out 0 65539 40000000 96 0 4\n\
      100000000 end 0\n\
      done 3 1 3 0 0\n";

// The write that fails, and how many bytes the lines before it have; no write is the eighth.
const WRITES: [(u64, usize); 8] = [
    (1, 0),
    (2, 16),
    (3, 36),
    (4, 67),
    (5, 105),
    (6, 143),
    (7, 159),
    (8, 174),
];

// A run of the steady packets in which a call on the files, a write, or neither fails, and a read
// or a write moves at most `step` bytes: the status, and how much of the log is written.
fn run_failing(
    alloc: Global,
    call: u64,
    write: u64,
    step: usize,
) -> Result<(Status, usize, bool), OutOfMemory>
    requires { 0 < step }
{
    let mut words = Vec::new(alloc);
    words.push(String::from_str(alloc, "replay")?)?;
    words.push(String::from_str(alloc, "c")?)?;
    words.push(String::from_str(alloc, "s")?)?;
    let mut files = MemoryFiles::new(alloc)?;
    files.add(alloc, "c", &capture_of(alloc, &STEADY)?)?;
    files.add(alloc, "s", SCRIPT)?;
    files.fail_at(call)?;
    files.set_step(step);
    let mut out = MemorySink::with_room(alloc, 1000)?;
    out.fail_at(write)?;
    out.set_step(step);
    let mut err = MemorySink::with_room(alloc, 1000)?;
    let status = run_tool(alloc, &words, &mut files, &mut out, &mut err);
    let written = out.bytes();
    Ok((status, written.len(), STEADY_LOG.starts_with(written)))
}

#[test]
fn failures(rt: HostRuntime) -> Result<(), Fail> {
    let alloc = rt.alloc();
    for (write, front) in WRITES {
        let (status, size, is_front) = run_failing(alloc, 0, write, 10_000)?;
        let wanted = if write == 8 {
            Status::Done
        } else {
            Status::Write
        };
        assert_eq!(rt; status, wanted, "write {write}");
        assert_eq!(rt; size, front, "write {write}");
        assert!(rt; is_front, "write {write}");
    }
    let mut done = false;
    for call in 1..=12 {
        let (status, size, is_front) = run_failing(alloc, call, 0, 10_000)?;
        assert!(rt; is_front, "call {call}");
        if status == Status::Done {
            done = true;
            assert_eq!(rt; size, STEADY_LOG.len(), "call {call}");
        } else {
            assert_eq!(rt; status, Status::Read, "call {call}");
            assert!(rt; !done, "call {call}");
        }
    }
    assert!(rt; done);
    let (status, size, is_front) = run_failing(alloc, 0, 0, 1)?;
    assert!(rt; status == Status::Done && size == STEADY_LOG.len() && is_front);
    Ok(())
}

// A record, and zeros behind it.
fn long_capture(alloc: Global) -> Result<Vec<u8>, OutOfMemory> {
    let mut capture = capture_of(alloc, &[(1, 0, 0)])?;
    let rest: Vec<u8> = vec![in alloc; 0; 300_000]?;
    capture.extend_from_slice(&rest)?;
    Ok(capture)
}

// What is left of a long capture where the first write fails, and how the run ends.
fn left_of_long(alloc: Global, words: &[String]) -> Result<(Status, usize), OutOfMemory> {
    let capture = long_capture(alloc)?;
    let mut files = MemoryFiles::new(alloc)?;
    files.add(alloc, "c", &capture)?;
    files.add(alloc, "s", SCRIPT)?;
    let mut out = MemorySink::with_room(alloc, 1000)?;
    out.fail_at(1)?;
    let mut err = MemorySink::with_room(alloc, 1000)?;
    let status = run_tool(alloc, words, &mut files, &mut out, &mut err);
    Ok((status, files.left().len()))
}

#[test]
fn takes_no_more_than_it_holds(rt: HostRuntime) -> Result<(), Fail> {
    let alloc = rt.alloc();
    let mut words = Vec::new(alloc);
    words.push(String::from_str(alloc, "dump")?)?;
    words.push(String::from_str(alloc, "c")?)?;
    let (status, left) = left_of_long(alloc, &words)?;
    assert_eq!(rt; status, Status::Write);
    assert!(rt; left >= 300_000 - PULL_BYTES);
    let mut words = Vec::new(alloc);
    words.push(String::from_str(alloc, "replay")?)?;
    words.push(String::from_str(alloc, "c")?)?;
    words.push(String::from_str(alloc, "s")?)?;
    let (status, left) = left_of_long(alloc, &words)?;
    assert_eq!(rt; status, Status::Write);
    assert!(rt; left >= 300_000 - PULL_BYTES);
    Ok(())
}
