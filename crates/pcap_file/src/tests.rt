//! Captures and frames whose bytes come from outside.
use crate::fault::CaptureFault;
use crate::frame::datagram;
use crate::pcap::{Opened, open_any, open_capture};
use crate::record::PcapRecord;
use crate::udp::Skip;
use crate::write::{header_bytes, record_bytes};
use rtp_io::{Files, MemoryFiles, Pull};
use rtp_units::Blob;
use std::alloc::Global;
use std::test::Fail;

// An RTP packet from 10.0.0.1, port 40000, to 10.0.0.2, port 5004, in an Ethernet frame.
const FRAME: [u8; 58] = [
    2, 0, 0, 0, 0, 2, 2, 0, 0, 0, 0, 1, 0x08, 0x00, 0x45, 0, 0, 0x2c, 0, 0, 0, 0, 0x40, 0x11, 0, 0,
    10, 0, 0, 1, 10, 0, 0, 2, 0x9c, 0x40, 0x13, 0x8c, 0, 0x18, 0, 0, 0x80, 0x60, 0, 1, 0, 0, 0, 0,
    0x11, 0x22, 0x33, 0x44, 1, 2, 3, 4,
];

fn record(alloc: Global, bytes: &[u8], original: u32) -> Result<PcapRecord, Fail> {
    Ok(PcapRecord {
        offset: 24,
        stamp: 0,
        original,
        bytes: Blob::copy_of(alloc, bytes)?,
    })
}

#[test]
fn frames(rt: HostRuntime) -> Result<(), Fail> {
    let alloc = rt.alloc();
    let whole = record(alloc, &FRAME, 58)?;
    let sent = datagram(1, &whole).expect(&rt, "a datagram");
    assert_eq!(rt;
        (sent.from.family, sent.from.port, sent.to.port),
        (4, 40000, 5004)
    );
    assert_eq!(rt;
        sent.from.ip,
        [10, 0, 0, 1, 0, 0, 0, 0, 0, 0, 0, 0, 0, 0, 0, 0]
    );
    assert_eq!(rt; sent.to.ip[3], 2);
    assert_eq!(rt; sent.payload, &FRAME[42..]);

    // One byte of the frame is another one.
    let cases = [
        (58, 13, 0x06, Err(Skip::NotIp)),
        (58, 20, 0x20, Err(Skip::Fragment)),
        (58, 20, 0x40, Ok(16)),
        (58, 21, 0x01, Err(Skip::Fragment)),
        (58, 23, 6, Err(Skip::NotUdp)),
        (58, 39, 7, Err(Skip::Malformed)),
        (58, 39, 0x19, Err(Skip::Malformed)),
        (58, 39, 8, Ok(0)),
        (58, 17, 0x2d, Err(Skip::Malformed)),
        (58, 14, 0x44, Err(Skip::Malformed)),
        (58, 14, 0x65, Err(Skip::Malformed)),
        (59, 13, 0x06, Err(Skip::Cut)),
    ];
    for (original, place, value, want) in cases {
        assert!(rt; place < 58);
        let mut frame = FRAME;
        frame[place] = value;
        let edited = record(alloc, &frame, original)?;
        let answer = datagram(1, &edited).map(|sent| sent.payload.len());
        assert_eq!(rt; answer, want, "byte {place}");
    }
    Ok(())
}

#[test]
fn links(rt: HostRuntime) -> Result<(), Fail> {
    let alloc = rt.alloc();
    let packet = &FRAME[14..];
    let addresses = &FRAME[..12];
    // An IPv6 packet with hop-by-hop options, of eight bytes, before UDP.
    let mut sixth = [0; 57];
    sixth[0] = 0x60;
    sixth[5] = 17;
    sixth[40] = 17;
    sixth[53] = 9;
    sixth[56] = 7;
    let cases: [(u16, &[u8], &[u8], Result<usize, Skip>); 12] = [
        (0, &[2, 0, 0, 0], packet, Ok(16)),
        (101, &[], packet, Ok(16)),
        (101, &[], &sixth, Ok(1)),
        (101, &[], &[], Err(Skip::Malformed)),
        (101, &[], &[0x50], Err(Skip::NotIp)),
        (
            113,
            &[0, 0, 0, 1, 0, 6, 1, 2, 3, 4, 5, 6, 0, 0, 8, 0],
            packet,
            Ok(16),
        ),
        (
            276,
            &[8, 0, 0, 0, 0, 0, 0, 2, 0, 1, 0, 6, 1, 2, 3, 4, 5, 6, 0, 0],
            packet,
            Ok(16),
        ),
        (228, &[], packet, Ok(16)),
        (229, &[], &sixth, Ok(1)),
        (229, &[], packet, Err(Skip::Malformed)),
        (105, &[], packet, Err(Skip::NotIp)),
        (113, &[], &[0; 15], Err(Skip::Malformed)),
    ];
    for (link, front, rest, want) in cases {
        let frame = joined(alloc, front, &[], rest)?;
        let answer = datagram(link, &frame).map(|sent| sent.payload.len());
        assert_eq!(rt; answer, want, "link {link}");
    }
    let tags: [&[u8]; 2] = [
        &[0x81, 0, 0, 5, 0x81, 0, 0, 6, 8, 0],
        &[0x88, 0xa8, 0, 5, 8, 0],
    ];
    for tags in tags {
        let frame = joined(alloc, addresses, tags, packet)?;
        assert_eq!(rt; datagram(1, &frame).map(|sent| sent.payload.len()), Ok(16));
    }
    Ok(())
}

fn joined(alloc: Global, front: &[u8], middle: &[u8], rest: &[u8]) -> Result<PcapRecord, Fail> {
    let mut bytes = Vec::new(alloc);
    bytes.extend_from_slice(front)?;
    bytes.extend_from_slice(middle)?;
    bytes.extend_from_slice(rest)?;
    record(alloc, &bytes, 0)
}

// How many records a capture gives, the stamp of the last one, and the word and place of its fault.
fn outcome(alloc: Global, bytes: &[u8]) -> Result<(u64, u64, &'static str, u64), Fail> {
    let mut files = MemoryFiles::new(alloc)?;
    files.add(alloc, "capture", bytes)?;
    files.set_step(7);
    files.open_file("capture")?;
    let mut pull = Pull::new(alloc)?;
    let mut stamp = 0;
    let mut capture = match open_capture(&mut files, &mut pull) {
        Ok(capture) => capture,
        Err(fault) => return Ok((0, 0, fault.word(), fault.offset())),
    };
    for count in 0..9 {
        match capture.next(alloc, &mut files, &mut pull) {
            Ok(Some(record)) => stamp = record.stamp,
            Ok(None) => return Ok((count, stamp, "", 0)),
            Err(fault) => return Ok((count, stamp, fault.word(), fault.offset())),
        }
    }
    Err(Fail::from("too many records"))
}

#[test]
fn captures(rt: HostRuntime) -> Result<(), Fail> {
    let alloc = rt.alloc();
    let mut little = Vec::new(alloc);
    little.extend_from_slice(&[
        0xd4, 0xc3, 0xb2, 0xa1, 2, 0, 4, 0, 0, 0, 0, 0, 0, 0, 0, 0, 0, 0, 4, 0, 1, 0, 0, 0,
    ])?;
    little.extend_from_slice(&[1, 0, 0, 0, 2, 0, 0, 0, 58, 0, 0, 0, 58, 0, 0, 0])?;
    little.extend_from_slice(&FRAME)?;
    let mut big = Vec::new(alloc);
    big.extend_from_slice(&[
        0xa1, 0xb2, 0x3c, 0x4d, 0, 2, 0, 4, 0, 0, 0, 0, 0, 0, 0, 0, 0, 4, 0, 0, 0, 0, 0, 1,
    ])?;
    big.extend_from_slice(&[0, 0, 0, 1, 0, 0, 0, 2, 0, 0, 0, 58, 0, 0, 0, 58])?;
    big.extend_from_slice(&FRAME)?;
    let mut written = Vec::new(alloc);
    written.extend_from_slice(&header_bytes(101))?;
    written.extend_from_slice(record_bytes(alloc, 1_999_999_999, &FRAME[14..])?.bytes())?;
    assert_eq!(rt; outcome(alloc, &big)?, (1, 1_000_000_002, "", 0));
    assert_eq!(rt; outcome(alloc, &written)?, (1, 1_999_999_999, "", 0));

    // The capture has so many bytes, and one of them is another one.
    let cases = [
        (98, 0, 0xd4, (1, 1_000_002_000, "", 0)),
        (97, 0, 0xd4, (0, 0, "cut-record", 24)),
        (25, 0, 0xd4, (0, 0, "cut-record", 24)),
        (24, 0, 0xd4, (0, 0, "", 0)),
        (23, 0, 0xd4, (0, 0, "cut-header", 0)),
        (98, 0, 0xd5, (0, 0, "magic", 0)),
        (98, 4, 3, (0, 0, "version", 0)),
        (98, 20, 105, (0, 0, "link", 0)),
        (98, 22, 1, (1, 1_000_002_000, "", 0)),
        (98, 30, 16, (0, 0, "fraction", 24)),
        (98, 34, 5, (0, 0, "length", 24)),
    ];
    for (i, (size, place, value, want)) in cases.into_iter().enumerate() {
        let mut capture = little.clone()?;
        assert!(rt; place < capture.len());
        capture[place] = value;
        assert!(rt; size <= capture.len());
        assert_eq!(rt; outcome(alloc, &capture[..size])?, want, "at {i}");
    }
    Ok(())
}

#[test]
fn either_form(rt: HostRuntime) -> Result<(), Fail> {
    let alloc = rt.alloc();
    let mut files = MemoryFiles::new(alloc)?;
    files.add(alloc, "pcap", &header_bytes(1))?;
    files.add(
        alloc,
        "pcapng",
        &[
            0x0a, 0x0d, 0x0d, 0x0a, 28, 0, 0, 0, 0x4d, 0x3c, 0x2b, 0x1a, 1, 0, 0, 0, 1, 2, 3, 4, 5,
            6, 7, 8,
        ],
    )?;
    let mut pull = Pull::new(alloc)?;
    files.open_file("pcap")?;
    assert!(rt; matches!(open_any(&mut files, &mut pull), Ok(Opened::Pcap(_))));
    files.open_file("pcapng")?;
    match open_any(&mut files, &mut pull) {
        Ok(Opened::Ng { head }) => assert_eq!(rt; (head[20], head[23]), (5, 8)),
        _ => return Err(Fail::from("no pcapng file")),
    }
    Ok(())
}
