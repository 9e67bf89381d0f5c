//! Files whose bytes come from outside, with one fault each.
use crate::{Ng, NgFault};
use pcap_file::{Opened, open_any};
use rtp_io::{Files, MemoryFiles, Pull};
use std::alloc::Global;
use std::test::Fail;

// A section header, an Ethernet interface, and a packet of 58 bytes, in little order.
const LITTLE: [u8; 140] = [
    0x0a, 0x0d, 0x0d, 0x0a, 28, 0, 0, 0, 0x4d, 0x3c, 0x2b, 0x1a, 1, 0, 0, 0, 255, 255, 255, 255,
    255, 255, 255, 255, 28, 0, 0, 0, 1, 0, 0, 0, 20, 0, 0, 0, 1, 0, 0, 0, 0, 0, 4, 0, 20, 0, 0, 0,
    6, 0, 0, 0, 92, 0, 0, 0, 0, 0, 0, 0, 0, 0, 0, 0, 7, 0, 0, 0, 58, 0, 0, 0, 58, 0, 0, 0, 2, 0, 0,
    0, 0, 2, 2, 0, 0, 0, 0, 1, 0x08, 0x00, 0x45, 0, 0, 0x2c, 0, 0, 0, 0, 0x40, 0x11, 0, 0, 10, 0,
    0, 1, 10, 0, 0, 2, 0x9c, 0x40, 0x13, 0x8c, 0, 0x18, 0, 0, 0x80, 0x60, 0, 1, 0, 0, 0, 0, 0x11,
    0x22, 0x33, 0x44, 1, 2, 3, 4, 0, 0, 92, 0, 0, 0,
];

// A section header in big order.
const BIG: [u8; 28] = [
    0x0a, 0x0d, 0x0d, 0x0a, 0, 0, 0, 28, 0x1a, 0x2b, 0x3c, 0x4d, 0, 1, 0, 0, 255, 255, 255, 255,
    255, 255, 255, 255, 0, 0, 0, 28,
];

// A raw interface in big order with a resolution of 2 ^ -1 and an offset of 3 seconds.
const BIG_INTERFACE: [u8; 40] = [
    0, 0, 0, 1, 0, 0, 0, 40, 0, 101, 0, 0, 0, 0, 0, 2, 0, 9, 0, 1, 129, 0, 0, 0, 0, 14, 0, 8, 0, 0,
    0, 0, 0, 0, 0, 3, 0, 0, 0, 40,
];

// A packet of that interface, of one byte.
const BIG_PACKET: [u8; 36] = [
    0, 0, 0, 6, 0, 0, 0, 36, 0, 0, 0, 0, 0, 0, 0, 0, 0, 0, 0, 5, 0, 0, 0, 1, 0, 0, 0, 9, 0x45, 0,
    0, 0, 0, 0, 0, 36,
];

// A simple packet of five bytes, of which the snap length includes two.
const BIG_SIMPLE: [u8; 20] = [
    0, 0, 0, 3, 0, 0, 0, 20, 0, 0, 0, 5, 0x45, 1, 0, 0, 0, 0, 0, 20,
];

// How many records a file gives, the stamp of the last one, and the word and place of its fault.
fn outcome(alloc: Global, bytes: &[u8]) -> Result<(u64, u64, &'static str, u64), Fail> {
    let mut files = MemoryFiles::new(alloc)?;
    files.add(alloc, "capture", bytes)?;
    files.set_step(7);
    files.open_file("capture")?;
    let mut pull = Pull::new(alloc)?;
    let mut stamp = 0;
    let mut ng = match open_any(&mut files, &mut pull) {
        Ok(Opened::Ng { head }) => Ng::start(alloc, head)?,
        Ok(Opened::Pcap(_)) => return Err(Fail::from("a pcap file")),
        Err(fault) => return Ok((0, 0, fault.word(), fault.offset())),
    };
    for count in 0..9 {
        match ng.next(alloc, &mut files, &mut pull) {
            Ok(Some(record)) => stamp = record.rec.stamp,
            Ok(None) => return Ok((count, stamp, "", 0)),
            Err(fault) => return Ok((count, stamp, fault.word(), fault.offset())),
        }
    }
    Err(Fail::from("too many records"))
}

#[test]
fn files_with_one_fault(rt: HostRuntime) -> Result<(), Fail> {
    let alloc = rt.alloc();
    // The file has so many bytes, and one of them is another one.
    let cases = [
        (140, 0, 0x0a, (1, 7000, "", 0)),
        (139, 0, 0x0a, (0, 0, "cut-block", 48)),
        (51, 0, 0x0a, (0, 0, "cut-block", 48)),
        (48, 0, 0x0a, (0, 0, "", 0)),
        (24, 0, 0x0a, (0, 0, "cut-block", 0)),
        (140, 8, 0x4e, (0, 0, "order", 0)),
        (140, 4, 30, (0, 0, "block", 0)),
        (140, 32, 16, (0, 0, "block", 28)),
        (140, 44, 24, (0, 0, "block", 28)),
        (140, 12, 2, (0, 0, "version", 0)),
        (140, 36, 105, (0, 0, "link", 28)),
        (140, 56, 1, (0, 0, "interface", 48)),
        (140, 68, 61, (0, 0, "length", 48)),
        (140, 70, 5, (0, 0, "length", 48)),
        (140, 62, 64, (0, 0, "time", 48)),
    ];
    for (i, (size, place, value, want)) in cases.into_iter().enumerate() {
        let mut file = LITTLE;
        assert!(rt; place < 140);
        file[place] = value;
        assert!(rt; size <= 140);
        assert_eq!(rt; outcome(alloc, &file[..size])?, want, "at {i}");
    }
    Ok(())
}

#[test]
fn options_and_sections(rt: HostRuntime) -> Result<(), Fail> {
    let alloc = rt.alloc();
    // One byte of the second section's interface is another one.
    let cases = [
        (0, 0, (3, 5_500_000_000, "", 0)),
        (20, 127, (1, 7000, "resolution", 168)),
        (20, 128, (3, 8_000_000_000, "", 0)),
        (19, 2, (1, 7000, "option", 168)),
        (26, 1, (1, 7000, "option", 168)),
        (25, 13, (3, 2_500_000_000, "", 0)),
        (17, 0, (3, 5_000, "", 0)),
        (28, 255, (1, 7000, "time", 208)),
    ];
    for (i, (place, value, want)) in cases.into_iter().enumerate() {
        let mut interface = BIG_INTERFACE;
        assert!(rt; place < 40);
        interface[place] = value;
        let mut file = Vec::new(alloc);
        file.extend_from_slice(&LITTLE)?;
        file.extend_from_slice(&BIG)?;
        file.extend_from_slice(&interface)?;
        file.extend_from_slice(&BIG_PACKET)?;
        file.extend_from_slice(&BIG_SIMPLE)?;
        assert_eq!(rt; outcome(alloc, &file)?, want, "at {i}");
    }
    Ok(())
}

#[test]
fn interfaces_of_a_section(rt: HostRuntime) -> Result<(), Fail> {
    let alloc = rt.alloc();
    let mut file = Vec::new(alloc);
    file.extend_from_slice(&LITTLE[..28])?;
    for _ in 0..1024 {
        file.extend_from_slice(&LITTLE[28..48])?;
    }
    assert_eq!(rt; outcome(alloc, &file)?, (0, 0, "", 0));
    file.extend_from_slice(&LITTLE[28..48])?;
    assert_eq!(rt; outcome(alloc, &file)?, (0, 0, "many", 20_508));
    Ok(())
}

#[test]
fn a_failed_read(rt: HostRuntime) -> Result<(), Fail> {
    let alloc = rt.alloc();
    let mut files = MemoryFiles::new(alloc)?;
    files.add(alloc, "capture", &LITTLE)?;
    files.set_step(40);
    files.fail_at(4)?;
    files.open_file("capture")?;
    let mut pull = Pull::new(alloc)?;
    let Ok(Opened::Ng { head }) = open_any(&mut files, &mut pull) else {
        return Err(Fail::from("no pcapng file"));
    };
    let mut ng = Ng::start(alloc, head)?;
    assert!(rt;
        matches!(
            ng.next(alloc, &mut files, &mut pull),
            Err(NgFault::ReadFault)
        )
    );
    Ok(())
}
